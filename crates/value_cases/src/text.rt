// The functions of texts.
use std::alloc::Global;
use wf_cases::CaseFault;
use wf_lib_text::{
    text_decode, text_encode, text_find_all, text_replace_all, text_split, text_substring,
    text_to_lower, text_to_upper, text_url_decode, text_url_encode,
};
use wf_value::{Raise, Value};

/// What a function of texts gives.
pub(crate) fn called(
    alloc: Global,
    name: &str,
    args: &[Value],
) -> Result<Result<Value, Raise>, CaseFault> {
    match (name, args) {
        (_, [s]) => of_one(alloc, name, s),
        ("text.split", [s, separator]) => Ok(text_split(alloc, s, separator)),
        ("text.find_all", [s, part]) => Ok(text_find_all(alloc, s, part)),
        ("text.replace_all", [s, part, other]) => Ok(text_replace_all(alloc, s, part, other)),
        ("text.substring", [s, start, end]) => Ok(text_substring(alloc, s, start, end)),
        _ => Err(CaseFault::NoCase),
    }
}

/// What one of a single argument gives.
fn of_one(alloc: Global, name: &str, value: &Value) -> Result<Result<Value, Raise>, CaseFault> {
    match name {
        "text.to_upper" => Ok(text_to_upper(alloc, value)),
        "text.to_lower" => Ok(text_to_lower(alloc, value)),
        "text.url_encode" => Ok(text_url_encode(alloc, value)),
        "text.url_decode" => Ok(text_url_decode(alloc, value)),
        "text.encode" => Ok(text_encode(alloc, value)),
        "text.decode" => Ok(text_decode(alloc, value)),
        _ => Err(CaseFault::NoCase),
    }
}
