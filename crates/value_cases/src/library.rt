// Functions of the library. A case is the name of a function and its arguments. The answer is the type of the value, a blank and the value,
// or the tag of the error.
use crate::answers::shown;
use crate::long::{long_arguments, long_values, measured};
use crate::{data, helpers, text, time};
use std::alloc::Global;
use wf_cases::{Case, CaseFault, values_of};
use wf_value::{List, Raise, Value};

/// What a function gives for some arguments.
fn called(alloc: Global, name: &str, args: &[Value]) -> Result<Result<Value, Raise>, CaseFault> {
    match name.split_once('.') {
        None => helpers::called(alloc, name, args),
        Some(("text", _)) => text::called(alloc, name, args),
        Some(("time", _)) => time::called(alloc, name, args),
        Some(_) => data::called(alloc, name, args),
    }
}

/// What is printed of a case.
pub(crate) fn answered(alloc: Global, case: &Case<'_>) -> Result<String, CaseFault> {
    let [_, told @ ..] = case.items() else {
        return Err(CaseFault::NoCase);
    };
    let name = case.text(0)?;
    match case.table {
        "library_helpers"
        | "library_text"
        | "library_data"
        | "library_time"
        | "text_functions"
        | "data_functions"
        | "time_functions" => short(alloc, name, told),
        "long_texts" => long(alloc, name, &long_arguments(alloc, told)?),
        "long_values" => long(alloc, name, &long_values(alloc, told)?),
        _ => Err(CaseFault::NoCase),
    }
}

/// What a function gives, told whole.
fn short(alloc: Global, name: &str, told: &[Value]) -> Result<String, CaseFault> {
    let args = values_of(alloc, told)?;
    shown(alloc, called(alloc, name, args.items())?)
}

/// What a function gives, told by its size.
fn long(alloc: Global, name: &str, args: &List) -> Result<String, CaseFault> {
    measured(alloc, called(alloc, name, args.items())?)
}
