// The functions of lists, maps, JSON and base64.
use std::alloc::Global;
use wf_cases::CaseFault;
use wf_lib_data::{
    base64_decode, base64_encode, json_decode, json_encode, json_encode_to_string, list_concat,
    list_prepend, map_delete, map_get, map_merge,
};
use wf_value::{Raise, Value};

/// What a function of lists, maps, JSON and base64 gives.
pub(crate) fn called(
    alloc: Global,
    name: &str,
    args: &[Value],
) -> Result<Result<Value, Raise>, CaseFault> {
    match args {
        [value] => of_one(alloc, name, value),
        [first, second] => of_two(alloc, name, first, second),
        _ => Err(CaseFault::NoCase),
    }
}

/// What one of a single argument gives.
fn of_one(alloc: Global, name: &str, value: &Value) -> Result<Result<Value, Raise>, CaseFault> {
    match name {
        "json.decode" => Ok(json_decode(alloc, value)),
        "base64.encode" => Ok(base64_encode(alloc, value)),
        "base64.decode" => Ok(base64_decode(alloc, value)),
        _ => encoded(alloc, name, value),
    }
}

/// What one of two arguments gives.
fn of_two(
    alloc: Global,
    name: &str,
    first: &Value,
    second: &Value,
) -> Result<Result<Value, Raise>, CaseFault> {
    match name {
        "list.concat" => Ok(list_concat(alloc, first, second)),
        "list.prepend" => Ok(list_prepend(alloc, first, second)),
        "map.get" => Ok(map_get(alloc, first, second)),
        "map.delete" => Ok(map_delete(alloc, first, second)),
        "map.merge" => Ok(map_merge(alloc, first, second)),
        _ => Err(CaseFault::NoCase),
    }
}

/// The JSON of a value, for which it may not nest too deep.
fn encoded(alloc: Global, name: &str, value: &Value) -> Result<Result<Value, Raise>, CaseFault> {
    if value.depth() > 100 {
        return Err(CaseFault::NoCase);
    }
    match name {
        "json.encode" => Ok(json_encode(alloc, value)),
        "json.encode_to_string" => Ok(json_encode_to_string(alloc, value)),
        _ => Err(CaseFault::NoCase),
    }
}
