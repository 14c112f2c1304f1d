// What is printed of an answer.
use std::alloc::Global;
use wf_cases::{CaseFault, hex_of, json_of};
use wf_value::{Raise, Value};

/// The type of a value.
pub(crate) fn kind(value: &Value) -> &'static str {
    match value {
        Value::Null => "null",
        Value::Bool(_) => "boolean",
        Value::Int(_) => "integer",
        Value::Text(_) => "string",
        Value::Bytes(_) => "bytes",
        Value::List(_) => "list",
        Value::Map(_) => "map",
    }
}

/// The type of a value, a blank and the value: bytes in hex, everything else as JSON. Of an error its tag.
pub(crate) fn shown(alloc: Global, answer: Result<Value, Raise>) -> Result<String, CaseFault> {
    match answer {
        Ok(value) => Ok(format!(in alloc; "{} {}", kind(&value), written(alloc, &value)?)?),
        Err(raise) => tag(alloc, raise),
    }
}

/// The tag of an error.
pub(crate) fn tag(alloc: Global, raise: Raise) -> Result<String, CaseFault> {
    match raise {
        Raise::Error(tag) => Ok(String::from_str(alloc, tag.name())?),
        Raise::OutOfMemory => Err(CaseFault::OutOfMemory),
    }
}

fn written(alloc: Global, value: &Value) -> Result<String, CaseFault> {
    if let Value::Bytes(bytes) = value {
        return hex_of(alloc, bytes.as_slice());
    }
    json_of(alloc, value)
}
