// Long arguments, of which only the size of the answer is printed.
use crate::answers::{kind, tag};
use std::alloc::Global;
use wf_cases::{CaseFault, blob_of, text_of};
use wf_value::{List, Raise, Text, Value, from_json};

/// Arguments that are told piece by piece: a list is a text, a map of the one key `hex` with a list is bytes, and all others are themselves.
pub(crate) fn long_arguments(alloc: Global, items: &[Value]) -> Result<List, CaseFault> {
    let mut values = List::new(alloc)?;
    for item in items {
        values.push(long_argument(alloc, item)?)?;
    }
    Ok(values)
}

fn long_argument(alloc: Global, item: &Value) -> Result<Value, CaseFault> {
    match item {
        Value::List(pieces) => {
            let text = text_of(alloc, pieces.items())?;
            Ok(Value::Text(Text::new(alloc, text.as_str())?))
        }
        Value::Map(map) => match map.get("hex") {
            Some(pieces) => Ok(Value::Bytes(blob_of(alloc, pieces)?)),
            None => Err(CaseFault::NoCase),
        },
        _ => Ok(item.copy(alloc)?),
    }
}

/// The same, but that a list is the value whose JSON is told piece by piece.
pub(crate) fn long_values(alloc: Global, items: &[Value]) -> Result<List, CaseFault> {
    let mut values = List::new(alloc)?;
    for item in items {
        values.push(match item {
            Value::List(pieces) => {
                let json = text_of(alloc, pieces.items())?;
                from_json(alloc, json.as_bytes())?
            }
            _ => long_argument(alloc, item)?,
        })?;
    }
    Ok(values)
}

/// The type of a value, a blank and its size. Of an error its tag.
pub(crate) fn measured(alloc: Global, answer: Result<Value, Raise>) -> Result<String, CaseFault> {
    match answer {
        Ok(value) => Ok(format!(in alloc; "{} {}", kind(&value), value.size())?),
        Err(raise) => tag(alloc, raise),
    }
}
