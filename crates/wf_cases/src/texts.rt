// Texts as they are printed.
use crate::CaseFault;
use std::alloc::Global;
use wf_value::{Text, Value, to_json};

/// The text that some bytes are.
pub fn utf8(bytes: Vec<u8>) -> Result<String, CaseFault> {
    match String::from_utf8(bytes) {
        Ok(text) => Ok(text),
        Err(_) => Err(CaseFault::NoCase),
    }
}

/// A value as compact JSON. One that nests deeper than 100 is no case.
pub fn json_of(alloc: Global, value: &Value) -> Result<String, CaseFault> {
    if value.depth() > 100 {
        return Err(CaseFault::NoCase);
    }
    utf8(to_json(alloc, value)?)
}

/// A text as a JSON text.
pub fn quoted(alloc: Global, text: &str) -> Result<String, CaseFault> {
    json_of(alloc, &Value::Text(Text::new(alloc, text)?))
}
