// Values as JSON, and what they measure.
use std::alloc::Global;
use wf_cases::{CaseFault, blob_of, bytes_of, json_of, text_of, utf8};
use wf_json_laws::{compact, read_again, said_values_come_back};
use wf_value::{JsonFault, Text, Value, from_json};

/// A value as JSON, or `none`.
pub(crate) fn written_if(alloc: Global, value: Option<&Value>) -> Result<String, CaseFault> {
    match value {
        Some(value) => json_of(alloc, value),
        None => Ok(String::from_str(alloc, "none")?),
    }
}

/// A text is read, and the value is written.
pub(crate) fn read(alloc: Global, items: &[Value]) -> Result<String, CaseFault> {
    let source = text_of(alloc, items)?;
    written_or_fault(alloc, from_json(alloc, source.as_bytes()))
}

/// Bytes are read, and the value is written.
pub(crate) fn read_bytes(alloc: Global, items: &[Value]) -> Result<String, CaseFault> {
    let digits = text_of(alloc, items)?;
    let source = bytes_of(alloc, &Value::Text(Text::new(alloc, digits.as_str())?))?;
    written_or_fault(alloc, from_json(alloc, source.as_slice()))
}

fn written_or_fault(alloc: Global, read: Result<Value, JsonFault>) -> Result<String, CaseFault> {
    match read {
        Ok(value) => json_of(alloc, &value),
        Err(fault) => Ok(format!(in alloc; "{fault:?}")?),
    }
}

/// The compact text of what a text says.
pub(crate) fn compacted(alloc: Global, items: &[Value]) -> Result<String, CaseFault> {
    let source = text_of(alloc, items)?;
    match compact(alloc, source.as_bytes()) {
        Ok(bytes) => utf8(bytes),
        Err(fault) => Ok(format!(in alloc; "{fault:?}")?),
    }
}

/// A text is read, and its value is written and read again: whether the two are the same, and what the second one is written as.
pub(crate) fn again(alloc: Global, items: &[Value]) -> Result<String, CaseFault> {
    // laws that the proof uses
    said_values_come_back();
    let source = text_of(alloc, items)?;
    let first = from_json(alloc, source.as_bytes())?;
    let second = read_again(alloc, &first)?;
    let shown = json_of(alloc, &second)?;
    Ok(format!(in alloc; "{} {shown}", first.same(&second))?)
}

/// The depth and the size of what a text says.
pub(crate) fn measures(alloc: Global, items: &[Value]) -> Result<String, CaseFault> {
    let source = text_of(alloc, items)?;
    let value = from_json(alloc, source.as_bytes())?;
    Ok(format!(in alloc; "{} {}", value.depth(), value.size())?)
}

/// Bytes as a value: what a copy is written as, its size, and whether it is the same.
pub(crate) fn bytes(alloc: Global, item: &Value) -> Result<String, CaseFault> {
    let bytes = blob_of(alloc, item)?;
    let copy = Value::Bytes(bytes.copy()?);
    let shown = json_of(alloc, &copy)?;
    let size = copy.size();
    Ok(format!(in alloc; "{shown} {size} {}", copy.same(&Value::Bytes(bytes)))?)
}

/// A text as a value: what a copy is written as, its size, and whether it is the same.
pub(crate) fn texts(alloc: Global, item: &str) -> Result<String, CaseFault> {
    let text = Text::new(alloc, item)?;
    let copy = Value::Text(text.copy()?);
    let shown = json_of(alloc, &copy)?;
    let size = copy.size();
    Ok(format!(in alloc; "{shown} {size} {}", copy.same(&Value::Text(text)))?)
}

/// Whether two values are the same.
pub(crate) fn same(first: &Value, second: &Value, alloc: Global) -> Result<String, CaseFault> {
    Ok(format!(in alloc; "{}", first.same(second))?)
}
