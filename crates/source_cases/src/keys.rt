// Keys of pairs.
use crate::kinds::name_of;
use crate::texts::{chars_of, push_chars, push_quoted};
use std::alloc::Global;
use wf_cases::CaseFault;
use wf_value::Value;
use wf_yaml_line::{Key, KeySet, is_delay_key, read_key};

/// The key at the start of a text, the key's own fault in line 7, and what stands behind it.
pub(crate) fn key(alloc: Global, text: &str) -> Result<String, CaseFault> {
    let chars = chars_of(alloc, text)?;
    let mut out = String::new(alloc);
    write_read(alloc, &mut out, chars.as_slice())?;
    Ok(out)
}

fn write_read(alloc: Global, out: &mut String, chars: &[char]) -> Result<(), CaseFault> {
    match read_key(alloc, chars)? {
        Some(key) => write_key(alloc, out, &key),
        None => Ok(out.push_str("none")?),
    }
}

fn write_key(alloc: Global, out: &mut String, key: &Key<'_>) -> Result<(), CaseFault> {
    push_quoted(alloc, out, key.text.as_str())?;
    match key.refusal(7) {
        Some(fault) => write!(out, " {} at {} ", name_of(fault.kind), fault.line)?,
        None => out.push_str(" good ")?,
    }
    push_chars(alloc, out, key.rest)
}

/// Whether a key's value may be a decimal.
pub(crate) fn delay_key(alloc: Global, key: &str) -> Result<String, CaseFault> {
    Ok(format!(in alloc; "{}", is_delay_key(key))?)
}

/// Whether a key stands among some.
pub(crate) fn held(alloc: Global, keys: &Value, key: &str) -> Result<String, CaseFault> {
    let Value::List(keys) = keys else {
        return Err(CaseFault::NoCase);
    };
    let holds = set_of(alloc, keys.items())?.holds(key);
    Ok(format!(in alloc; "{holds}")?)
}

fn set_of(alloc: Global, keys: &[Value]) -> Result<KeySet, CaseFault> {
    let mut set = KeySet::new(alloc)?;
    for item in keys {
        add(&mut set, item)?;
    }
    Ok(set)
}

fn add(set: &mut KeySet, key: &Value) -> Result<(), CaseFault> {
    match key {
        Value::Text(text) => Ok(set.add(text.copy()?)?),
        _ => Err(CaseFault::NoCase),
    }
}
