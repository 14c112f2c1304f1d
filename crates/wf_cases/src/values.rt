// Values that a case tells: JSON has no bytes, so a map of the one key `hex` with a text is bytes.
use crate::{CaseFault, bytes_of};
use std::alloc::Global;
use wf_value::{Bytes, List, Map, Text, Value};

/// Lists and maps in each other, at most, and one more for what stands in the innermost.
const DEEPEST: u32 = 101;

/// The value that an item stands for: a map of the one key `hex` with a text is bytes, at any depth. What stands in more
/// than 100 lists and maps in each other is no case.
pub fn value_of(alloc: Global, item: &Value) -> Result<Value, CaseFault> {
    told(alloc, item, DEEPEST)
}

/// The values that items stand for.
pub fn values_of(alloc: Global, items: &[Value]) -> Result<List, CaseFault> {
    told_all(alloc, items, DEEPEST)
}

/// The bytes that a value stands for as in `bytes_of`, as a value holds them.
pub fn blob_of(alloc: Global, value: &Value) -> Result<Bytes, CaseFault> {
    let bytes = bytes_of(alloc, value)?;
    Ok(Bytes::new(alloc, bytes.as_slice())?)
}

/// The value that an item stands for.
#[cycle(told)]
fn told(alloc: Global, item: &Value, depth: u32) -> Result<Value, CaseFault> {
    if depth == 0 {
        return Err(CaseFault::NoCase);
    }
    match item {
        Value::List(list) => Ok(Value::List(told_all(alloc, list.items(), depth - 1)?)),
        Value::Map(map) => match hex_in(map) {
            Some(hex) => Ok(Value::Bytes(blob_of(alloc, hex)?)),
            None => Ok(Value::Map(told_pairs(alloc, map, depth - 1)?)),
        },
        _ => Ok(item.copy(alloc)?),
    }
}

/// What items stand for.
#[cycle(told)]
fn told_all(alloc: Global, items: &[Value], depth: u32) -> Result<List, CaseFault> {
    let mut values = List::new(alloc)?;
    for item in items {
        values.push(told(alloc, item, depth)?)?;
    }
    Ok(values)
}

/// What the values of a map stand for, at their keys.
#[cycle(told)]
fn told_pairs(alloc: Global, map: &Map, depth: u32) -> Result<Map, CaseFault> {
    let mut values = Map::new(alloc)?;
    for i in 0..usize::MAX {
        let Some((key, item)) = map.entry(i) else {
            break;
        };
        let value = told(alloc, item, depth)?;
        values.insert(Text::new(alloc, key)?, value)?;
    }
    Ok(values)
}

/// The text under `hex` in a map of this one key.
fn hex_in(map: &Map) -> Option<&Value> {
    if map.entry(1).is_some() {
        return None;
    }
    match map.get("hex") {
        Some(hex) if matches!(hex, Value::Text(_)) => Some(hex),
        _ => None,
    }
}
