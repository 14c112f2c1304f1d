// Texts and bytes that are told piece by piece.
use crate::CaseFault;
use std::alloc::Global;
use wf_value::Value;

/// The text that some items are, joined: a text stands for itself, and a list of a text and a number for that text so many times over.
pub fn text_of(alloc: Global, items: &[Value]) -> Result<String, CaseFault> {
    let mut text = String::new(alloc);
    for item in items {
        let (piece, times) = piece_of(item)?;
        for _ in 0..times {
            text.push_str(piece)?;
        }
    }
    Ok(text)
}

/// The bytes that a value stands for: a text in hex, or a list whose items are joined as those of a text.
pub fn bytes_of(alloc: Global, value: &Value) -> Result<Vec<u8>, CaseFault> {
    let mut bytes = Vec::new(alloc);
    match value {
        Value::Text(text) => push_hex(&mut bytes, text.as_str())?,
        Value::List(items) => {
            for item in items.items() {
                let (piece, times) = piece_of(item)?;
                for _ in 0..times {
                    push_hex(&mut bytes, piece)?;
                }
            }
        }
        _ => return Err(CaseFault::NoCase),
    }
    Ok(bytes)
}

/// Bytes in hex, in lower case.
pub fn hex_of(alloc: Global, bytes: &[u8]) -> Result<String, CaseFault> {
    let mut text = String::new(alloc);
    for byte in bytes {
        for digit in [byte >> 4, byte & 15] {
            match char::from_digit(u32::from(digit), 16) {
                Some(c) => text.push(c)?,
                None => return Err(CaseFault::NoCase),
            }
        }
    }
    Ok(text)
}

/// A piece, and how many times over it stands.
fn piece_of(item: &Value) -> Result<(&str, u64), CaseFault> {
    match item {
        Value::Text(text) => Ok((text.as_str(), 1)),
        Value::List(pair) => match pair.items() {
            [Value::Text(text), Value::Int(times)] => match u64::try_from(*times) {
                Ok(times) => Ok((text.as_str(), times)),
                Err(_) => Err(CaseFault::NoCase),
            },
            _ => Err(CaseFault::NoCase),
        },
        _ => Err(CaseFault::NoCase),
    }
}

/// Adds the bytes that a text tells in hex.
fn push_hex(bytes: &mut Vec<u8>, text: &str) -> Result<(), CaseFault> {
    let mut high = None;
    for c in text.chars() {
        let Some(digit) = c.to_digit(16) else {
            return Err(CaseFault::NoCase);
        };
        let digit = digit as u8;
        match high {
            None => high = Some(digit),
            Some(first) => {
                if bytes.push(first << 4 | digit).is_err() {
                    return Err(CaseFault::OutOfMemory);
                }
                high = None;
            }
        }
    }
    match high {
        None => Ok(()),
        Some(_) => Err(CaseFault::NoCase),
    }
}
