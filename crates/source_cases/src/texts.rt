// Texts as they are printed, and sources as they are told.
use std::alloc::Global;
use wf_cases::{CaseFault, quoted};

/// More than any source has here.
pub(crate) const TOO_LONG: usize = 1_000_000;

/// The characters of a text.
pub(crate) fn chars_of(alloc: Global, text: &str) -> Result<Vec<char>, CaseFault> {
    let mut chars = Vec::new(alloc);
    for c in text.chars() {
        if chars.push(c).is_err() {
            return Err(CaseFault::OutOfMemory);
        }
    }
    Ok(chars)
}

/// Adds a text as a JSON text.
pub(crate) fn push_quoted(alloc: Global, out: &mut String, text: &str) -> Result<(), CaseFault> {
    let text = quoted(alloc, text)?;
    Ok(out.push_str(text.as_str())?)
}

/// Adds characters as a JSON text.
pub(crate) fn push_chars(alloc: Global, out: &mut String, chars: &[char]) -> Result<(), CaseFault> {
    let text = wf_yaml_line::text_of(alloc, chars)?;
    push_quoted(alloc, out, text.as_str())
}

/// A word.
pub(crate) fn word(alloc: Global, text: &str) -> Result<String, CaseFault> {
    Ok(String::from_str(alloc, text)?)
}
