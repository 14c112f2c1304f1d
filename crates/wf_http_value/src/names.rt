// The names of fields.
ghost use Rattle.std.specs.Prelude.{◌≡◌, IfOk, true};
ghost use Rattle.wf_value.specs.HttpText.{proper_name};

use std::alloc::Global;
use wf_value::{OutOfMemory, Text};

/// The name with a capital first and after each dash, and lower case elsewhere.
pub(crate) fn proper_name(alloc: Global, name: &str) -> Result<Text, OutOfMemory>
    ensures { IfOk result (λ t. t ≡ proper_name true name.now) }
{
    let bytes = proper_bytes(alloc, name.as_bytes())?;
    match str::from_utf8(bytes.as_slice()) {
        Ok(proper) => Text::new(alloc, proper),
        Err(_) => unreachable!(),
    }
}

fn proper_bytes(alloc: Global, name: &[u8]) -> Result<Vec<u8>, OutOfMemory>
    ensures { IfOk result (λ b. b.items ≡ proper_name true name.now) }
{
    let mut proper = Vec::new(alloc);
    let mut is_first = true;
    for byte in name {
        let letter = if is_first {
            byte.to_ascii_uppercase()
        } else {
            byte.to_ascii_lowercase()
        };
        proper.push(letter)?;
        is_first = *byte == b'-';
    }
    Ok(proper)
}
