// Bodies as JSON.
ghost use Rattle.std.specs.Prelude.{◌≡◌, IfOk, option_map};
ghost use Rattle.wf_value.specs.Decode.{json_value};
ghost use Rattle.wf_value.specs.Plain.{plain};

use std::alloc::Global;
use wf_value::{
    JsonFault, OutOfMemory, Value, from_json, reading_is_a_function, reading_is_decided,
};

/// The value that the bytes say, if they say one. The laws of reading say that what is read is the
/// value, and that a fault leaves none.
pub(crate) fn json_value(alloc: Global, bytes: &[u8]) -> Result<Option<Value>, OutOfMemory>
    ensures { IfOk result (λ v. option_map plain v ≡ json_value bytes.now) }
{
    // laws that the proof uses
    reading_is_a_function();
    reading_is_decided();
    match from_json(alloc, bytes) {
        Ok(value) => Ok(Some(value)),
        Err(JsonFault::OutOfMemory) => Err(OutOfMemory),
        Err(_) => Ok(None),
    }
}
