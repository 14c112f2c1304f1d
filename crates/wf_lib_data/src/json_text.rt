// Values as JSON.
ghost use Rattle.std.specs.Prelude.{◌≡◌, ◌≤◌};
ghost use Rattle.wf_lib_data.specs.Lent.{raised};
ghost use Rattle.wf_value.specs.Answers.{IsAnswerOf};
ghost use Rattle.wf_value.specs.LibData.{json_decode, json_encode, json_encode_to_string};
ghost use Rattle.wf_value.specs.Data.{bytes, depth};
ghost use Rattle.wf_value.specs.Plain.{plain};

use std::alloc::Global;
use wf_value::{
    JsonFault, Raise, Tag, Value, from_json, reading_is_a_function, reading_is_decided, sized,
    sized_bytes, sized_text, to_json,
};

/// `json.encode`: the compact JSON of a value (RFC 8259), as its bytes in UTF-8. Bytes in it are
/// their padded base64, as a text.
///
/// A ResourceLimitError where the bytes are past the limit on size, 4,194,304.
pub fn json_encode(alloc: Global, data: &Value) -> Result<Value, Raise>
    requires { depth (plain data.now) ≤ 100 }
    ensures { IsAnswerOf result (json_encode (plain data.now)) }
{
    let json = to_json(alloc, data)?;
    sized_bytes(alloc, json.as_slice())
}

/// `json.encode_to_string`: the compact JSON of a value (RFC 8259), as a text. Bytes in it are
/// their padded base64, as a text.
///
/// A ResourceLimitError where the text is past the limit on size, 4,194,304.
pub fn json_encode_to_string(alloc: Global, data: &Value) -> Result<Value, Raise>
    requires { depth (plain data.now) ≤ 100 }
    ensures { IsAnswerOf result (json_encode_to_string (plain data.now)) }
{
    let json = to_json(alloc, data)?;
    // JSON is UTF-8.
    match std::str::from_utf8(json.as_slice()) {
        Ok(s) => sized_text(alloc, s),
        Err(_) => Err(Raise::OutOfMemory),
    }
}

/// `json.decode`: the value that a text or bytes say in JSON (RFC 8259). A key that stands twice
/// keeps its last value.
///
/// A TypeError where `data` is neither a text nor bytes; a ValueError where it is no JSON, where a
/// number is no whole number of 64 bits, or where lists and maps nest deeper than 100; a
/// ResourceLimitError where the value is past the limit on size, 4,194,304.
pub fn json_decode(alloc: Global, data: &Value) -> Result<Value, Raise>
    ensures { IsAnswerOf result (json_decode (plain data.now)) }
{
    match data {
        Value::Text(s) => decoded(alloc, s.as_str().as_bytes()),
        Value::Bytes(b) => decoded(alloc, b.as_slice()),
        _ => Err(Raise::Error(Tag::TypeError)),
    }
}

/// The laws of reading say that what is read is the value, and that a fault leaves none.
fn decoded(alloc: Global, b: &[u8]) -> Result<Value, Raise>
    ensures { IsAnswerOf result (json_decode (bytes b.now)) }
{
    // laws that the proof uses
    reading_is_a_function();
    reading_is_decided();
    match from_json(alloc, b) {
        Ok(value) => sized(value),
        Err(fault) => Err(raised(fault)),
    }
}

/// What a fault of reading raises.
fn raised(fault: JsonFault) -> Raise
    ensures { result ≡ raised fault }
{
    match fault {
        JsonFault::OutOfMemory => Raise::OutOfMemory,
        _ => Raise::Error(Tag::ValueError),
    }
}
