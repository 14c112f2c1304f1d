// Bytes as base64.
ghost use Rattle.base64.specs.Engines.{standard};
ghost use Rattle.base64.specs.GeneralPurpose.{decoded_of};
ghost use Rattle.wf_value.specs.Answers.{IsAnswerOf};
ghost use Rattle.wf_value.specs.LibData.{base64_decode, base64_encode};
ghost use Rattle.wf_value.specs.Data.{bytes, text};
ghost use Rattle.wf_value.specs.Plain.{plain};

use base64::DecodeAllocError;
use base64::engine::general_purpose::STANDARD;
use std::alloc::Global;
use wf_value::{Raise, Tag, Value, sized_bytes, sized_text};

/// `base64.encode`: the padded standard base64 of bytes (RFC 4648, section 4).
///
/// A TypeError where `data` is not bytes; a ResourceLimitError where the text is past the limit on
/// size, 4,194,304.
pub fn base64_encode(alloc: Global, data: &Value) -> Result<Value, Raise>
    ensures { IsAnswerOf result (base64_encode (plain data.now)) }
{
    match data {
        Value::Bytes(b) => {
            let code = STANDARD.encode(alloc, b.as_slice())?;
            sized_text(alloc, code.as_str())
        }
        _ => Err(Raise::Error(Tag::TypeError)),
    }
}

/// `base64.decode`: the bytes whose padded standard base64 a text is (RFC 4648, section 4).
///
/// A TypeError where `data` is no text; a ValueError where it is the base64 of no bytes: with a
/// character of no base64, without its padding or with more, or with bits left over that aren't 0;
/// a ResourceLimitError where the bytes are past the limit on size, 4,194,304.
pub fn base64_decode(alloc: Global, data: &Value) -> Result<Value, Raise>
    ensures { IsAnswerOf result (base64_decode (plain data.now)) }
{
    match data {
        Value::Text(s) => decoded(alloc, s.as_str()),
        _ => Err(Raise::Error(Tag::TypeError)),
    }
}

fn decoded(alloc: Global, s: &str) -> Result<Value, Raise>
    ensures { IsAnswerOf result (base64_decode (text s.now)) }
{
    match STANDARD.decode(alloc, s.as_bytes()) {
        Ok(b) => sized_bytes(alloc, b.as_slice()),
        Err(DecodeAllocError::DecodeError(_)) => Err(Raise::Error(Tag::ValueError)),
        Err(DecodeAllocError::OutOfMemory) => Err(Raise::OutOfMemory),
    }
}
