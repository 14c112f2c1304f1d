// Texts and the bytes that they are.
ghost use Rattle.wf_value.specs.Answers.{IsAnswerOf};
ghost use Rattle.wf_value.specs.LibText.{as_utf8, text_decode, text_encode};
ghost use Rattle.wf_value.specs.Plain.{plain};

use std::alloc::Global;
use wf_value::{Raise, Tag, Value, sized_bytes, sized_text};

/// `text.encode`: the bytes of a text in UTF-8.
///
/// A TypeError where `source` is no text; a ResourceLimitError where the bytes are past the limit on
/// size, 4,194,304.
pub fn text_encode(alloc: Global, source: &Value) -> Result<Value, Raise>
    ensures { IsAnswerOf result (text_encode (plain source.now)) }
{
    match source {
        Value::Text(s) => sized_bytes(alloc, s.as_str().as_bytes()),
        _ => Err(Raise::Error(Tag::TypeError)),
    }
}

/// `text.decode`: the text that some bytes are in UTF-8.
///
/// A TypeError where `source` is not bytes; a ValueError where they are no UTF-8 (RFC 3629); a
/// ResourceLimitError where the text is past the limit on size, 4,194,304.
pub fn text_decode(alloc: Global, source: &Value) -> Result<Value, Raise>
    ensures { IsAnswerOf result (text_decode (plain source.now)) }
{
    match source {
        Value::Bytes(b) => decoded(alloc, b.as_slice()),
        _ => Err(Raise::Error(Tag::TypeError)),
    }
}

/// The text that some bytes are, if they are UTF-8.
pub(crate) fn decoded(alloc: Global, b: &[u8]) -> Result<Value, Raise>
    ensures { IsAnswerOf result (as_utf8 b.now) }
{
    match std::str::from_utf8(b) {
        Ok(s) => sized_text(alloc, s),
        Err(_) => Err(Raise::Error(Tag::ValueError)),
    }
}
