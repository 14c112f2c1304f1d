// Escapes of URLs.
ghost use Rattle.std.specs.Prelude.{◌≡◌, IfOk, string_bytes};
ghost use Rattle.percent_encoding.specs.Percent.{percent_decode};
ghost use Rattle.wf_value.specs.Answers.{IsAnswerOf};
ghost use Rattle.wf_value.specs.LibText.{text_url_decode, text_url_encode, url_encoded};
ghost use Rattle.wf_value.specs.Plain.{plain};

use crate::bytes::decoded;
use percent_encoding::{
    AsciiSet, NON_ALPHANUMERIC, ascii_set, percent_decode_str, utf8_percent_encode,
};
use std::alloc::{AllocError, Global};
use wf_value::{Raise, Tag, Value, sized_text};

/// The ASCII bytes that are escaped: all but letters, digits, `-`, `.`, `_` and `~`.
pub const ESCAPED: AsciiSet = ascii_set!(
    NON_ALPHANUMERIC
        .remove(b'-')
        .remove(b'.')
        .remove(b'_')
        .remove(b'~')
);

/// `text.url_encode`: the text with each byte but letters, digits, `-`, `.`, `_` and `~` (the
/// unreserved characters of RFC 3986, section 2.3) as `%HH` in upper case.
///
/// A TypeError where `source` is no text; a ResourceLimitError where the answer is past the limit
/// on size, 4,194,304.
pub fn text_url_encode(alloc: Global, source: &Value) -> Result<Value, Raise>
    ensures { IsAnswerOf result (text_url_encode (plain source.now)) }
{
    match source {
        Value::Text(s) => {
            let escaped = escaped(alloc, s.as_str())?;
            sized_text(alloc, escaped.as_str())
        }
        _ => Err(Raise::Error(Tag::TypeError)),
    }
}

/// `text.url_decode`: the text with each `%HH`, in upper or lower case, as the byte that it stands
/// for (RFC 3986, section 2.1). A `%` without two digits is kept, and so is a `+`.
///
/// A TypeError where `source` is no text; a ValueError where the bytes are no UTF-8 (RFC 3629); a
/// ResourceLimitError where the answer is past the limit on size, 4,194,304.
pub fn text_url_decode(alloc: Global, source: &Value) -> Result<Value, Raise>
    ensures { IsAnswerOf result (text_url_decode (plain source.now)) }
{
    match source {
        Value::Text(s) => {
            let bytes = unescaped(alloc, s.as_str())?;
            decoded(alloc, bytes.as_slice())
        }
        _ => Err(Raise::Error(Tag::TypeError)),
    }
}

fn escaped(alloc: Global, s: &str) -> Result<String, AllocError>
    ensures { IfOk result (λ t. string_bytes t ≡ url_encoded s.now) }
{
    let mut out = String::new(alloc);
    utf8_percent_encode(s, ESCAPED).append_to(&mut out)?;
    Ok(out)
}

fn unescaped(alloc: Global, s: &str) -> Result<Vec<u8>, AllocError>
    ensures { IfOk result (λ b. b.items ≡ percent_decode s.now) }
{
    let mut out = Vec::new(alloc);
    percent_decode_str(s).append_to(&mut out)?;
    Ok(out)
}
