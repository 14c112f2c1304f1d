// Bodies as values.
ghost use Rattle.std.specs.Prelude.{◌≡◌, IfOk};
ghost use Rattle.wf_http_value.specs.Gives.{GivesBody};
ghost use Rattle.wf_value.specs.HttpText.{body_value, header_map, json_body, text_or_bytes};
ghost use Rattle.wf_value.specs.Data.{bytes, pairs_of};
ghost use Rattle.wf_value.specs.Decode.{json_value};
ghost use Rattle.wf_value.specs.Plain.{plain};

use crate::fault::BodyFault;
use crate::json::json_value;
use crate::media::{Media, is_encoded, media_of};
use std::alloc::Global;
use wf_value::{Bytes, Map, OutOfMemory, Text, Value};

/// An empty body is null, and one with a Content-Encoding is bytes. Else the media type decides.
/// Where the reading is lenient, JSON that says no value is taken as a text.
pub(crate) fn body_value(
    alloc: Global,
    is_lenient: bool,
    fields: &[(Bytes, Bytes)],
    headers: &Map,
    body: &[u8],
) -> Result<Value, BodyFault>
    requires { pairs_of headers.now ≡ header_map fields.now }
    ensures { GivesBody result (body_value is_lenient fields.now body.now) }
{
    if body.is_empty() {
        return Ok(Value::Null);
    }
    if is_encoded(fields) {
        return Ok(bytes_value(alloc, body)?);
    }
    match media_of(headers) {
        Media::Json => json_body(alloc, is_lenient, body),
        Media::Text => Ok(text_or_bytes(alloc, body)?),
        Media::Other => Ok(bytes_value(alloc, body)?),
    }
}

fn json_body(alloc: Global, is_lenient: bool, body: &[u8]) -> Result<Value, BodyFault>
    ensures { GivesBody result (json_body is_lenient body.now (json_value body.now)) }
{
    match json_value(alloc, body)? {
        Some(value) => Ok(value),
        None if is_lenient => Ok(text_or_bytes(alloc, body)?),
        None => Err(BodyFault::NoJson),
    }
}

/// A text where the bytes are UTF-8.
fn text_or_bytes(alloc: Global, body: &[u8]) -> Result<Value, OutOfMemory>
    ensures { IfOk result (λ v. plain v ≡ text_or_bytes body.now) }
{
    match str::from_utf8(body) {
        Ok(text) => Ok(Value::Text(Text::new(alloc, text)?)),
        Err(_) => bytes_value(alloc, body),
    }
}

fn bytes_value(alloc: Global, body: &[u8]) -> Result<Value, OutOfMemory>
    ensures { IfOk result (λ v. plain v ≡ bytes body.now) }
{
    Ok(Value::Bytes(Bytes::new(alloc, body)?))
}
