// What is sent of a body, and whether it may stand under the caller's Content-Type.
ghost use Rattle.std.specs.Prelude.{◌≡◌, ◌≤◌, IfOk, option_map, bytes_eq};
ghost use Rattle.std.specs.Option.{ForSome};
ghost use Rattle.std.specs.List.{list_all};
ghost use Rattle.wf_value.specs.HttpRequest as request;
ghost use Rattle.wf_value.specs.HttpText.{json_type, media_type_of};
ghost use Rattle.wf_value.specs.Data.{depth};
ghost use Rattle.wf_value.specs.Plain.{plain};
ghost use Rattle.wf_http_out.specs.Asked.{asked_view, body_view, payload_view};

use crate::Asked;
use crate::names::is_same_name;
use std::alloc::Global;
use wf_value::{Bytes, OutOfMemory, Text, Value, media_type_of, to_json};

/// The bytes of a body, and its media type where the caller gives none.
#[derive(Drop)]
pub(crate) struct Payload {
    pub(crate) media_type: Text,
    pub(crate) bytes: Bytes,
}

impl Payload {
    fn new(alloc: Global, media_type: &str, bytes: &[u8]) -> Result<Payload, OutOfMemory>
        ensures media_type { IfOk result (λ p. p.media_type ≡ media_type.now) }
        ensures bytes { IfOk result (λ p. p.bytes ≡ bytes.now) }
    {
        Ok(Payload {
            media_type: Text::new(alloc, media_type)?,
            bytes: Bytes::new(alloc, bytes)?,
        })
    }
}

/// A text is sent as its bytes, bytes as they are, and each other value as JSON.
pub(crate) fn payload_of(
    alloc: Global,
    body: &Option<Value>,
) -> Result<Option<Payload>, OutOfMemory>
    requires { ForSome body.now (λ v. depth (plain v) ≤ 100) }
    ensures { IfOk result (λ p. option_map payload_view p ≡ request.payload (body_view body.now)) }
{
    let Some(value) = body else {
        return Ok(None);
    };
    match value {
        Value::Null => Ok(None),
        Value::Text(text) => {
            let bytes = text.as_str().as_bytes();
            Ok(Some(Payload::new(alloc, "text/plain; charset=utf-8", bytes)?))
        }
        Value::Bytes(bytes) => {
            let bytes = bytes.as_slice();
            Ok(Some(Payload::new(alloc, "application/octet-stream", bytes)?))
        }
        Value::Bool(_) | Value::Int(_) | Value::List(_) | Value::Map(_) => {
            let json = to_json(alloc, value)?;
            Ok(Some(Payload::new(alloc, "application/json", json.as_slice())?))
        }
    }
}

/// Whether the body may stand under the caller's fields: one that is sent as JSON stands under no
/// other media type.
pub(crate) fn is_good_body(asked: &Asked) -> bool
    ensures { result ≡ request.good_body (asked_view asked.now) }
{
    !is_json(&asked.body) || are_json_types(asked.fields.items())
}

fn is_json(body: &Option<Value>) -> bool
    ensures { result ≡ request.is_json (body_view body.now) }
{
    let Some(value) = body else {
        return false;
    };
    match value {
        Value::Null | Value::Text(_) | Value::Bytes(_) => false,
        Value::Bool(_) | Value::Int(_) | Value::List(_) | Value::Map(_) => true,
    }
}

/// Whether each Content-Type is that of JSON.
fn are_json_types(fields: &[(Text, Text)]) -> bool
    ensures { result ≡ list_all (λ t. bytes_eq (media_type_of t) json_type)
        (request.content_types fields.now) }
{
    for field in fields {
        if is_same_name("content-type", field.0.as_str()) && !is_json_type(field.1.as_str()) {
            return false;
        }
    }
    true
}

/// Without case, up to `;` and without the blanks around it.
fn is_json_type(value: &str) -> bool
    ensures { result ≡ bytes_eq (media_type_of value.now) json_type }
{
    media_type_of(value).eq_ignore_ascii_case(b"application/json")
}
