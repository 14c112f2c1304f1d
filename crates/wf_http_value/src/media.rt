// What the fields of a message say of its body.
ghost use Rattle.std.specs.Prelude.{◌≡◌, codes, option_map};
ghost use Rattle.http_uri.specs.ByteClasses.{lowercase};
ghost use Rattle.wf_http_value.specs.Media.{is_encoded, kind_of};
ghost use Rattle.wf_value.specs.HttpText.{is_field_named, media_type, media_type_of};
ghost use Rattle.wf_value.specs.LibText.{starts_with};
ghost use Rattle.wf_value.specs.Data.{pairs_of};
ghost use Rattle.wf_value.specs.Pairs.{get};
ghost use Rattle.wf_value.specs.Plain.{plain};

use wf_value::{Bytes, Map, Value, media_type_of};

/// What the media type of a body makes it.
#[derive(Clone, Copy)]
pub(crate) enum Media {
    // JSON (RFC 8259).
    Json,
    // Some text.
    Text,
    // All else, also where no media type is told.
    Other,
}

/// By the field Content-Type.
pub(crate) fn media_of(headers: &Map) -> Media
    ensures { result ≡ kind_of (media_type (get (codes "Content-Type") (pairs_of headers.now))) }
{
    media_told(headers.get("Content-Type"))
}

/// By the value of that field.
fn media_told(content_type: Option<&Value>) -> Media
    ensures { result ≡ kind_of (media_type (option_map (λ v. plain v.now) content_type.entry)) }
{
    match content_type {
        Some(Value::Text(value)) => kind_of(value.as_str()),
        _ => Media::Other,
    }
}

/// Without case, up to `;` and without the blanks around it (RFC 9110, section 8.3).
fn kind_of(value: &str) -> Media
    ensures { result ≡ kind_of (media_type_of value.now) }
{
    let media_type = media_type_of(value);
    if media_type.eq_ignore_ascii_case(b"application/json") {
        Media::Json
    } else if is_text(media_type) {
        Media::Text
    } else {
        Media::Other
    }
}

fn is_text(media_type: &[u8]) -> bool
    ensures { result ≡ starts_with (codes "text/") (lowercase media_type.now) }
{
    media_type.len() >= 5 && media_type[..5].eq_ignore_ascii_case(b"text/")
}

/// Whether the body is encoded, by a field Content-Encoding.
pub(crate) fn is_encoded(fields: &[(Bytes, Bytes)]) -> bool
    ensures { result ≡ is_encoded fields.now }
{
    for field in fields {
        if is_named(b"content-encoding", field) {
            return true;
        }
    }
    false
}

fn is_named(name: &[u8], field: &(Bytes, Bytes)) -> bool
    ensures { result ≡ is_field_named name.now field.now }
{
    name.eq_ignore_ascii_case(field.0.as_slice())
}
