// The media types of messages.
ghost use Rattle.std.specs.Prelude.{◌≡◌, reverse};
ghost use Rattle.httparse.specs.Grammar.{skip_ows, trim_ows};
ghost use Rattle.http_uri.specs.ByteClasses.{lowercase, split_once_front};
ghost use Rattle.wf_value.specs.HttpText.{media_type_of, semicolon_byte};

use httparse::is_space_or_tab;

/// The media type that the value of a Content-Type tells: what stands up to `;`, without the blanks
/// around it (RFC 9110, section 8.3). Capitals and small letters are the same.
pub fn media_type_of(value: &str) -> &[u8]
    ensures { lowercase result.now ≡ media_type_of value.now }
{
    trimmed(before_semicolon(value).as_bytes())
}

fn before_semicolon(value: &str) -> &str
    ensures { result.now ≡ split_once_front semicolon_byte value.now }
{
    match value.split_once(';') {
        Some(parts) => parts.0,
        None => value,
    }
}

fn trimmed(text: &[u8]) -> &[u8]
    ensures { result.now ≡ trim_ows text.now }
{
    trimmed_end(trimmed_start(text))
}

fn trimmed_start(mut text: &[u8]) -> &[u8]
    ensures { result.now ≡ skip_ows text.now }
{
    while let [first, rest @ ..] = text
        && is_space_or_tab(*first)
    {
        text = rest;
    }
    text
}

fn trimmed_end(mut text: &[u8]) -> &[u8]
    ensures { result.now ≡ reverse (skip_ows (reverse text.now)) }
{
    while let [rest @ .., last] = text
        && is_space_or_tab(*last)
    {
        text = rest;
    }
    text
}
