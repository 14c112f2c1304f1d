// Texts and keys: plain, or in double quotes.
ghost use Rattle.std.specs.Prelude.{◌≡◌, ◌++◌, ◌<◌, IfOk, OnOk, false, codes, string_bytes};
ghost use Rattle.std.specs.Char.{encode_utf8};
ghost use Rattle.std.specs.Fmt.{digit_glyph};
ghost use Rattle.wf_yaml_line.specs.Marks.{starts};
ghost use Rattle.wf_yaml_write.specs.Layout as rules;

use std::alloc::{AllocError, Global};
use wf_yaml_line::{Plain, plain_kind};

fn is_printable(s: &[u8]) -> bool
    ensures { result ≡ rules.is_printable s.now }
{
    for b in s {
        if *b < 0x20 || *b > 0x7E {
            return false;
        }
    }
    true
}

fn starts_plainly(s: &[u8]) -> bool
    ensures { result ≡ starts rules.may_start s.now }
{
    match s {
        [b'a'..=b'z' | b'A'..=b'Z' | b'_' | b'$', ..] => true,
        _ => false,
    }
}

/// Whether a text ends with a space or `:`, or holds `: ` or ` #`.
fn has_mark(s: &[u8]) -> bool
    ensures { result ≡ rules.has_mark s.now }
{
    let mut rest = s;
    'bytes: loop {
        match rest {
            [] => return false,
            [b' ' | b':'] | [b':', b' ', ..] | [b' ', b'#', ..] => return true,
            [_, after @ ..] => rest = after,
        }
    }
}

/// The characters of a text in ASCII.
fn characters(alloc: Global, s: &[u8]) -> Result<Vec<char>, AllocError>
    ensures { IfOk result (λ cs. cs.items ≡ s.now) }
{
    let mut list = Vec::with_capacity(alloc, s.len())?;
    for b in s {
        list.push(*b as char)?;
    }
    Ok(list)
}

fn is_text(kind: Plain) -> bool
    ensures { result ≡ rules.is_text kind }
{
    match kind {
        Plain::Text => true,
        _ => false,
    }
}

fn is_plain(alloc: Global, s: &str) -> Result<bool, AllocError>
    ensures { IfOk result (λ plain. plain ≡ rules.is_plain s.now) }
{
    let bytes = s.as_bytes();
    if !is_printable(bytes) || !starts_plainly(bytes) || has_mark(bytes) {
        return Ok(false);
    }
    let list = characters(alloc, bytes)?;
    Ok(is_text(plain_kind(list.as_slice())))
}

/// A hex digit in lower case.
fn hex_digit(digit: u8) -> char
    requires { digit < 16 }
    ensures { result ≡ digit_glyph false digit }
{
    if digit < 10 {
        (48 + digit) as char
    } else {
        (87 + digit) as char
    }
}

/// A character in double quotes.
fn push_escaped(out: &mut String, c: char) -> Result<(), AllocError>
    ensures { OnOk result (string_bytes out.new
        ≡ string_bytes out.old ++ rules.all_escaped (encode_utf8 c)) }
{
    match c {
        '"' => out.push_str("\\\""),
        '\\' => out.push_str("\\\\"),
        '\n' => out.push_str("\\n"),
        '\r' => out.push_str("\\r"),
        '\t' => out.push_str("\\t"),
        '\0'..='\x1F' | '\x7F' => push_hex(out, c as u8),
        _ => out.push(c),
    }
}

/// A character of a byte, as `\xHH`.
fn push_hex(out: &mut String, b: u8) -> Result<(), AllocError>
    ensures { OnOk result (string_bytes out.new
        ≡ string_bytes out.old ++ codes "\\x" ++ rules.hex_digits b) }
{
    out.push_str("\\x")?;
    out.push(hex_digit(b / 16))?;
    out.push(hex_digit(b % 16))
}

fn push_quoted(out: &mut String, s: &str) -> Result<(), AllocError>
    ensures { OnOk result (string_bytes out.new ≡ string_bytes out.old ++ rules.in_quotes s.now) }
{
    out.push('"')?;
    for c in s.chars() {
        push_escaped(out, c)?;
    }
    out.push('"')
}

/// Writes a text or a key: plain where it may be, else in double quotes.
pub(crate) fn push_text(alloc: Global, out: &mut String, s: &str) -> Result<(), AllocError>
    ensures { OnOk result (string_bytes out.new
        ≡ string_bytes out.old ++ rules.written_text s.now) }
{
    if is_plain(alloc, s)? {
        out.push_str(s)
    } else {
        push_quoted(out, s)
    }
}
