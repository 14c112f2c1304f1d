// What begins at a place of an expression.
ghost use Rattle.std.specs.Prelude.{◌≡◌, ◌<◌, slice_get, length, drop};
ghost use Rattle.wf_span.specs.Tokens.{is_blank, is_name_byte, is_digit, is_escaped, is_mark_byte, is_mark_pair};
ghost use Rattle.wf_span.specs.Scans.{count_while, text_end, first_bad, closed_at, piece_at, mark_of};

use crate::token::TokenKind;

/// What begins at a place.
#[derive(Debug, Clone, Copy, PartialEq, Eq)]
pub(crate) enum Begins {
    // no token
    Nothing,
    // a token of this kind, so many bytes long
    Token(TokenKind, usize),
    // a text that isn't closed
    Open,
    // a text with an escape that there isn't, its first so many bytes behind the place
    Bad(usize),
}

/// How a text goes on behind its first quote. Places are counted from that quote.
#[derive(Debug, Clone, Copy, PartialEq, Eq)]
pub(crate) enum TextEnd {
    Closed(usize),
    BadEscape(usize),
    Open,
}

/// What begins here.
pub(crate) fn piece(bytes: &[u8]) -> Begins
    requires { length bytes.now < 4294967296 }
    ensures { result ≡ piece_at bytes.now }
{
    let Some(first) = first_byte(bytes) else {
        return Begins::Nothing;
    };
    if first == b'"' || first == b'\'' {
        return match end_of_text(first, behind(bytes)) {
            TextEnd::Closed(length) => Begins::Token(TokenKind::Text, length),
            TextEnd::BadEscape(at) => Begins::Bad(at),
            TextEnd::Open => Begins::Open,
        };
    }
    if first.is_ascii_digit() {
        Begins::Token(TokenKind::Number, number_length(bytes))
    } else if first.is_ascii_alphabetic() || first == b'_' {
        Begins::Token(TokenKind::Name, name_length(bytes))
    } else {
        match mark_length(bytes) {
            0 => Begins::Nothing,
            length => Begins::Token(TokenKind::Mark, length),
        }
    }
}

fn first_byte(bytes: &[u8]) -> Option<u8>
    ensures { result ≡ slice_get bytes.now 0 }
{
    match bytes {
        [byte, ..] => Some(*byte),
        [] => None,
    }
}

fn behind(bytes: &[u8]) -> &[u8]
    ensures { result.now ≡ drop 1 bytes.now }
{
    match bytes {
        [_, rest @ ..] => rest,
        [] => bytes,
    }
}

/// How long the mark is that begins here, or 0.
fn mark_length(bytes: &[u8]) -> usize
    ensures { result ≡ mark_of bytes.now }
{
    match bytes {
        [] => 0,
        [byte] => { if is_mark(*byte) { 1 } else { 0 } }
        [byte, next, ..] => {
            if is_pair(*byte, *next) {
                2
            } else if is_mark(*byte) {
                1
            } else {
                0
            }
        }
    }
}

fn is_mark(byte: u8) -> bool
    ensures { result ≡ is_mark_byte byte }
{
    matches!(
        byte,
        b'+' | b'-' | b'*' | b'/' | b'%' | b'<' | b'>' | b'.' | b'[' | b']' | b'(' | b')' | b','
    )
}

fn is_pair(byte: u8, next: u8) -> bool
    ensures { result ≡ is_mark_pair byte next }
{
    (next == b'=' && (byte == b'=' || byte == b'!' || byte == b'<' || byte == b'>'))
        || (byte == b'/' && next == b'/')
}

/// How many of the first bytes are blanks.
pub(crate) fn blank_length(bytes: &[u8]) -> usize
    ensures { result ≡ count_while is_blank bytes.now }
{
    let mut count = 0;
    for byte in bytes {
        if *byte != b' ' && *byte != b'\t' {
            break;
        }
        count += 1;
    }
    count
}

/// How many of the first bytes are digits.
fn number_length(bytes: &[u8]) -> usize
    ensures { result ≡ count_while is_digit bytes.now }
{
    let mut count = 0;
    for byte in bytes {
        if !byte.is_ascii_digit() {
            break;
        }
        count += 1;
    }
    count
}

/// How many of the first bytes are a name's.
fn name_length(bytes: &[u8]) -> usize
    ensures { result ≡ count_while is_name_byte bytes.now }
{
    let mut count = 0;
    for byte in bytes {
        if !is_name_part(*byte) {
            break;
        }
        count += 1;
    }
    count
}

fn is_name_part(byte: u8) -> bool
    ensures { result ≡ is_name_byte byte }
{
    byte.is_ascii_alphanumeric() || byte == b'_'
}

/// Where a text ends that a quote has begun: behind its closing quote; or the first bad escape in
/// it; or nowhere.
fn end_of_text(quote: u8, bytes: &[u8]) -> TextEnd
    requires { length bytes.now < 4294967296 }
    ensures { result ≡ text_end quote bytes.now }
{
    let mut bad = None;
    let mut slash = None;
    let mut at = 1;
    for byte in bytes {
        match slash {
            Some(place) => {
                slash = None;
                bad = first_of(is_escape(*byte), bad, place);
            }
            None => {
                if *byte == quote {
                    return closed(bad, at + 1);
                }
                if *byte == b'\\' {
                    slash = Some(at);
                }
            }
        }
        at += 1;
    }
    TextEnd::Open
}

/// The first bad escape, where this one stands at a place and is fine or not.
fn first_of(fine: bool, bad: Option<usize>, at: usize) -> Option<usize>
    ensures { result ≡ first_bad fine bad at }
{
    match bad {
        Some(first) => Some(first),
        None => { if fine { None } else { Some(at) } }
    }
}

fn closed(bad: Option<usize>, length: usize) -> TextEnd
    ensures { result ≡ closed_at bad length }
{
    match bad {
        None => TextEnd::Closed(length),
        Some(at) => TextEnd::BadEscape(at),
    }
}

fn is_escape(byte: u8) -> bool
    ensures { result ≡ is_escaped byte }
{
    matches!(byte, b'\\' | b'"' | b'\'' | b'n' | b'r' | b't')
}
