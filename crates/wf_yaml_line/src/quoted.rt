// Quoted scalars.
ghost use Rattle.std.specs.Prelude.{◌≡◌, ◌≤◌, ◌∷◌, ◌++◌, [], false, IfOk};
ghost use Rattle.wf_yaml_line.specs.Quoted as texts;
ghost use Rattle.wf_yaml_line.specs.Words as words;
ghost use Rattle.wf_yaml_line.specs.Views.{quoted_view as view};

use crate::scalars::{all_digits, number};
use std::alloc::Global;
use wf_value::OutOfMemory;

/// What was read of a quoted scalar.
#[derive(Drop)]
pub struct Quoted<'a> {
    /// Its characters.
    pub chars: Vec<char>,
    /// What stands behind the closing quote, where it is closed.
    pub rest: Option<&'a [char]>,
    /// Whether each escape is good.
    pub good: bool,
}

/// Adds a character at the end.
fn push(chars: &mut Vec<char>, c: char) -> Result<(), OutOfMemory>
    ensures { IfOk result (λ _. chars.new.items ≡ chars.old.items ++ c ∷ []) }
{
    chars.push(c)?;
    Ok(())
}

/// What stands behind the opening single quote.
fn single(alloc: Global, s: &[char]) -> Result<Quoted<'_>, OutOfMemory>
    ensures { IfOk result (λ q. view q ≡ texts.single false s.now) }
{
    let mut chars = Vec::new(alloc);
    let mut after_quote = false;
    for i in 0..s.len() {
        let c = s[i];
        if after_quote {
            if c != '\'' {
                return Ok(Quoted {
                    chars,
                    rest: Some(&s[i..]),
                    good: true,
                });
            }
            push(&mut chars, '\'')?;
            after_quote = false;
        } else if c == '\'' {
            after_quote = true;
        } else {
            push(&mut chars, c)?;
        }
    }
    let rest = if after_quote {
        Some(&s[s.len()..])
    } else {
        None
    };
    Ok(Quoted {
        chars,
        rest,
        good: true,
    })
}

/// How many digits follow an escape's letter.
fn escape_width(c: char) -> usize
    ensures { result ≡ texts.escape_width c }
{
    match c {
        'x' => 2,
        'u' => 4,
        'U' => 8,
        _ => 0,
    }
}

/// The character of an escape of one letter.
fn simple_escape(c: char) -> Option<char>
    ensures { result ≡ texts.simple_escape c }
{
    match c {
        '\\' | '"' | '/' => Some(c),
        '0' => Some('\0'),
        'a' => Some('\x07'),
        'b' => Some('\x08'),
        't' => Some('\t'),
        'n' => Some('\n'),
        'v' => Some('\x0b'),
        'f' => Some('\x0c'),
        'r' => Some('\r'),
        'e' => Some('\x1b'),
        _ => None,
    }
}

/// The character that so many digits spell.
fn hex_escape(width: usize, rest: &[char]) -> Option<char>
    requires { width ≤ 8 }
    ensures { result ≡ texts.hex_escape width rest.now }
{
    if rest.len() < width {
        return None;
    }
    let digits = &rest[..width];
    if !all_digits(16, digits) {
        return None;
    }
    let n = number(16, digits)?;
    if n > 0x10_FFFF {
        return None;
    }
    char::from_u32(n as u32)
}

/// The character of an escape, of its letter and what follows it.
fn escape(c: char, rest: &[char]) -> Option<char>
    ensures { result ≡ texts.escape c rest.now }
{
    let width = escape_width(c);
    if width == 0 {
        simple_escape(c)
    } else {
        hex_escape(width, rest)
    }
}

/// What stands behind the opening double quote.
fn double(alloc: Global, s: &[char]) -> Result<Quoted<'_>, OutOfMemory>
    ensures { IfOk result (λ q. view q ≡ texts.double false 0 s.now) }
{
    let mut chars = Vec::new(alloc);
    let mut escaped = false;
    let mut skip = 0;
    let mut good = true;
    for i in 0..s.len() {
        let c = s[i];
        let rest = &s[i + 1..];
        if escaped {
            escaped = false;
            match escape(c, rest) {
                Some(d) => {
                    push(&mut chars, d)?;
                    skip = escape_width(c);
                }
                None => {
                    good = false;
                    skip = 0;
                }
            }
        } else if skip > 0 {
            skip -= 1;
        } else if c == '"' {
            return Ok(Quoted {
                chars,
                rest: Some(rest),
                good,
            });
        } else if c == '\\' {
            escaped = true;
        } else {
            push(&mut chars, c)?;
        }
    }
    Ok(Quoted {
        chars,
        rest: None,
        good,
    })
}

/// The quoted scalar at the start of a text.
pub fn read_quoted(alloc: Global, s: &[char]) -> Result<Quoted<'_>, OutOfMemory>
    ensures { IfOk result (λ q. view q ≡ texts.quoted s.now) }
{
    match s {
        [] => Ok(Quoted {
            chars: Vec::new(alloc),
            rest: None,
            good: true,
        }),
        ['\'', rest @ ..] => single(alloc, rest),
        [_, rest @ ..] => double(alloc, rest),
    }
}
