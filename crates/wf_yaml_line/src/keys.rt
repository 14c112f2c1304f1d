// Keys.
ghost use Rattle.std.specs.Prelude.{◌≡◌, false, IfOk, option_map};
ghost use Rattle.wf_yaml_line.specs.Marks as texts;
ghost use Rattle.wf_yaml_line.specs.Quoted as quotes;
ghost use Rattle.wf_yaml_line.specs.Scalars as scalars;
ghost use Rattle.wf_yaml_line.specs.Keys as keys;
ghost use Rattle.wf_yaml_line.specs.Fault.{noted};
ghost use Rattle.wf_yaml_line.specs.Views.{key_view};

use crate::fault::{Fault, Kind};
use crate::marks::{
    around_colon, ends_with_colon, ends_word, is_guarded, is_reserved, skip_blanks, trimmed,
};
use crate::quoted::read_quoted;
use crate::trees::text_of;
use std::alloc::Global;
use wf_value::{OutOfMemory, Text};

/// A pair's key.
#[derive(Drop)]
pub struct Key<'a> {
    /// The key itself.
    pub text: Text,
    /// The fault that it has by itself: a bad escape, or a `:` at the end of a plain key.
    pub fault: Option<Kind>,
    /// What stands behind its `:`.
    pub rest: &'a [char],
}

impl Key<'_> {
    /// The refusal of the key in this line, if it has a fault by itself.
    pub fn refusal(&self, line: u32) -> Option<Fault>
        ensures { noted result ≡ keys.own_fault line (key_view self.now).fault }
    {
        match self.fault {
            Some(kind) => Some(Fault { line, kind }),
            None => None,
        }
    }
}

/// Whether a text may start a plain scalar.
pub fn may_start_plain(s: &[char]) -> bool
    ensures { result ≡ scalars.may_start_plain s.now }
{
    match s {
        [] => false,
        [c, rest @ ..] => !is_reserved(*c) && !(is_guarded(*c) && ends_word(rest)),
    }
}

/// Whether a text starts with a quote.
pub fn starts_quote(s: &[char]) -> bool
    ensures { result ≡ texts.starts texts.is_quote s.now }
{
    matches!(s, ['\'' | '"', ..])
}

/// What stands behind the `:` with which a text starts, where a blank or the end follows it.
fn behind_colon(s: &[char]) -> Option<&[char]>
    ensures { option_map (λ r. r.now) result ≡ keys.behind_colon s.now }
{
    match s {
        [':', rest @ ..] => if ends_word(rest) { Some(rest) } else { None },
        _ => None,
    }
}

/// The fault of a quoted key: one of its escapes isn't good.
fn quoted_fault(good: bool) -> Option<Kind>
    ensures { result ≡ keys.quoted_fault good }
{
    if good { None } else { Some(Kind::Quote) }
}

/// The fault of a plain key: no plain scalar ends with a `:`.
fn plain_fault(key: &[char]) -> Option<Kind>
    ensures { result ≡ keys.plain_fault key.now }
{
    if ends_with_colon(key) {
        Some(Kind::Unsupported)
    } else {
        None
    }
}

/// The key of a pair that starts with a quote.
fn quoted_key(alloc: Global, s: &[char]) -> Result<Option<Key<'_>>, OutOfMemory>
    ensures { IfOk result (λ k. option_map key_view k
        ≡ keys.quoted_key (quotes.quoted s.now) (quotes.quoted s.now).rest) }
{
    let found = read_quoted(alloc, s)?;
    let Some(behind) = found.rest else {
        return Ok(None);
    };
    match behind_colon(skip_blanks(behind)) {
        Some(rest) => Ok(Some(Key {
            text: text_of(alloc, &found.chars)?,
            fault: quoted_fault(found.good),
            rest,
        })),
        None => Ok(None),
    }
}

/// The key of a pair that starts with a plain scalar. Blanks at its end are no part of it.
fn plain_key(alloc: Global, s: &[char]) -> Result<Option<Key<'_>>, OutOfMemory>
    ensures { IfOk result (λ k. option_map key_view k
        ≡ keys.plain_key (texts.around_colon false s.now)) }
{
    match around_colon(s) {
        Some((before, rest)) => {
            let key = trimmed(before);
            Ok(Some(Key {
                text: text_of(alloc, key)?,
                fault: plain_fault(key),
                rest,
            }))
        }
        None => Ok(None),
    }
}

/// The key at the start of a pair, `key:` at the line's end or `key: value`; none where a text
/// starts no pair.
pub fn read_key(alloc: Global, s: &[char]) -> Result<Option<Key<'_>>, OutOfMemory>
    ensures { IfOk result (λ k. option_map key_view k ≡ keys.key_of s.now) }
{
    if starts_quote(s) {
        return quoted_key(alloc, s);
    }
    if may_start_plain(s) {
        return plain_key(alloc, s);
    }
    Ok(None)
}

/// Whether the value of a key may be a decimal: those of a retry's backoff.
pub fn is_delay_key(key: &str) -> bool
    ensures { result ≡ scalars.is_delay_key key.now }
{
    matches!(key, "initial_delay" | "max_delay" | "multiplier")
}
