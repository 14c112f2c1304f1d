// A part of a text, by its places.
ghost use Rattle.std.specs.Prelude.{◌≡◌, ◌≤◌, IfOk, MatchOption, chars, encode_utf8_all, false, slice_range, string_bytes, true, unsigned_abs};
ghost use Rattle.wf_value.specs.Answers.{IsAnswerOf};
ghost use Rattle.wf_value.specs.LibText.{is_range_in, text_substring};
ghost use Rattle.wf_value.specs.Data.{integer, text};
ghost use Rattle.wf_value.specs.Plain.{plain};

use crate::places::char_count;
use std::alloc::{AllocError, Global};
use wf_value::{Raise, Tag, Value, sized_text};

/// `text.substring`: the characters from `start` up to before `end`, which count from 0 on.
///
/// A TypeError where `source` is no text or a place is no whole number; an IndexError unless
/// `0 <= start <= end <= len`, with the text's length in characters; a ResourceLimitError where
/// the answer is past the limit on size, 4,194,304.
pub fn text_substring(
    alloc: Global,
    source: &Value,
    start: &Value,
    end: &Value,
) -> Result<Value, Raise>
    ensures { IsAnswerOf result
        (text_substring (plain source.now) (plain start.now) (plain end.now)) }
{
    match (source, start, end) {
        (Value::Text(s), Value::Int(start), Value::Int(end)) => {
            substring(alloc, s.as_str(), *start, *end)
        }
        _ => Err(Raise::Error(Tag::TypeError)),
    }
}

fn substring(alloc: Global, s: &str, start: i64, end: i64) -> Result<Value, Raise>
    ensures { IsAnswerOf result (text_substring (text s.now) (integer start) (integer end)) }
{
    let Some((from, to)) = range_in(char_count(s), start, end) else {
        return Err(Raise::Error(Tag::IndexError));
    };
    let part = characters(alloc, s, from, to)?;
    sized_text(alloc, part.as_str())
}

/// The range as places of a text with so many characters.
fn range_in(count: usize, start: i64, end: i64) -> Option<(usize, usize)>
    ensures inside { MatchOption result (is_range_in count start end
        ≡ false) (λ _. is_range_in count start end ≡ true) }
    ensures places { MatchOption result (true ≡ true) (λ r. (r.0 ≡ unsigned_abs start)
        × (r.1 ≡ unsigned_abs end) × (r.0 ≤ r.1)) }
{
    let from = usize::try_from(start).ok()?;
    let to = usize::try_from(end).ok()?;
    if from <= to && to <= count {
        Some((from, to))
    } else {
        None
    }
}

/// The characters from one place up to before another.
fn characters(alloc: Global, s: &str, from: usize, to: usize) -> Result<String, AllocError>
    requires { from ≤ to }
    ensures { IfOk result (λ t. string_bytes t
        ≡ encode_utf8_all (slice_range (chars s.now) from to)) }
{
    s.chars().skip(from).take(to - from).collect(alloc)
}
