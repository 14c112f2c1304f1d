// Where a part stands in a text.
ghost use Rattle.std.specs.Prelude.{◌≡◌, ◌+◌, ◌<◌, IfOk, chars, length, pos};
ghost use Rattle.wf_value.specs.Answers.{IsAnswerOf};
ghost use Rattle.wf_value.specs.LibText.{pieces, starts_of, text_find_all};
ghost use Rattle.wf_value.specs.Data.{integer, text};
ghost use Rattle.wf_value.specs.Plain.{plain};

use std::alloc::Global;
use wf_value::{List, OutOfMemory, Raise, Tag, Value, sized};

/// `text.find_all`: the list of the places at which a part begins, in characters from 0 on. They
/// are taken from the left, and no two parts overlap.
///
/// A TypeError where an argument is no text; a ValueError where `part` is empty; a
/// ResourceLimitError where the list is past the limit on size, 4,194,304.
pub fn text_find_all(alloc: Global, source: &Value, part: &Value) -> Result<Value, Raise>
    ensures { IsAnswerOf result (text_find_all (plain source.now) (plain part.now)) }
{
    match (source, part) {
        (Value::Text(s), Value::Text(part)) => find(alloc, s.as_str(), part.as_str()),
        _ => Err(Raise::Error(Tag::TypeError)),
    }
}

fn find(alloc: Global, s: &str, part: &str) -> Result<Value, Raise>
    ensures { IsAnswerOf result (text_find_all (text s.now) (text part.now)) }
{
    if part.is_empty() {
        return Err(Raise::Error(Tag::ValueError));
    }
    sized(Value::List(starts(alloc, s, part)?))
}

fn starts(alloc: Global, s: &str, part: &str) -> Result<List, OutOfMemory>
    requires { 0 < length part.now }
    ensures { IfOk result (λ l. l ≡ starts_of 0 (length (chars part.now)) (pieces part.now s.now)) }
{
    let width = char_count(part);
    let mut starts = List::new(alloc)?;
    let mut from = 0;
    let mut rest = s;
    'places: while let Some((front, after)) = rest.split_once(part) {
        let start = sum(from, char_count(front))?;
        starts.push(place(start)?)?;
        from = sum(start, width)?;
        rest = after;
    }
    Ok(starts)
}

/// How many characters a text has.
pub(crate) fn char_count(s: &str) -> usize
    ensures { result ≡ length (chars s.now) }
{
    s.chars().count()
}

/// No text is so long that a place in it is past 64 bits.
fn sum(a: usize, b: usize) -> Result<usize, OutOfMemory>
    ensures { IfOk result (λ n. n ≡ a + b) }
{
    match a.checked_add(b) {
        Some(n) => Ok(n),
        None => Err(OutOfMemory),
    }
}

fn place(n: usize) -> Result<Value, OutOfMemory>
    ensures { IfOk result (λ v. plain v ≡ integer (pos n)) }
{
    match i64::try_from(n) {
        Ok(n) => Ok(Value::Int(n)),
        Err(_) => Err(OutOfMemory),
    }
}
