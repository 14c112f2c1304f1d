// A text with others in place of its parts.
ghost use Rattle.std.specs.Prelude.{◌≡◌, ◌++◌, ◌<◌, IfErr, OnOk, length, string_bytes};
ghost use Rattle.wf_lib_text.specs.Long.{IsPast};
ghost use Rattle.wf_value.specs.Answers.{IsAnswerOf};
ghost use Rattle.wf_value.specs.LibText.{joined_by, pieces, text_replace_all};
ghost use Rattle.wf_value.specs.Data.{text};
ghost use Rattle.wf_value.specs.Errors.{sized};
ghost use Rattle.wf_value.specs.Plain.{plain};

use std::alloc::Global;
use wf_value::{MAX_SIZE, Raise, Tag, Value, sized_text};

/// The most bytes of a text that is an answer: it counts for two more.
const MAX_LENGTH: usize = MAX_SIZE as usize - 2;

/// `text.replace_all`: the text with another one in each place of a part. The places are taken
/// from the left, and none overlap.
///
/// A TypeError where an argument is no text; a ValueError where `part` is empty; a
/// ResourceLimitError where the answer is past the limit on size, 4,194,304. No more is built than
/// the limit allows.
pub fn text_replace_all(
    alloc: Global,
    source: &Value,
    part: &Value,
    other: &Value,
) -> Result<Value, Raise>
    ensures { IsAnswerOf result (text_replace_all (plain source.now) (plain part.now)
        (plain other.now)) }
{
    match (source, part, other) {
        (Value::Text(s), Value::Text(part), Value::Text(other)) => {
            replace(alloc, s.as_str(), part.as_str(), other.as_str())
        }
        _ => Err(Raise::Error(Tag::TypeError)),
    }
}

fn replace(alloc: Global, s: &str, part: &str, other: &str) -> Result<Value, Raise>
    ensures { IsAnswerOf result (text_replace_all (text s.now) (text part.now) (text other.now)) }
{
    if part.is_empty() {
        return Err(Raise::Error(Tag::ValueError));
    }
    replaced(alloc, s, part, other)
}

fn replaced(alloc: Global, s: &str, part: &str, other: &str) -> Result<Value, Raise>
    requires { 0 < length part.now }
    ensures { IsAnswerOf result (sized (text (joined_by other.now (pieces part.now s.now)))) }
{
    let mut out = String::new(alloc);
    let mut rest = s;
    'places: while let Some((front, after)) = rest.split_once(part) {
        add(&mut out, front)?;
        add(&mut out, other)?;
        rest = after;
    }
    add(&mut out, rest)?;
    sized_text(alloc, out.as_str())
}

/// Adds to a text, within the limit on its length.
fn add(out: &mut String, s: &str) -> Result<(), Raise>
    ensures grown { OnOk result (string_bytes out.new ≡ string_bytes out.old ++ s.now) }
    ensures past { IfErr result (IsPast (string_bytes out.old ++ s.now)) }
{
    if out.len().saturating_add(s.len()) > MAX_LENGTH {
        return Err(Raise::Error(Tag::ResourceLimitError));
    }
    out.push_str(s)?;
    Ok(())
}
