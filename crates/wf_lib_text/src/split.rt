// A text cut at a separator.
ghost use Rattle.std.specs.Prelude.{◌≡◌, ◌<◌, IfOk, length, map};
ghost use Rattle.wf_value.specs.Answers.{IsAnswerOf};
ghost use Rattle.wf_value.specs.LibText.{pieces, text_split};
ghost use Rattle.wf_value.specs.Data.{text};
ghost use Rattle.wf_value.specs.Plain.{plain};

use std::alloc::Global;
use wf_value::{List, OutOfMemory, Raise, Tag, Text, Value, sized};

/// `text.split`: the list of the parts between the places of a separator, empty ones too. The
/// places are taken from the left, and none overlap.
///
/// A TypeError where an argument is no text; a ValueError where `separator` is empty; a
/// ResourceLimitError where the list is past the limit on size, 4,194,304.
pub fn text_split(alloc: Global, source: &Value, separator: &Value) -> Result<Value, Raise>
    ensures { IsAnswerOf result (text_split (plain source.now) (plain separator.now)) }
{
    match (source, separator) {
        (Value::Text(s), Value::Text(separator)) => split(alloc, s.as_str(), separator.as_str()),
        _ => Err(Raise::Error(Tag::TypeError)),
    }
}

fn split(alloc: Global, s: &str, separator: &str) -> Result<Value, Raise>
    ensures { IsAnswerOf result (text_split (text s.now) (text separator.now)) }
{
    if separator.is_empty() {
        return Err(Raise::Error(Tag::ValueError));
    }
    sized(Value::List(parts(alloc, s, separator)?))
}

fn parts(alloc: Global, s: &str, separator: &str) -> Result<List, OutOfMemory>
    requires { 0 < length separator.now }
    ensures { IfOk result (λ l. l ≡ map text (pieces separator.now s.now)) }
{
    let mut parts = List::new(alloc)?;
    let mut rest = s;
    'places: while let Some((part, after)) = rest.split_once(separator) {
        parts.push(Value::Text(Text::new(alloc, part)?))?;
        rest = after;
    }
    parts.push(Value::Text(Text::new(alloc, rest)?))?;
    Ok(parts)
}
