// Upper and lower case.
ghost use Rattle.std.specs.Prelude.{map};
ghost use Rattle.std.specs.Char.{to_ascii_lowercase, to_ascii_uppercase};
ghost use Rattle.wf_value.specs.Answers.{IsAnswerOf};
ghost use Rattle.wf_value.specs.LibText.{text_to_lower, text_to_upper};
ghost use Rattle.wf_value.specs.Data.{text};
ghost use Rattle.wf_value.specs.Errors.{sized};
ghost use Rattle.wf_value.specs.Plain.{plain};

use std::alloc::Global;
use wf_value::{Raise, Tag, Value, sized_text};

/// `text.to_upper`: the text with its ASCII letters in upper case. All other characters stay.
///
/// A TypeError where `source` is no text; a ResourceLimitError where the answer is past the limit
/// on size, 4,194,304.
pub fn text_to_upper(alloc: Global, source: &Value) -> Result<Value, Raise>
    ensures { IsAnswerOf result (text_to_upper (plain source.now)) }
{
    match source {
        Value::Text(s) => upper(alloc, s.as_str()),
        _ => Err(Raise::Error(Tag::TypeError)),
    }
}

/// `text.to_lower`: the text with its ASCII letters in lower case. All other characters stay.
///
/// A TypeError where `source` is no text; a ResourceLimitError where the answer is past the limit
/// on size, 4,194,304.
pub fn text_to_lower(alloc: Global, source: &Value) -> Result<Value, Raise>
    ensures { IsAnswerOf result (text_to_lower (plain source.now)) }
{
    match source {
        Value::Text(s) => lower(alloc, s.as_str()),
        _ => Err(Raise::Error(Tag::TypeError)),
    }
}

fn upper(alloc: Global, s: &str) -> Result<Value, Raise>
    ensures { IsAnswerOf result (sized (text (map to_ascii_uppercase s.now))) }
{
    let mut changed = String::from_str(alloc, s)?;
    changed.make_ascii_uppercase();
    sized_text(alloc, changed.as_str())
}

fn lower(alloc: Global, s: &str) -> Result<Value, Raise>
    ensures { IsAnswerOf result (sized (text (map to_ascii_lowercase s.now))) }
{
    let mut changed = String::from_str(alloc, s)?;
    changed.make_ascii_lowercase();
    sized_text(alloc, changed.as_str())
}
