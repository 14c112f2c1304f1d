// Values as answers.
ghost use Rattle.wf_value.specs.Answers.{IsAnswerOf};
ghost use Rattle.wf_value.specs.Data.{bytes, text};
ghost use Rattle.wf_value.specs.Errors.{sized};
ghost use Rattle.wf_value.specs.Plain.{plain};

use crate::limits::MAX_SIZE;
use crate::{Bytes, Raise, Tag, Text, Value};
use std::alloc::Global;

/// The value as an answer: a ResourceLimitError where its size is past `MAX_SIZE`.
pub fn sized(value: Value) -> Result<Value, Raise>
    ensures { IsAnswerOf result (sized (plain value)) }
{
    if value.size() <= MAX_SIZE {
        Ok(value)
    } else {
        Err(Raise::Error(Tag::ResourceLimitError))
    }
}

/// The text as an answer: a ResourceLimitError where its size is past `MAX_SIZE`.
pub fn sized_text(alloc: Global, s: &str) -> Result<Value, Raise>
    ensures { IsAnswerOf result (sized (text s.now)) }
{
    sized(Value::Text(Text::new(alloc, s)?))
}

/// The bytes as an answer: a ResourceLimitError where their size is past `MAX_SIZE`.
pub fn sized_bytes(alloc: Global, b: &[u8]) -> Result<Value, Raise>
    ensures { IsAnswerOf result (sized (bytes b.now)) }
{
    sized(Value::Bytes(Bytes::new(alloc, b)?))
}
