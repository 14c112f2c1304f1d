// The maps that a program sees.
ghost use Rattle.std.specs.Prelude.{◌≡◌, ◌++◌, IfOk, decimal};
ghost use Rattle.wf_value.specs.HttpText.{result_map};
ghost use Rattle.wf_value.specs.Data.{map, pairs_of};
ghost use Rattle.wf_value.specs.Errors.{http_error, tag_message};
ghost use Rattle.wf_value.specs.Plain.{plain};
ghost use Rattle.wf_value.specs.declared.Tag.TheVariants.{HttpError};

use std::alloc::Global;
use wf_value::{List, Map, OutOfMemory, Tag, Text, Value};

/// What an answer gives: its code, fields and body.
pub(crate) fn result_map(
    alloc: Global,
    code: u16,
    headers: Map,
    body: Value,
) -> Result<Value, OutOfMemory>
    ensures { IfOk result (λ v. plain v ≡ result_map code (map (pairs_of headers)) (plain body)) }
{
    let mut pairs = Map::new(alloc)?;
    pairs.insert(Text::new(alloc, "headers")?, Value::Map(headers))?;
    pairs.insert(Text::new(alloc, "code")?, Value::Int(i64::from(code)))?;
    pairs.insert(Text::new(alloc, "body")?, body)?;
    Ok(Value::Map(pairs))
}

/// The error of an answer with this code.
pub(crate) fn http_error(
    alloc: Global,
    code: u16,
    headers: Map,
    body: Value,
) -> Result<Value, OutOfMemory>
    ensures { IfOk result (λ v. plain v ≡ http_error code (map (pairs_of headers)) (plain body)) }
{
    let mut tags = List::new(alloc)?;
    tags.push(Value::Text(Text::new(alloc, Tag::HttpError.name())?))?;
    let message = error_message(alloc, code)?;
    let mut pairs = Map::new(alloc)?;
    pairs.insert(Text::new(alloc, "headers")?, Value::Map(headers))?;
    pairs.insert(Text::new(alloc, "code")?, Value::Int(i64::from(code)))?;
    pairs.insert(Text::new(alloc, "body")?, body)?;
    pairs.insert(Text::new(alloc, "tags")?, Value::List(tags))?;
    pairs.insert(Text::new(alloc, "message")?, Value::Text(message))?;
    Ok(Value::Map(pairs))
}

fn error_message(alloc: Global, code: u16) -> Result<Text, OutOfMemory>
    ensures { IfOk result (λ t. t ≡ tag_message HttpError ++ decimal code) }
{
    let message = format!(in alloc; "{}{code}", Tag::HttpError.message())?;
    Text::new(alloc, message.as_str())
}
