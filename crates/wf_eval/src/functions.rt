//! The functions whose names have no point.
ghost use Rattle.std.specs.Prelude.{◌≡◌, Ok, length, pos, chars, suc};
ghost use Rattle.wf_ast.specs.declared.expr.Func.TheVariants as func;
ghost use Rattle.wf_ast.specs.Apply.{apply_one, as_int, as_string, chosen_by, count, key_texts, kind_name, or_default, shown};
ghost use Rattle.wf_value.specs.Data.{integer, pairs_of, text};
ghost use Rattle.wf_value.specs.Pairs.{keys};
ghost use Rattle.wf_value.specs.Plain.{plain};
ghost use Rattle.wf_eval.specs.Answers.{Answers, Gives, GivesText};

use crate::answers::{copied, owned, text};
use std::alloc::Global;
use wf_value::{List, Map, Raise, Tag, Text, Value};

/// `default`
pub(crate) fn or_default(alloc: Global, v: &Value, w: &Value) -> Result<Value, Raise>
    ensures { Gives result (Ok (or_default (plain v.now) (plain w.now))) }
{
    match v {
        Value::Null => copied(alloc, w),
        _ => copied(alloc, v),
    }
}

/// `if`
pub(crate) fn chosen_by(alloc: Global, c: &Value, v: &Value, w: &Value) -> Result<Value, Raise>
    ensures { Gives result (chosen_by (plain c.now) (plain v.now) (plain w.now)) }
{
    match c {
        Value::Bool(true) => copied(alloc, v),
        Value::Bool(false) => copied(alloc, w),
        _ => Err(Raise::Error(Tag::TypeError)),
    }
}

/// `keys`
pub(crate) fn keys(alloc: Global, v: &Value) -> Result<Value, Raise>
    ensures { Gives result (apply_one func.Keys (plain v.now)) }
{
    match v {
        Value::Map(m) => Ok(Value::List(key_list(alloc, m)?)),
        _ => Err(Raise::Error(Tag::TypeError)),
    }
}

fn key_list(alloc: Global, m: &Map) -> Result<List, Raise>
    ensures { Answers (λ l. l) result (Ok (key_texts (keys (pairs_of m.now)))) }
{
    let mut list = List::new(alloc)?;
    let mut i: usize = 0;
    while let Some((key, _)) = m.entry(i) {
        list.push(text(alloc, key)?)?;
        i = next(i)?;
    }
    Ok(list)
}

/// `len`
pub(crate) fn len(v: &Value) -> Result<Value, Raise>
    ensures { Gives result (count (plain v.now)) }
{
    match v {
        Value::Text(t) => counted(char_count(t.as_str())),
        Value::Bytes(b) => counted(b.as_slice().len()),
        Value::List(l) => counted(l.items().len()),
        Value::Map(m) => counted(pair_count(m)?),
        _ => Err(Raise::Error(Tag::TypeError)),
    }
}

/// No text, list or map is so long that its length is past 64 bits.
fn counted(n: usize) -> Result<Value, Raise>
    ensures { Gives result (Ok (integer (pos n))) }
{
    match i64::try_from(n) {
        Ok(n) => Ok(Value::Int(n)),
        Err(_) => Err(Raise::OutOfMemory),
    }
}

fn char_count(s: &str) -> usize
    ensures { result ≡ length (chars s.now) }
{
    s.chars().count()
}

fn pair_count(m: &Map) -> Result<usize, Raise>
    ensures { Answers (λ n. n) result (Ok (length m.now)) }
{
    let mut i: usize = 0;
    while m.entry(i).is_some() {
        i = next(i)?;
    }
    Ok(i)
}

fn next(i: usize) -> Result<usize, Raise>
    ensures { Answers (λ n. n) result (Ok (suc i)) }
{
    match i.checked_add(1) {
        Some(n) => Ok(n),
        None => Err(Raise::OutOfMemory),
    }
}

/// `get_type`
pub(crate) fn kind_name(v: &Value) -> &'static str
    ensures { result.now ≡ kind_name (plain v.now) }
{
    match v {
        Value::Null => "null",
        Value::Bool(_) => "boolean",
        Value::Int(_) => "integer",
        Value::Text(_) => "string",
        Value::Bytes(_) => "bytes",
        Value::List(_) => "list",
        Value::Map(_) => "map",
    }
}

/// `int`
pub(crate) fn int(v: &Value) -> Result<Value, Raise>
    ensures { Gives result (as_int (plain v.now)) }
{
    match v {
        Value::Int(n) => Ok(Value::Int(*n)),
        Value::Text(t) => read_whole(t.as_str()),
        _ => Err(Raise::Error(Tag::TypeError)),
    }
}

/// A text of digits, with a minus in front or without; `parse` would take a plus too.
fn read_whole(s: &str) -> Result<Value, Raise>
    ensures { Gives result (as_int (text s.now)) }
{
    if s.starts_with('+') {
        return Err(Raise::Error(Tag::ValueError));
    }
    match s.parse::<i64>() {
        Ok(n) => Ok(Value::Int(n)),
        Err(_) => Err(Raise::Error(Tag::ValueError)),
    }
}

/// `string`
pub(crate) fn string(alloc: Global, v: &Value) -> Result<Value, Raise>
    ensures { Gives result (as_string (plain v.now)) }
{
    Ok(Value::Text(shown(alloc, v)?))
}

/// The text of a part of a joined text.
pub fn shown(alloc: Global, v: &Value) -> Result<Text, Raise>
    ensures { GivesText result (shown (plain v.now)) }
{
    match v {
        Value::Text(t) => owned(alloc, t.as_str()),
        Value::Int(n) => {
            let digits = n.to_string(alloc)?;
            owned(alloc, digits.as_str())
        }
        Value::Bool(true) => owned(alloc, "true"),
        Value::Bool(false) => owned(alloc, "false"),
        _ => Err(Raise::Error(Tag::TypeError)),
    }
}
