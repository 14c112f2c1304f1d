//! Values as answers.
ghost use Rattle.std.specs.Prelude.{◌≡◌, IsTrue, Ok};
ghost use Rattle.wf_ast.specs.Eval.{truth, whole};
ghost use Rattle.wf_value.specs.Data.{text};
ghost use Rattle.wf_value.specs.Errors.{kept};
ghost use Rattle.wf_value.specs.Numbers.{as_answer};
ghost use Rattle.wf_value.specs.Plain.{plain};
ghost use Rattle.wf_eval.specs.Answers.{Gives, GivesBool, GivesInt, GivesText};

use std::alloc::Global;
use wf_value::{MAX_DEPTH, MAX_SIZE, NumFault, Raise, Tag, Text, Value};

/// The value, if it keeps within the limits.
#[inline(always)]
pub fn keep(v: Value) -> Result<Value, Raise>
    ensures { Gives result (kept (plain v)) }
{
    if v.size() <= MAX_SIZE && v.depth() <= MAX_DEPTH {
        Ok(v)
    } else {
        Err(Raise::Error(Tag::ResourceLimitError))
    }
}

/// Whether the value keeps within the limits.
#[inline(always)]
pub(crate) fn is_kept(v: &Value) -> bool
    ensures { IsTrue result → kept (plain v.now) ≡ Ok (plain v.now) }
{
    v.size() <= MAX_SIZE && v.depth() <= MAX_DEPTH
}

/// A truth value.
pub fn truth(v: &Value) -> Result<bool, Raise>
    ensures { GivesBool result (truth (plain v.now)) }
{
    match v {
        Value::Bool(b) => Ok(*b),
        _ => Err(Raise::Error(Tag::TypeError)),
    }
}

/// A whole number.
pub fn whole(v: &Value) -> Result<i64, Raise>
    ensures { GivesInt result (whole (plain v.now)) }
{
    match v {
        Value::Int(n) => Ok(*n),
        _ => Err(Raise::Error(Tag::TypeError)),
    }
}

/// The number, or its fault's tag.
#[inline(always)]
pub fn number(n: Result<i64, NumFault>) -> Result<Value, Raise>
    ensures { Gives result (as_answer n) }
{
    match n {
        Ok(n) => Ok(Value::Int(n)),
        Err(NumFault::ZeroDivisor) => Err(Raise::Error(Tag::ZeroDivisionError)),
        Err(_) => Err(Raise::Error(Tag::ValueError)),
    }
}

/// An equal value.
#[inline(always)]
pub fn copied(alloc: Global, v: &Value) -> Result<Value, Raise>
    ensures { Gives result (Ok (plain v.now)) }
{
    Ok(v.copy(alloc)?)
}

/// The text.
pub fn owned(alloc: Global, s: &str) -> Result<Text, Raise>
    ensures { GivesText result (Ok s.now) }
{
    Ok(Text::new(alloc, s)?)
}

/// The text as a value.
pub fn text(alloc: Global, s: &str) -> Result<Value, Raise>
    ensures { Gives result (Ok (text s.now)) }
{
    Ok(Value::Text(Text::new(alloc, s)?))
}
