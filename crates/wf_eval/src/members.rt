//! Equality, and what lists and maps hold.
ghost use Rattle.std.specs.Prelude.{◌≡◌};
ghost use Rattle.std.specs.List.{list_any};
ghost use Rattle.wf_ast.specs.Eval.{found_in, at_key, at_index};
ghost use Rattle.wf_value.specs.Pairs.{same};
ghost use Rattle.wf_value.specs.Plain.{plain, plain_items};
ghost use Rattle.wf_eval.specs.Answers.{Gives, item_of};

use crate::answers::{copied, whole};
use std::alloc::Global;
use wf_value::{Raise, Tag, Value};

/// Whether two values are equal.
pub fn are_same(v: &Value, w: &Value) -> bool
    ensures { result ≡ same (plain v.now) (plain w.now) }
{
    v.same(w)
}

/// `in`
pub fn found_in(v: &Value, w: &Value) -> Result<Value, Raise>
    ensures { Gives result (found_in (plain v.now) (plain w.now)) }
{
    match w {
        Value::Map(m) => match v {
            Value::Text(k) => Ok(Value::Bool(m.get(k.as_str()).is_some())),
            _ => Err(Raise::Error(Tag::TypeError)),
        },
        Value::List(l) => Ok(Value::Bool(is_item(v, l.items()))),
        _ => Err(Raise::Error(Tag::TypeError)),
    }
}

/// Whether a value is one of some others.
fn is_item(v: &Value, items: &[Value]) -> bool
    ensures { result ≡ list_any (same (plain v.now)) (plain_items items.now) }
{
    for w in items {
        if are_same(v, w) {
            return true;
        }
    }
    false
}

/// The value of a map's key.
#[tactic(auto, using(crate::proofs::Listed::pairs_listed))]
pub fn at_key(alloc: Global, v: &Value, k: &str) -> Result<Value, Raise>
    ensures { Gives result (at_key (plain v.now) k.now) }
{
    match v {
        Value::Map(m) => match m.get(k) {
            Some(x) => copied(alloc, x),
            None => Err(Raise::Error(Tag::KeyError)),
        },
        _ => Err(Raise::Error(Tag::TypeError)),
    }
}

/// The value of a map's key, or a list's item from 0.
#[inline(always)]
pub fn at_index(alloc: Global, v: &Value, w: &Value) -> Result<Value, Raise>
    ensures { Gives result (at_index (plain v.now) (plain w.now)) }
{
    match v {
        Value::Map(_) => match w {
            Value::Text(k) => at_key(alloc, v, k.as_str()),
            _ => Err(Raise::Error(Tag::TypeError)),
        },
        Value::List(l) => item_at(alloc, l.items(), whole(w)?),
        _ => Err(Raise::Error(Tag::TypeError)),
    }
}

/// The item at an index.
#[tactic(auto, using(crate::proofs::Listed::items_listed))]
fn item_at(alloc: Global, items: &[Value], i: i64) -> Result<Value, Raise>
    ensures { Gives result (item_of (plain_items items.now) i) }
{
    match usize::try_from(i) {
        Ok(i) if i < items.len() => copied(alloc, &items[i]),
        _ => Err(Raise::Error(Tag::IndexError)),
    }
}
