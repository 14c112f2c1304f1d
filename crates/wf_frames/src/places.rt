// Places below a variable, as values.
ghost use Rattle.std.specs.Prelude.{◌≡◌, Err, IfOk, false, option_map};
ghost use Rattle.wf_frames.specs.Keys.{AreKeys, IsKey, Reads, all_keys};
ghost use Rattle.wf_model.specs.Layers as layers;
ghost use Rattle.wf_scope.specs.Changes.{changed};
ghost use Rattle.wf_scope.specs.Places.{item_at, member};
ghost use Rattle.wf_value.specs.Data.{Data};
ghost use Rattle.wf_value.specs.Plain.{plain, plain_items};

use std::alloc::Global;
use wf_scope::Key;
use wf_value::{OutOfMemory, Tag, Value};

/// The key that a value is; none where it is neither a text nor a whole number.
fn key_of(place: &Value) -> Result<Option<Key>, OutOfMemory>
    ensures { IfOk result (IsKey (plain place.now)) }
{
    match place {
        Value::Text(name) => Ok(Some(Key::Name(name.copy()?))),
        Value::Int(index) => Ok(Some(Key::At(*index))),
        _ => Ok(None),
    }
}

/// The keys that values are; none where one of them is none.
pub(crate) fn keys_of(alloc: Global, places: &[Value]) -> Result<Option<Vec<Key>>, OutOfMemory>
    ensures { IfOk result (AreKeys (plain_items places.now)) }
{
    let mut keys = Vec::new(alloc);
    for place in places {
        let found = key_of(place)?;
        let Some(key) = found else {
            return Ok(None);
        };
        keys.push(key)?;
    }
    Ok(Some(keys))
}

/// What stands at a place.
fn member<'a>(value: &'a Value, place: &Value) -> Result<&'a Value, Tag>
    ensures { Reads result (member (plain place.now) (plain value.now)) }
{
    match place {
        Value::Text(name) => match value {
            Value::Map(map) => match map.get(name.as_str()) {
                Some(inner) => Ok(inner),
                None => Err(Tag::KeyError),
            },
            _ => Err(Tag::TypeError),
        },
        Value::Int(index) => match value {
            Value::List(list) => match item_at(*index, list.items()) {
                Some(inner) => Ok(inner),
                None => Err(Tag::IndexError),
            },
            _ => Err(Tag::TypeError),
        },
        _ => Err(Tag::TypeError),
    }
}

/// The item at an index.
fn item_at(index: i64, items: &[Value]) -> Option<&Value>
    ensures { option_map (λ v. plain v.now) result ≡ item_at index (plain_items items.now) }
{
    match usize::try_from(index) {
        Ok(place) if place < items.len() => Some(&items[place]),
        _ => None,
    }
}

/// The error of a write at places below a value, of which one is no key.
fn fault_below(value: &Value, places: &[Value]) -> Tag
    requires { all_keys (plain_items places.now) ≡ false }
    ensures { (new : Data) → layers.written (plain_items places.now) (plain value.now) new
        ≡ Err result }
{
    match places {
        [] => Tag::TypeError,
        [first, rest @ ..] => match member(value, first) {
            Ok(inner) => fault_below(inner, rest),
            Err(tag) => tag,
        },
    }
}

/// The error of an assignment at places below a variable, of which one is no key.
pub(crate) fn fault_of(found: Option<&Value>, places: &[Value]) -> Tag
    requires { all_keys (plain_items places.now) ≡ false }
    ensures { (new : Data)
        → changed (option_map (λ v. plain v.now) found.entry) (plain_items places.now) new
        ≡ Err result }
{
    match found {
        Some(value) => fault_below(value, places),
        None => Tag::KeyError,
    }
}
