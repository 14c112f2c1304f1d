// A value with a new one put at places below it.
ghost use Rattle.std.specs.Prelude.{◌≡◌, ◌<◌, ◌++◌, IfOk, length, map, option_map, slice_set};
ghost use Rattle.wf_ast.specs.Places.{written};
ghost use Rattle.wf_scope.specs.Faults.{Makes, Lends, faulted};
ghost use Rattle.wf_scope.specs.Places.{item_at, key_data, member, with_item, with_key, with_member};
ghost use Rattle.wf_value.specs.Plain.{plain, plain_items};

use crate::fault::AssignFault;
use crate::key::Key;
use std::alloc::Global;
use wf_value::{List, OutOfMemory, Text, Value};

/// The value with a new one at these places below it. The lists and maps on the way are copied; they share what they hold.
pub(crate) fn written(
    alloc: Global,
    path: &[Key],
    old: &Value,
    new: Value,
) -> Result<Value, AssignFault>
    ensures { Makes result (faulted (written (map key_data path.now) (plain old.now) (plain new))) }
{
    match path {
        [] => Ok(new),
        [last] => with_member(alloc, last, new, old),
        [first, rest @ ..] => match member(first, old) {
            Ok(inner) => match written(alloc, rest, inner, new) {
                Ok(inner) => with_member(alloc, first, inner, old),
                Err(fault) => Err(fault),
            },
            Err(fault) => Err(fault),
        },
    }
}

/// What stands at a place of a value.
fn member<'a>(key: &Key, value: &'a Value) -> Result<&'a Value, AssignFault>
    ensures { Lends result (faulted (member (key_data key.now) (plain value.now))) }
{
    match key {
        Key::Name(name) => match value {
            Value::Map(pairs) => match pairs.get(name.as_str()) {
                Some(member) => Ok(member),
                None => Err(AssignFault::MissingKey),
            },
            _ => Err(AssignFault::NotAContainer),
        },
        Key::At(index) => match value {
            Value::List(list) => match item_at(*index, list.items()) {
                Some(item) => Ok(item),
                None => Err(AssignFault::BadIndex),
            },
            _ => Err(AssignFault::NotAContainer),
        },
    }
}

/// The item at an index.
fn item_at(index: i64, items: &[Value]) -> Option<&Value>
    ensures { option_map (λ v. plain v.now) result ≡ item_at index (plain_items items.now) }
{
    match usize::try_from(index) {
        Ok(place) if place < items.len() => Some(&items[place]),
        _ => None,
    }
}

/// The value with a new one at a place.
fn with_member(alloc: Global, key: &Key, new: Value, value: &Value) -> Result<Value, AssignFault>
    ensures { Makes result (faulted
        (with_member (key_data key.now) (plain new) (plain value.now))) }
{
    match key {
        Key::Name(name) => with_key(alloc, name, new, value),
        Key::At(index) => match value {
            Value::List(list) => with_item(alloc, *index, new, list.items()),
            _ => Err(AssignFault::NotAContainer),
        },
    }
}

/// The value with a new one at a key.
fn with_key(alloc: Global, name: &Text, new: Value, value: &Value) -> Result<Value, AssignFault>
    ensures { Makes result (faulted (with_key name.now (plain new) (plain value.now))) }
{
    let (Ok(name), Ok(mut changed)) = (name.copy(), value.copy(alloc)) else {
        return Err(AssignFault::OutOfMemory);
    };
    match &mut changed {
        Value::Map(pairs) => match pairs.insert(name, new) {
            Ok(_) => {}
            Err(_) => return Err(AssignFault::OutOfMemory),
        },
        _ => return Err(AssignFault::NotAContainer),
    }
    Ok(changed)
}

/// The list of these items with a new one at an index.
fn with_item(alloc: Global, index: i64, new: Value, items: &[Value]) -> Result<Value, AssignFault>
    ensures { Makes result (faulted (with_item index (plain new) (plain_items items.now))) }
{
    match usize::try_from(index) {
        Ok(place) if place < items.len() => match replaced(alloc, items, place, new) {
            Ok(list) => Ok(Value::List(list)),
            Err(_) => Err(AssignFault::OutOfMemory),
        },
        _ => Err(AssignFault::BadIndex),
    }
}

/// The list of these items with a new one at a place.
fn replaced(alloc: Global, items: &[Value], place: usize, new: Value) -> Result<List, OutOfMemory>
    requires { place < length items.now }
    ensures { IfOk result (λ l. l ≡ slice_set (plain_items items.now) place (plain new)) }
{
    let (before, _) = items.split_at(place);
    let (_, behind) = items.split_at(place + 1);
    let mut list = List::new(alloc)?;
    append(alloc, &mut list, before)?;
    list.push(new)?;
    append(alloc, &mut list, behind)?;
    Ok(list)
}

/// Adds equal items at the end of a list.
fn append(alloc: Global, list: &mut List, items: &[Value]) -> Result<(), OutOfMemory>
    ensures { IfOk result (λ _. list.new ≡ list.old ++ plain_items items.now) }
{
    for item in items {
        list.push(item.copy(alloc)?)?;
    }
    Ok(())
}
