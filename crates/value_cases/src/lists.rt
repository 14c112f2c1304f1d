// Lists.
use std::alloc::Global;
use wf_cases::{CaseFault, json_of};
use wf_value::{List, Value};

/// A list that is built of the items: how many it has, and what it is written as.
pub(crate) fn built(alloc: Global, items: &[Value]) -> Result<String, CaseFault> {
    let mut list = List::new(alloc)?;
    for item in items {
        list.push(item.copy(alloc)?)?;
    }
    let count = list.items().len();
    let shown = json_of(alloc, &Value::List(list))?;
    Ok(format!(in alloc; "{count} {shown}")?)
}

/// A list is copied, and an item is added to the copy: of each of the two what it is written as and its size, the depth of the
/// copy, and whether they are the same.
pub(crate) fn copied(alloc: Global, value: &Value, item: &Value) -> Result<String, CaseFault> {
    let mut copy = value.copy(alloc)?;
    match &mut copy {
        Value::List(list) => list.push(item.copy(alloc)?)?,
        _ => return Err(CaseFault::NoCase),
    }
    two(alloc, value, &copy)
}

/// Of each of two values what it is written as and its size, the depth of the second, and whether they are the same.
pub(crate) fn two(alloc: Global, first: &Value, second: &Value) -> Result<String, CaseFault> {
    let one = json_of(alloc, first)?;
    let other = json_of(alloc, second)?;
    let (size, other_size) = (first.size(), second.size());
    let depth = second.depth();
    let same = first.same(second);
    Ok(format!(in alloc; "{one} {size} {other} {other_size} {depth} {same}")?)
}
