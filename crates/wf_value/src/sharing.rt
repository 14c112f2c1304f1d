// Contents that several values share: a write makes its own copy first.
ghost use Rattle.std.specs.Prelude.{◌≡◌, IfOk};

use crate::value::{Entries, Items};
use crate::{OutOfMemory, Text, Value};
use std::alloc::Global;
use std::rc::Rc;

/// Makes this the only owner of the items, which stay the same.
pub(crate) fn own_items(items: &mut Rc<Items>) -> Result<(), OutOfMemory>
    ensures items { items.new.value.values.items ≡ items.old.value.values.items }
    ensures measure { items.new.value.measure ≡ items.old.value.measure }
{
    if Rc::strong_count(items) == 1 {
        return Ok(());
    }
    let alloc = *items.values.allocator();
    let values = copy_items(alloc, items.values.as_slice())?;
    let measure = items.measure;
    *items = Rc::new(alloc, Items { values, measure })?;
    Ok(())
}

fn copy_items(alloc: Global, items: &[Value]) -> Result<Vec<Value>, OutOfMemory>
    ensures { IfOk result (λ v. v.items ≡ items.now) }
{
    let mut copies = Vec::with_capacity(alloc, items.len())?;
    for item in items {
        copies.push(item.share()?)?;
    }
    Ok(copies)
}

/// Makes this the only owner of the pairs, which stay the same.
#[inline(always)]
pub(crate) fn own_entries(entries: &mut Rc<Entries>) -> Result<(), OutOfMemory>
    ensures pairs { entries.new.value.pairs.items ≡ entries.old.value.pairs.items }
    ensures measure { entries.new.value.measure ≡ entries.old.value.measure }
{
    if Rc::strong_count(entries) == 1 {
        return Ok(());
    }
    let alloc = *entries.pairs.allocator();
    let pairs = copy_pairs(alloc, entries.pairs.as_slice())?;
    let measure = entries.measure;
    *entries = Rc::new(alloc, Entries { pairs, measure })?;
    Ok(())
}

fn copy_pairs(alloc: Global, pairs: &[(Text, Value)]) -> Result<Vec<(Text, Value)>, OutOfMemory>
    ensures { IfOk result (λ v. v.items ≡ pairs.now) }
{
    let mut copies = Vec::with_capacity(alloc, pairs.len())?;
    for pair in pairs {
        let key = pair.0.copy()?;
        let value = pair.1.share()?;
        copies.push((key, value))?;
    }
    Ok(copies)
}
