//! Growing a list by an item, and putting an item into a box.
ghost use Rattle.std.specs.Prelude.{◌≡◌, [], ◌∷◌, ◌++◌, IfOk, is_ok, if◌then◌else◌};

use std::alloc::Global;
use wf_value::OutOfMemory;

/// Adds an item at the end. Without memory the list stays as it was, and the item is let go: here, where nothing of its type is known, its
/// drop is one call.
pub fn add<T: Drop>(items: &mut Vec<T>, item: T) -> Result<(), OutOfMemory>
    ensures { items.new.items ≡ (if is_ok result then items.old.items
        ++ item ∷ [] else items.old.items) }
{
    items.push(item)?;
    Ok(())
}

/// The item in a box. Without memory it is let go here, where nothing of its type is known.
pub fn boxed<T: Drop>(alloc: Global, item: T) -> Result<Box<T>, OutOfMemory>
    ensures { IfOk result (λ held. held.value ≡ item) }
{
    Ok(Box::new(alloc, item)?)
}
