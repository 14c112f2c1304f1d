// Lists of items of any type. Where nothing of the type is known, an item's drop is one call.
ghost use Rattle.std.specs.Prelude.{◌≡◌, [], ◌∷◌, ◌++◌, IfOk, is_ok, if◌then◌else◌, length, slice_set};

use wf_value::OutOfMemory;

/// Adds an item at the end. Without memory the list stays as it was, and the item is let go.
pub fn add<T: Drop>(items: &mut Vec<T>, item: T) -> Result<(), OutOfMemory>
    ensures { items.new.items ≡ (if is_ok result then items.old.items
        ++ item ∷ [] else items.old.items) }
{
    items.push(item)?;
    Ok(())
}

/// Adds an item at the end, and says its number.
pub fn push<T: Drop>(items: &mut Vec<T>, item: T) -> Result<u32, OutOfMemory>
    ensures number { IfOk result (λ n. n ≡ length items.old.items) }
    ensures grown { IfOk result (λ n. items.new.items ≡ items.old.items ++ item ∷ []) }
{
    let Ok(number) = u32::try_from(items.len()) else {
        return Err(OutOfMemory);
    };
    add(items, item)?;
    Ok(number)
}

/// Puts an item in the place of a number. There is no place behind the last.
pub fn put<T: Drop>(items: &mut Vec<T>, number: u32, item: T)
    ensures { items.new.items ≡ slice_set items.old.items number item }
{
    if (number as usize) < items.len() {
        items[number as usize] = item;
    }
}
