// The items of a list.
ghost use Rattle.std.specs.Prelude.{◌≡◌, ◌∷◌, [], ◌++◌, is_ok, if◌then◌else◌};
ghost use Rattle.wf_value.specs.Data.{items_of, list};
ghost use Rattle.wf_value.specs.Measures.{IsMeasure};
ghost use Rattle.wf_value.specs.Plain.{plain_items};

use crate::measure::Measure;
use crate::sharing::own_items;
use crate::value::Items;
use crate::{OutOfMemory, Value};
use std::rc::Rc;

/// Adds an item at the end.
pub(crate) fn push_item(items: &mut Rc<Items>, item: Value) -> Result<(), OutOfMemory>
    requires { IsMeasure items.old.value.measure
        (list (items_of (plain_items items.old.value.values.items))) }
    ensures after { items.new.value.values.items
        ≡ (if is_ok result then items.old.value.values.items
        ++ item ∷ [] else items.old.value.values.items) }
    ensures measure { IsMeasure items.new.value.measure
        (list (items_of (plain_items items.new.value.values.items))) }
{
    own_items(items)?;
    match Rc::get_mut(items) {
        Some(own) => push(own, item),
        None => Err(OutOfMemory),
    }
}

fn push(items: &mut Items, item: Value) -> Result<(), OutOfMemory>
    requires { IsMeasure items.old.measure (list (items_of (plain_items items.old.values.items))) }
    ensures after { items.new.values.items
        ≡ (if is_ok result then items.old.values.items ++ item ∷ [] else items.old.values.items) }
    ensures measure { IsMeasure items.new.measure
        (list (items_of (plain_items items.new.values.items))) }
{
    let measure = items.measure.with_item(Measure::of_value(&item));
    items.values.push(item)?;
    items.measure = measure;
    Ok(())
}
