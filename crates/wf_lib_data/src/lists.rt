// Lists with one item more.
ghost use Rattle.std.specs.Prelude.{◌≡◌, ◌∷◌, IfOk};
ghost use Rattle.wf_value.specs.Answers.{IsAnswerOf};
ghost use Rattle.wf_value.specs.LibData.{list_concat, list_prepend};
ghost use Rattle.wf_value.specs.Plain.{plain, plain_items};

use std::alloc::Global;
use wf_value::{List, OutOfMemory, Raise, Tag, Value, sized};

/// `list.concat`: the list with a value at its end.
///
/// A TypeError where `objs` is no list; a ResourceLimitError where the answer is past the limit on
/// size, 4,194,304. The list is copied, its items are shared.
pub fn list_concat(alloc: Global, objs: &Value, val: &Value) -> Result<Value, Raise>
    ensures { IsAnswerOf result (list_concat (plain objs.now) (plain val.now)) }
{
    let mut longer = objs.copy(alloc)?;
    let last = val.copy(alloc)?;
    match &mut longer {
        Value::List(items) => items.push(last)?,
        _ => return Err(Raise::Error(Tag::TypeError)),
    }
    sized(longer)
}

/// `list.prepend`: the list with a value at its front.
///
/// A TypeError where `objs` is no list; a ResourceLimitError where the answer is past the limit on
/// size, 4,194,304. The list is copied, its items are shared.
pub fn list_prepend(alloc: Global, objs: &Value, val: &Value) -> Result<Value, Raise>
    ensures { IsAnswerOf result (list_prepend (plain objs.now) (plain val.now)) }
{
    match objs {
        Value::List(list) => sized(Value::List(behind(alloc, val, list.items())?)),
        _ => Err(Raise::Error(Tag::TypeError)),
    }
}

/// The list of a value and of some items behind it.
fn behind(alloc: Global, first: &Value, items: &[Value]) -> Result<List, OutOfMemory>
    ensures { IfOk result (λ l. l ≡ plain first.now ∷ plain_items items.now) }
{
    let mut list = List::new(alloc)?;
    list.push(first.copy(alloc)?)?;
    for item in items {
        list.push(item.copy(alloc)?)?;
    }
    Ok(list)
}
