// The names of a function's arguments, and the arguments of a call in their order.
ghost use Rattle.std.specs.Prelude.{◌≡◌, ◌++◌, IfOk, OnOk, map};
ghost use Rattle.wf_ast.specs.Func.{in_order, listed_args};
ghost use Rattle.wf_ast.specs.Functions.{signature_of};
ghost use Rattle.wf_value.specs.Data.{pairs_of};
ghost use Rattle.wf_value.specs.Plain.{plain_items};

use std::alloc::Global;
use wf_value::{Map, OutOfMemory, Value};

/// The names of a function's arguments: those that it needs, and those that may be absent.
#[derive(Clone, Copy)]
pub struct ArgumentNames {
    pub needs: &'static [&'static str],
    pub may: &'static [&'static str],
}

/// The values of these names come behind those that stand there; a name that is absent adds none.
fn add_values(
    alloc: Global,
    names: &[&str],
    args: &Map,
    values: &mut Vec<Value>,
) -> Result<(), OutOfMemory>
    ensures { OnOk result (plain_items values.new.items ≡ plain_items values.old.items
        ++ listed_args (map (λ n. n.now) names.now) (pairs_of args.now)) }
{
    for name in names {
        if let Some(value) = args.get(name) {
            values.push(value.copy(alloc)?)?;
        }
    }
    Ok(())
}

/// The arguments in the order of the function's names, those that are absent left out.
pub fn call_arguments(
    alloc: Global,
    names: &ArgumentNames,
    args: &Map,
) -> Result<Vec<Value>, OutOfMemory>
    ensures { IfOk result (λ vs. plain_items vs.items
        ≡ in_order (signature_of names.now) (pairs_of args.now)) }
{
    let mut values = Vec::new(alloc);
    add_values(alloc, names.needs, args, &mut values)?;
    add_values(alloc, names.may, args, &mut values)?;
    Ok(values)
}
