// Entries of assigns, evaluated.
ghost use Rattle.wf_ast.specs.Eval.{fill};
ghost use Rattle.wf_eval.specs.Answers.{Answers, Gives};
ghost use Rattle.wf_eval.specs.Sight.{seen};
ghost use Rattle.wf_frames.specs.Assigned.{entry_values, values_of};
ghost use Rattle.wf_model.specs.NodeKinds.{entry_by};

use crate::codes::values;
use crate::filling::fill_shape;
use crate::nodes::first_of;
use std::alloc::Global;
use wf_ast::Postfix;
use wf_eval::Look;
use wf_model::EntryNode;
use wf_value::{Raise, Value};

/// The value of an assignment, and those of the places of its target.
#[derive(Drop)]
pub struct Assigned {
    pub value: Value,
    pub places: Vec<Value>,
}

/// The value of an entry alone, with the compiled expressions of its node, or its first error. It is all of an entry that has no places.
/// It sees the reading of the clock `now`, in milliseconds since 1970.
#[inline(always)]
pub fn evaluate_value<K: Look>(
    alloc: Global,
    entry: &EntryNode,
    codes: &[Postfix],
    look: &K,
    now: u64,
) -> Result<Value, Raise>
    ensures { Gives result
        (fill (entry_by codes.now entry.now).value (seen (K.sight look.now) now)) }
{
    fill_shape(alloc, &entry.value, codes, look, now)
}

/// The value of an entry first, and then those of the places of its target, with the compiled expressions of its node; or the first error.
/// They see the reading of the clock `now`, in milliseconds since 1970.
#[inline(never)]
pub fn evaluate<K: Look>(
    alloc: Global,
    entry: &EntryNode,
    codes: &[Postfix],
    look: &K,
    now: u64,
) -> Result<Assigned, Raise>
    ensures { Answers values_of result (entry_values (entry_by codes.now entry.now)
        (seen (K.sight look.now) now)) }
{
    let value = fill_shape(alloc, &entry.value, codes, look, now)?;
    if entry.places == 0 {
        return Ok(Assigned {
            value,
            places: Vec::new(alloc),
        });
    }
    let places = values(alloc, first_of(codes, entry.places), look, now)?;
    Ok(Assigned { value, places })
}
