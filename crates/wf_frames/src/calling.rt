//! What functions answer to arguments that stand under names.
ghost use Rattle.wf_eval.specs.Answers.{Gives};
ghost use Rattle.wf_eval.specs.Sight.{seen};
ghost use Rattle.wf_frames.specs.Functions.{answer_of};
ghost use Rattle.wf_value.specs.Data.{pairs_of};

use std::alloc::Global;
use wf_ast::{Function, call_arguments};
use wf_eval::{Look, apply, keep};
use wf_value::{Map, Raise, Value};

/// What a function answers to the arguments of a call, which stand under its names. Arguments under
/// other names are passed over.
pub fn call_function<K: Look>(
    alloc: Global,
    function: &Function,
    args: &Map,
    look: &K,
    now: u64,
) -> Result<Value, Raise>
    ensures { Gives result
        (answer_of (seen (K.sight look.now) now) function.now (pairs_of args.now)) }
{
    let values = call_arguments(alloc, &function.arguments, args)?;
    match apply(alloc, function.func, values.as_slice(), look, now) {
        Ok(value) => keep(value),
        Err(raise) => Err(raise),
    }
}
