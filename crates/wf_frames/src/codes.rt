//! The values of compiled expressions.
ghost use Rattle.std.specs.Prelude.{map};
ghost use Rattle.wf_ast.specs.Eval as meaning;
ghost use Rattle.wf_ast.specs.Tree.{exprs};
ghost use Rattle.wf_eval.specs.Answers.{Answers, Gives};
ghost use Rattle.wf_eval.specs.Sight.{seen};
ghost use Rattle.wf_model.specs.Shapes.{decoded, hole_by};
ghost use Rattle.wf_value.specs.Plain.{plain};

use std::alloc::Global;
use wf_ast::Postfix;
use wf_eval::{Look, eval};
use wf_value::{Raise, Value};

/// The value of the compiled expression at a place, or its first error. A place that isn't there gives null.
pub(crate) fn value_at<K: Look>(
    alloc: Global,
    codes: &[Postfix],
    place: u32,
    look: &K,
    now: u64,
) -> Result<Value, Raise>
    ensures { Gives result (meaning.eval (hole_by codes.now place) (seen (K.sight look.now) now)) }
{
    match codes.get(place as usize) {
        Some(code) => value(alloc, code, look, now),
        None => Ok(Value::Null),
    }
}

/// The value of a compiled expression.
#[inline(always)]
fn value<K: Look>(alloc: Global, code: &Postfix, look: &K, now: u64) -> Result<Value, Raise>
    ensures { Gives result (meaning.eval (decoded code.now) (seen (K.sight look.now) now)) }
{
    let _instrs = code.items();
    eval(alloc, code, look, now)
}

/// The values of compiled expressions, in their order, or the first error.
pub(crate) fn values<K: Look>(
    alloc: Global,
    codes: &[Postfix],
    look: &K,
    now: u64,
) -> Result<Vec<Value>, Raise>
    ensures { Answers (λ vs. map plain vs.items) result
        (meaning.eval_all (exprs (map decoded codes.now)) (seen (K.sight look.now) now)) }
{
    let mut values = Vec::new(alloc);
    for code in codes {
        let value = value(alloc, code, look, now)?;
        values.push(value)?;
    }
    Ok(values)
}
