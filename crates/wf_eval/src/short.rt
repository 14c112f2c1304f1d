//! Code of one operand, of two or of three, and what is done with them, which needs no stack.
ghost use Rattle.std.specs.Prelude.{◌≡◌, ◌∷◌, [], ℕ, IfSome};
ghost use Rattle.wf_value.specs.Data.{Data};
ghost use Rattle.wf_value.specs.Errors.{Answer};
ghost use Rattle.wf_value.specs.Plain.{plain};
ghost use Rattle.wf_ast.specs.Apply.{View};
ghost use Rattle.wf_ast.specs.Instrs.{instr, instrs};
ghost use Rattle.wf_ast.specs.Machine.{Next, Stack, act, exec};
ghost use Rattle.wf_eval.specs.Answers.{Gives};
ghost use Rattle.wf_eval.specs.Sight.{seen};
ghost use Rattle.wf_eval.specs.Steps.{IsOperand, Leaves, Puts, alone, settled};

use crate::answers::{copied, is_kept, keep};
use crate::look::Look;
use crate::members::at_index;
use crate::operators::operate;
use std::alloc::Global;
use wf_ast::Instr;
use wf_value::{Raise, Value};

/// What short code leaves on an empty stack. None where it isn't short, or where an operand can't be had.
#[inline(always)]
pub(crate) fn short<K: Look>(
    alloc: Global,
    items: &[Instr],
    look: &K,
) -> Option<Result<Value, Raise>>
    ensures { IfSome result (λ r. (now : ℕ)
        → Leaves r (exec (seen (K.sight look.now) now) (instrs items.now) 0 [])) }
{
    match items {
        [a] => one(alloc, a, look),
        [a, b, rest @ ..] => {
            let v = operand(a, look)?;
            let w = operand(b, look)?;
            match rest {
                [last] => two(alloc, last, v, w),
                [c, d, last] => three(alloc, c, d, last, v, w, look),
                _ => None,
            }
        }
        _ => None,
    }
}

/// What one operand leaves.
#[inline(always)]
fn one<K: Look>(alloc: Global, i: &Instr, look: &K) -> Option<Result<Value, Raise>>
    ensures { IfSome result (λ r. (now : ℕ)
        → Leaves r (act (seen (K.sight look.now) now) (instr i.now) alone [])) }
{
    let v = operand(i, look)?;
    Some(copied(alloc, v))
}

/// The value that an instruction puts on the stack, if it does nothing else and keeps within the limits.
#[inline(always)]
fn operand<'a, K: Look>(i: &'a Instr, look: &'a K) -> Option<&'a Value>
    ensures { IfSome result (λ v. IsOperand (K.sight look.now) (instr i.now) (plain v.now)) }
{
    let value = match i {
        Instr::Push(v) => v,
        Instr::Load(x) => look.look(x)?,
        _ => return None,
    };
    if is_kept(value) { Some(value) } else { None }
}

/// What three instructions leave of the two values that are there alone, the first one below.
#[inline(always)]
fn three<K: Look>(
    alloc: Global,
    c: &Instr,
    d: &Instr,
    last: &Instr,
    v: &Value,
    w: &Value,
    look: &K,
) -> Option<Result<Value, Raise>>
    ensures { IfSome result (λ r. (now : ℕ) → Leaves r (exec (seen (K.sight look.now) now)
        (instr c.now ∷ instr d.now ∷ instr last.now ∷ []) 0 (plain w.now ∷ plain v.now ∷ []))) }
{
    match c {
        Instr::Push(_) | Instr::Load(_) => right(alloc, c, d, last, v, w, look),
        _ => left(alloc, c, d, last, v, w, look),
    }
}

/// `(v mid w) last c`, where `c` is an operand.
#[inline(always)]
fn left<K: Look>(
    alloc: Global,
    mid: &Instr,
    c: &Instr,
    last: &Instr,
    v: &Value,
    w: &Value,
    look: &K,
) -> Option<Result<Value, Raise>>
    ensures { IfSome result (λ r. (now : ℕ) → Leaves r (exec (seen (K.sight look.now) now)
        (instr mid.now ∷ instr c.now ∷ instr last.now ∷ []) 0 (plain w.now ∷ plain v.now ∷ []))) }
{
    let x = operand(c, look)?;
    match two(alloc, mid, v, w)? {
        Ok(first) => two(alloc, last, &first, x),
        Err(e) => Some(Err(e)),
    }
}

/// `v last (w mid c)`, where `c` is an operand.
#[inline(always)]
fn right<K: Look>(
    alloc: Global,
    c: &Instr,
    mid: &Instr,
    last: &Instr,
    v: &Value,
    w: &Value,
    look: &K,
) -> Option<Result<Value, Raise>>
    ensures { IfSome result (λ r. (now : ℕ) → Leaves r (exec (seen (K.sight look.now) now)
        (instr c.now ∷ instr mid.now ∷ instr last.now ∷ []) 0 (plain w.now ∷ plain v.now ∷ []))) }
{
    let x = operand(c, look)?;
    match two(alloc, mid, w, x)? {
        Ok(second) => two(alloc, last, v, &second),
        Err(e) => Some(Err(e)),
    }
}

/// The value that an instruction puts on the stack in place of the two topmost values, the first one below.
#[inline(always)]
fn two(alloc: Global, i: &Instr, v: &Value, w: &Value) -> Option<Result<Value, Raise>>
    ensures { IfSome result (λ r. (s : View) (next : Next) (st : Stack)
        → Puts r next st (act s (instr i.now) next (plain w.now ∷ plain v.now ∷ st))) }
{
    match i {
        Instr::Combine(op) => Some(within(operate(alloc, *op, v, w))),
        Instr::Index => Some(within(at_index(alloc, v, w))),
        _ => None,
    }
}

/// The value, if it keeps within the limits.
#[inline(always)]
fn within(value: Result<Value, Raise>) -> Result<Value, Raise>
    ensures { (d : Answer Data) → Gives value d → (next : Next) (st : Stack)
        → Puts result next st (settled d st next) }
{
    keep(value?)
}
