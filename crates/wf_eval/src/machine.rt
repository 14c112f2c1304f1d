//! The stack of values.
ghost use Rattle.std.specs.Prelude.{◌≡◌, ◌∷◌, [], true};
ghost use Rattle.std.specs.List.{list_all};
ghost use Rattle.wf_value.specs.Data.{Data};
ghost use Rattle.wf_value.specs.Errors.{Answer, or_error};
ghost use Rattle.wf_value.specs.declared.errors.Tag.TheVariants.{KeyError};
ghost use Rattle.wf_value.specs.Plain.{plain};
ghost use Rattle.wf_ast.specs.Apply.{View};
ghost use Rattle.wf_ast.specs.Eval as meaning;
ghost use Rattle.wf_ast.specs.Tree as t;
ghost use Rattle.wf_ast.specs.Instrs.{instr, instrs};
ghost use Rattle.wf_ast.specs.Machine as m;
ghost use Rattle.wf_ast.specs.Machine.{code};
ghost use Rattle.wf_eval.specs.Answers.{Gives};
ghost use Rattle.wf_eval.specs.Sight.{seen};
ghost use Rattle.wf_eval.specs.Steps.{Leads, Pops, Pushes, Steps, settled, tops};

use crate::answers::{copied, keep, number, truth, whole};
use crate::calling::apply;
use crate::look::Look;
use crate::members::{at_index, at_key};
use crate::operators::operate;
use crate::short::short;
use std::alloc::Global;
use wf_ast::{Func, Instr, Op, Postfix, code_means};
use wf_name::Name;
use wf_value::{Raise, Tag, Value, neg};

/// The value of the expression whose code this is, or its first error.
#[inline(never)]
pub fn eval<K: Look>(alloc: Global, e: &Postfix, look: &K, now: u64) -> Result<Value, Raise>
    ensures { (x : t.Expr) → instrs e.now ≡ code x
        → Gives result (meaning.eval x (seen (K.sight look.now) now)) }
{
    // laws that the proof uses
    code_means();
    match short(alloc, e.items(), look) {
        Some(value) => value,
        None => eval_on_stack(alloc, e, look, now),
    }
}

/// The same, on a stack. It stands apart from what most code runs.
#[inline(never)]
fn eval_on_stack<K: Look>(alloc: Global, e: &Postfix, look: &K, now: u64) -> Result<Value, Raise>
    ensures { (x : t.Expr) → instrs e.now ≡ code x
        → Gives result (meaning.eval x (seen (K.sight look.now) now)) }
{
    // laws that the proof uses
    code_means();
    let mut stack = Vec::new(alloc);
    let mut skip = 0;
    for i in e.items() {
        if skip > 0 {
            skip -= 1;
        } else {
            skip = step(alloc, i, &mut stack, look, now)?;
        }
    }
    pop(&mut stack)
}

/// One instruction, and how many are passed behind it.
#[inline(always)]
fn step<K: Look>(
    alloc: Global,
    i: &Instr,
    stack: &mut Vec<Value>,
    look: &K,
    now: u64,
) -> Result<usize, Raise>
    ensures { Steps (seen (K.sight look.now) now) (instr i.now) (tops stack.old.items) result
        (tops stack.new.items) }
{
    match i {
        Instr::Push(v) => settle(stack, copied(alloc, v)),
        Instr::Load(x) => settle(stack, named(alloc, look, x)),
        Instr::Negate => negate(stack),
        Instr::Invert => invert(stack),
        Instr::Combine(op) => combine(alloc, stack, *op),
        Instr::Member(k) => member(alloc, stack, k.as_str()),
        Instr::Index => index(alloc, stack),
        Instr::Call(f, count) => call(alloc, stack, *f, *count, look, now),
        Instr::AndSkip(count) => and_skip(stack, *count),
        Instr::OrSkip(count) => or_skip(stack, *count),
        Instr::Check => check(stack),
    }
}

/// The value of a visible name.
#[inline(always)]
fn named<K: Look>(alloc: Global, look: &K, name: &Name) -> Result<Value, Raise>
    ensures { Gives result (or_error KeyError ((seen (K.sight look.now) 0).look name.now)) }
{
    match look.look(name) {
        Some(v) => copied(alloc, v),
        None => Err(Raise::Error(Tag::KeyError)),
    }
}

fn negate(stack: &mut Vec<Value>) -> Result<usize, Raise>
    ensures { (s : View) → Steps s m.negate (tops stack.old.items) result (tops stack.new.items) }
{
    let v = pop(stack)?;
    put(stack, number(neg(whole(&v)?))?)
}

fn invert(stack: &mut Vec<Value>) -> Result<usize, Raise>
    ensures { (s : View) → Steps s m.invert (tops stack.old.items) result (tops stack.new.items) }
{
    let v = pop(stack)?;
    put(stack, Value::Bool(!truth(&v)?))
}

#[inline(always)]
fn combine(alloc: Global, stack: &mut Vec<Value>, op: Op) -> Result<usize, Raise>
    ensures { (s : View) → Steps s (m.combine op) (tops stack.old.items) result
        (tops stack.new.items) }
{
    let w = pop(stack)?;
    let v = pop(stack)?;
    settle(stack, operate(alloc, op, &v, &w))
}

fn member(alloc: Global, stack: &mut Vec<Value>, k: &str) -> Result<usize, Raise>
    ensures { (s : View) → Steps s (m.member k.now) (tops stack.old.items) result
        (tops stack.new.items) }
{
    let v = pop(stack)?;
    settle(stack, at_key(alloc, &v, k))
}

fn index(alloc: Global, stack: &mut Vec<Value>) -> Result<usize, Raise>
    ensures { (s : View) → Steps s m.index (tops stack.old.items) result (tops stack.new.items) }
{
    let w = pop(stack)?;
    let v = pop(stack)?;
    settle(stack, at_index(alloc, &v, &w))
}

fn and_skip(stack: &mut Vec<Value>, count: usize) -> Result<usize, Raise>
    ensures { (s : View) → Steps s (m.and_skip count) (tops stack.old.items) result
        (tops stack.new.items) }
{
    let v = pop(stack)?;
    if truth(&v)? {
        return Ok(0);
    }
    put(stack, Value::Bool(false))?;
    Ok(count)
}

fn or_skip(stack: &mut Vec<Value>, count: usize) -> Result<usize, Raise>
    ensures { (s : View) → Steps s (m.or_skip count) (tops stack.old.items) result
        (tops stack.new.items) }
{
    let v = pop(stack)?;
    if !truth(&v)? {
        return Ok(0);
    }
    put(stack, Value::Bool(true))?;
    Ok(count)
}

fn check(stack: &mut Vec<Value>) -> Result<usize, Raise>
    ensures { (s : View) → Steps s m.check (tops stack.old.items) result (tops stack.new.items) }
{
    let v = pop(stack)?;
    put(stack, Value::Bool(truth(&v)?))
}

/// Puts a value on the stack if it keeps within the limits, and passes nothing.
#[inline(always)]
fn settle(stack: &mut Vec<Value>, value: Result<Value, Raise>) -> Result<usize, Raise>
    ensures { (d : Answer Data) → Gives value d
        → Leads (settled d (tops stack.old.items)) result (tops stack.new.items) }
{
    put(stack, keep(value?)?)
}

/// Puts a value on the stack, and passes nothing.
#[inline(always)]
fn put(stack: &mut Vec<Value>, v: Value) -> Result<usize, Raise>
    ensures { Pushes result (tops stack.new.items) (plain v ∷ tops stack.old.items) }
{
    stack.push(v)?;
    Ok(0)
}

/// The topmost value.
fn pop(stack: &mut Vec<Value>) -> Result<Value, Raise>
    ensures { Pops result (tops stack.old.items) (tops stack.new.items) }
{
    match stack.pop() {
        Some(v) => Ok(v),
        None => Err(Raise::Error(Tag::TypeError)),
    }
}

/// The function on so many topmost values, the topmost last.
fn call<K: Look>(
    alloc: Global,
    stack: &mut Vec<Value>,
    f: Func,
    count: usize,
    look: &K,
    now: u64,
) -> Result<usize, Raise>
    ensures { Steps (seen (K.sight look.now) now) (m.call f count) (tops stack.old.items) result
        (tops stack.new.items) }
{
    let Some(below) = stack.len().checked_sub(count) else {
        return Err(Raise::Error(Tag::TypeError));
    };
    let args = stack.split_off(below)?;
    settle(stack, apply(alloc, f, args.as_slice(), look, now))
}
