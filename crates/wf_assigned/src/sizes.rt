//! The numbers behind parts of a program, as nodes are numbered in preorder.
ghost use Rattle.std.specs.Prelude.{◌≡◌, ◌+◌, suc, IfOk, map};
ghost use Rattle.wf_ast.specs.View.{arms_in, body_view, branches_in, entry_view, steps_in, try_view};
ghost use Rattle.wf_model.specs.Spots.{arms_size, body_size, branches_size, entries_size, steps_size, try_size};

use wf_ast::{Arms, Body, Branches, Entry, StepList, TryBody, Work};
use wf_value::OutOfMemory;

/// The number behind this one.
pub(crate) fn next(number: u32) -> Result<u32, OutOfMemory>
    ensures { IfOk result (λ n. n ≡ suc number) }
{
    match number.checked_add(1) {
        Some(next) => Ok(next),
        None => Err(OutOfMemory),
    }
}

/// The number behind the steps from this one on.
#[cycle(sizes)]
pub(crate) fn behind_steps(first: u32, steps: &StepList) -> Result<u32, OutOfMemory>
    ensures { IfOk result (λ n. n ≡ first + steps_size (steps_in steps.now)) }
{
    let mut number = first;
    for step in steps.items() {
        number = behind_body(number, &step.body)?;
    }
    Ok(number)
}

/// The number behind a node and what its body holds.
#[cycle(sizes)]
pub(crate) fn behind_body(number: u32, body: &Body) -> Result<u32, OutOfMemory>
    ensures { IfOk result (λ n. n ≡ number + suc (body_size (body_view body.now))) }
{
    let first = next(number)?;
    match body {
        Body::Assign(entries) => behind_entries(first, entries.items()),
        Body::Switch(arms) => behind_arms(first, arms),
        Body::For(repeated) => behind_steps(first, &repeated.steps),
        Body::Parallel(parallel) => match &parallel.work {
            Work::Branches(branches) => behind_branches(first, branches),
            Work::Loop(repeated) => behind_steps(first, &repeated.steps),
        },
        Body::Block(steps) => behind_steps(first, steps),
        Body::Try(tried) => behind_try(first, tried),
        Body::Nothing | Body::Call(_) | Body::Raise(_) | Body::Return(_) => Ok(first),
    }
}

/// The number behind entries.
fn behind_entries(first: u32, entries: &[Entry]) -> Result<u32, OutOfMemory>
    ensures { IfOk result (λ n. n ≡ first + entries_size (map entry_view entries.now)) }
{
    let Ok(count) = u32::try_from(entries.len()) else {
        return Err(OutOfMemory);
    };
    match first.checked_add(count) {
        Some(number) => Ok(number),
        None => Err(OutOfMemory),
    }
}

#[cycle(sizes)]
fn behind_arms(first: u32, arms: &Arms) -> Result<u32, OutOfMemory>
    ensures { IfOk result (λ n. n ≡ first + arms_size (arms_in arms.now)) }
{
    let mut number = first;
    for arm in arms.items() {
        number = behind_body(next(number)?, &arm.body)?;
    }
    Ok(number)
}

#[cycle(sizes)]
fn behind_branches(first: u32, branches: &Branches) -> Result<u32, OutOfMemory>
    ensures { IfOk result (λ n. n ≡ first + branches_size (branches_in branches.now)) }
{
    let mut number = first;
    for branch in branches.items() {
        number = behind_steps(next(number)?, &branch.steps)?;
    }
    Ok(number)
}

#[cycle(sizes)]
fn behind_try(first: u32, tried: &TryBody) -> Result<u32, OutOfMemory>
    ensures { IfOk result (λ n. n ≡ first + try_size (try_view tried.now)) }
{
    let number = behind_body(first, &tried.body)?;
    match &tried.except {
        None => Ok(number),
        Some(except) => behind_steps(number, &except.steps),
    }
}
