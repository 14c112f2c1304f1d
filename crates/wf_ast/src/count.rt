//! How many steps a program has.
ghost use Rattle.std.specs.Prelude.{◌≡◌, length, min};
ghost use Rattle.wf_ast.specs.Nodes.{all_step_names, arms_step_names, body_step_names, branches_step_names, step_names, try_step_names};
ghost use Rattle.wf_ast.specs.View.{arms_in, body_view, branches_in, program_view, steps_in, try_view};

use crate::body::{Arms, Body, Branches, StepList, TryBody, Work};
use crate::program::Program;

impl Program {
    /// How many named steps the program has on all levels, at most the greatest `u64`.
    pub fn step_count(&self) -> u64
        ensures { result ≡ min (length (all_step_names (program_view self.now).flows))
            18446744073709551615 }
    {
        let mut total = 0u64;
        for flow in self.flows.items() {
            total = total.saturating_add(count_steps(&flow.steps));
        }
        total
    }
}

#[cycle(count)]
fn count_steps(steps: &StepList) -> u64
    ensures { result ≡ min (length (step_names (steps_in steps.now))) 18446744073709551615 }
{
    let mut total = 0u64;
    for step in steps.items.as_slice() {
        total = total
            .saturating_add(1)
            .saturating_add(count_body(&step.body));
    }
    total
}

#[cycle(count)]
fn count_body(body: &Body) -> u64
    ensures { result ≡ min (length (body_step_names (body_view body.now))) 18446744073709551615 }
{
    match body {
        Body::Switch(arms) => count_arms(arms),
        Body::For(repeated) => count_steps(&repeated.steps),
        Body::Parallel(parallel) => match &parallel.work {
            Work::Branches(branches) => count_branches(branches),
            Work::Loop(repeated) => count_steps(&repeated.steps),
        },
        Body::Block(steps) => count_steps(steps),
        Body::Try(tried) => count_try(tried),
        Body::Nothing | Body::Assign(_) | Body::Call(_) | Body::Raise(_) | Body::Return(_) => 0,
    }
}

#[cycle(count)]
fn count_arms(arms: &Arms) -> u64
    ensures { result ≡ min (length (arms_step_names (arms_in arms.now))) 18446744073709551615 }
{
    let mut total = 0u64;
    for arm in arms.items.as_slice() {
        total = total.saturating_add(count_body(&arm.body));
    }
    total
}

#[cycle(count)]
fn count_branches(branches: &Branches) -> u64
    ensures { result ≡ min (length (branches_step_names (branches_in branches.now)))
        18446744073709551615 }
{
    let mut total = 0u64;
    for branch in branches.items.as_slice() {
        total = total.saturating_add(count_steps(&branch.steps));
    }
    total
}

#[cycle(count)]
fn count_try(tried: &TryBody) -> u64
    ensures { result ≡ min (length (try_step_names (try_view tried.now))) 18446744073709551615 }
{
    let body = count_body(&tried.body);
    match &tried.except {
        None => body,
        Some(except) => body.saturating_add(count_steps(&except.steps)),
    }
}
