// Tables of names: of steps, parameters, loops and texts, and those that are assigned.
ghost use Rattle.std.specs.Prelude.{◌≡◌, ◌||◌, IfOk, OnOk};
ghost use Rattle.wf_ast.specs.Blocks.{has_step};
ghost use Rattle.wf_ast.specs.Nodes.{arms_assigned, arms_step_names, assigned, body_assigned, body_step_names, branches_step_names, param_names, step_names, try_step_names};
ghost use Rattle.wf_ast.specs.View.{arms_in, body_view, branches_in, loop_view, params_view, steps_in, texts_view, try_view};
ghost use Rattle.wf_symbols.specs.Around.{SameNames, binds_of};
ghost use Rattle.wf_symbols.specs.Names.{names_of, Adds};
ghost use Rattle.wf_value.specs.HttpRequest.{is_among};
ghost use Rattle.wf_value.specs.Pairs.{Text as Bytes};

use crate::names::Names;
use std::alloc::Global;
use wf_ast::{Arms, Body, Branches, LoopBody, Params, StepList, Texts, TryBody, Work};
use wf_value::OutOfMemory;

/// The names of a block's own steps.
pub(crate) fn own_names(alloc: Global, steps: &StepList) -> Result<Names, OutOfMemory>
    ensures { IfOk result (λ names. (x : Bytes)
        → is_among x (names_of names) ≡ has_step x (steps_in steps.now)) }
{
    let mut names = Names::new(alloc);
    for step in steps.items() {
        names.add(step.name.as_str())?;
    }
    Ok(names)
}

/// The names that a loop binds: its value, and its index if it has one.
pub fn loop_names(alloc: Global, repeated: &LoopBody) -> Result<Names, OutOfMemory>
    ensures { IfOk result (λ names. SameNames (names_of names)
        (binds_of (loop_view repeated.now))) }
{
    let mut names = Names::new(alloc);
    names.add(repeated.value.as_str())?;
    match &repeated.index {
        None => Ok(names),
        Some(index) => {
            names.add(index.as_str())?;
            Ok(names)
        }
    }
}

/// The names of parameters.
pub fn param_names(alloc: Global, params: &Params) -> Result<Names, OutOfMemory>
    ensures { IfOk result (λ names. SameNames (names_of names)
        (param_names (params_view params.now))) }
{
    let mut names = Names::new(alloc);
    for param in params.items() {
        names.add(param.name.as_str())?;
    }
    Ok(names)
}

/// The texts of a list.
pub fn text_names(alloc: Global, texts: &Texts) -> Result<Names, OutOfMemory>
    ensures { IfOk result (λ names. SameNames (names_of names) (texts_view texts.now)) }
{
    let mut names = Names::new(alloc);
    for text in texts.items() {
        names.add(text.as_str())?;
    }
    Ok(names)
}

/// Adds every step's name in a list of steps, at all levels. Without memory some may be added.
#[cycle(names)]
pub fn add_step_names(names: &mut Names, steps: &StepList) -> Result<(), OutOfMemory>
    ensures { OnOk result (Adds names.old names.new (step_names (steps_in steps.now))) }
{
    for step in steps.items() {
        names.add(step.name.as_str())?;
        add_body_names(names, &step.body)?;
    }
    Ok(())
}

#[cycle(names)]
fn add_body_names(names: &mut Names, body: &Body) -> Result<(), OutOfMemory>
    ensures { OnOk result (Adds names.old names.new (body_step_names (body_view body.now))) }
{
    match body {
        Body::Switch(arms) => add_arms_names(names, arms),
        Body::For(repeated) => add_step_names(names, &repeated.steps),
        Body::Parallel(parallel) => match &parallel.work {
            Work::Branches(branches) => add_branches_names(names, branches),
            Work::Loop(repeated) => add_step_names(names, &repeated.steps),
        },
        Body::Block(steps) => add_step_names(names, steps),
        Body::Try(tried) => add_try_names(names, tried),
        Body::Nothing | Body::Assign(_) | Body::Call(_) | Body::Raise(_) | Body::Return(_) => {
            Ok(())
        }
    }
}

#[cycle(names)]
fn add_arms_names(names: &mut Names, arms: &Arms) -> Result<(), OutOfMemory>
    ensures { OnOk result (Adds names.old names.new (arms_step_names (arms_in arms.now))) }
{
    for arm in arms.items() {
        add_body_names(names, &arm.body)?;
    }
    Ok(())
}

#[cycle(names)]
fn add_branches_names(names: &mut Names, branches: &Branches) -> Result<(), OutOfMemory>
    ensures { OnOk result (Adds names.old names.new
        (branches_step_names (branches_in branches.now))) }
{
    for branch in branches.items() {
        add_step_names(names, &branch.steps)?;
    }
    Ok(())
}

#[cycle(names)]
fn add_try_names(names: &mut Names, tried: &TryBody) -> Result<(), OutOfMemory>
    ensures { OnOk result (Adds names.old names.new (try_step_names (try_view tried.now))) }
{
    add_body_names(names, &tried.body)?;
    match &tried.except {
        None => Ok(()),
        Some(except) => {
            add_step_names(names, &except.steps)?;
            Ok(())
        }
    }
}

/// Adds the names that a list of steps assigns in the layer in which it stands.
#[cycle(assigned)]
pub(crate) fn add_assigned(names: &mut Names, steps: &StepList) -> Result<(), OutOfMemory>
    ensures { OnOk result (Adds names.old names.new (assigned (steps_in steps.now))) }
{
    for step in steps.items() {
        add_body_assigned(names, &step.body)?;
    }
    Ok(())
}

#[cycle(assigned)]
fn add_body_assigned(names: &mut Names, body: &Body) -> Result<(), OutOfMemory>
    ensures { OnOk result (Adds names.old names.new (body_assigned (body_view body.now))) }
{
    match body {
        Body::Assign(entries) => {
            for entry in entries.items() {
                names.add(entry.target.name.as_str())?;
            }
            Ok(())
        }
        Body::Call(call) => match &call.result {
            None => Ok(()),
            Some(name) => names.add(name.as_str()),
        },
        Body::Switch(arms) => add_arms_assigned(names, arms),
        Body::Block(steps) => add_assigned(names, steps),
        Body::Try(tried) => add_body_assigned(names, &tried.body),
        Body::Nothing | Body::For(_) | Body::Parallel(_) | Body::Raise(_) | Body::Return(_) => {
            Ok(())
        }
    }
}

#[cycle(assigned)]
fn add_arms_assigned(names: &mut Names, arms: &Arms) -> Result<(), OutOfMemory>
    ensures { OnOk result (Adds names.old names.new (arms_assigned (arms_in arms.now))) }
{
    for arm in arms.items() {
        add_body_assigned(names, &arm.body)?;
    }
    Ok(())
}
