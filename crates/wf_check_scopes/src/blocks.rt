// The rules of blocks: empty lists, names that stand twice, jumps and returns.
ghost use Rattle.std.specs.Prelude.{◌≡◌};
ghost use Rattle.wf_ast.specs.Blocks as rules;
ghost use Rattle.wf_ast.specs.Nodes.{part_body};
ghost use Rattle.wf_ast.specs.View.{body_view, steps_in};
ghost use Rattle.wf_check_scopes.specs.Jumps.{branch_view, out_of_scope_said, outside_loop_said, return_said, scopes_view, unknown_step_said};
ghost use Rattle.wf_diagnostics.specs.Answers.{IsRuleFault};
ghost use Rattle.wf_symbols.specs.Around.{inside_view, reach};
ghost use Rattle.wf_symbols.specs.Names.{names_of};
ghost use Rattle.wf_diagnostics.specs.Parts.{names_before, part_view};
ghost use Rattle.wf_value.specs.HttpRequest.{is_among};
ghost use Rattle.wf_diagnostics.specs.Said.{as_said};
ghost use Rattle.wf_diagnostics.specs.declared.kind.CheckKind.TheVariants as kinds;

use std::alloc::Global;
use wf_ast::{Body, Branch, StepList, Work};
use wf_diagnostics::{CheckKind, Part, Stop, next_of, speak, speak_at, speak_deep, speak_within};
use wf_symbols::{Block, Inside, Names, Scopes};

// ---- empty lists

fn is_empty(steps: &StepList) -> bool
    ensures { result ≡ rules.has_no_steps (steps_in steps.now) }
{
    steps.items().is_empty()
}

fn empty_body(alloc: Global, body: &Body) -> Result<(), Stop>
    ensures { IsRuleFault result (λ path. as_said kinds.EmptySteps
        (rules.body_empty (body_view body.now) path)) }
{
    let kind = CheckKind::EmptySteps;
    match body {
        Body::Block(steps) => speak_at(alloc, kind, is_empty(steps), "steps"),
        Body::For(repeated) => speak_within(alloc, kind, is_empty(&repeated.steps), "for", "steps"),
        Body::Parallel(parallel) => match &parallel.work {
            Work::Branches(branches) => speak_within(
                alloc,
                kind,
                branches.items().is_empty(),
                "parallel",
                "branches",
            ),
            Work::Loop(repeated) => speak_deep(
                alloc,
                kind,
                is_empty(&repeated.steps),
                "parallel",
                "for",
                "steps",
            ),
        },
        Body::Try(tried) => match &tried.except {
            None => Ok(()),
            Some(except) => speak_within(alloc, kind, is_empty(&except.steps), "except", "steps"),
        },
        _ => Ok(()),
    }
}

/// A list of steps, or of branches, has no item.
pub fn empty(alloc: Global, part: &Part) -> Result<(), Stop>
    ensures { IsRuleFault result (λ path. as_said kinds.EmptySteps
        (rules.rule_empty (part_view part.now) path)) }
{
    let kind = CheckKind::EmptySteps;
    match part {
        Part::Flow(flow) => speak_at(alloc, kind, is_empty(&flow.steps), "steps"),
        Part::Step(step) => empty_body(alloc, &step.body),
        Part::Body(body) => empty_body(alloc, body),
        Part::Branch(_, branch) => speak_at(alloc, kind, is_empty(&branch.steps), "steps"),
        Part::Arm(_) | Part::Entry(_) => Ok(()),
    }
}

// ---- names that stand twice

fn is_named(branches: &[Branch], name: &str) -> bool
    ensures { result ≡ is_among name.now (names_before branches.now) }
{
    for branch in branches {
        if name == branch.name.as_str() {
            return true;
        }
    }
    false
}

/// A step's name stands earlier in its workflow, or a branch's earlier in its step.
pub fn double(alloc: Global, part: &Part, earlier: &Names) -> Result<(), Stop>
    ensures { IsRuleFault result (λ path. as_said kinds.DoubleStep
        (rules.rule_double (names_of earlier.now) (part_view part.now) path)) }
{
    let kind = CheckKind::DoubleStep;
    match part {
        Part::Step(step) => speak(alloc, kind, earlier.has(step.name.as_str())),
        Part::Branch(before, branch) => speak(alloc, kind, is_named(before, branch.name.as_str())),
        _ => Ok(()),
    }
}

// ---- jumps and returns

fn is_word(name: &str) -> bool
    ensures { result ≡ rules.is_word name.now }
{
    name == "end" || name == "break" || name == "continue"
}

fn is_in_reach(name: &str, blocks: &[Block]) -> bool
    ensures { result ≡ rules.in_blocks name.now (reach blocks.now) }
{
    for block in blocks {
        if block.names.has(name) {
            return true;
        }
        if block.is_closed {
            return false;
        }
    }
    false
}

/// A `next` names no step of its workflow.
pub fn unknown_step(alloc: Global, part: &Part, scopes: &Scopes) -> Result<(), Stop>
    ensures { IsRuleFault result (unknown_step_said (scopes_view scopes.now) (part_view part.now)) }
{
    let Some(name) = next_of(part) else {
        return Ok(());
    };
    let name = name.as_str();
    let speaks = !is_word(name) && !scopes.workflow.has(name);
    speak_at(alloc, CheckKind::UnknownStep, speaks, "next")
}

/// A `next` names a step that no jump from there reaches.
pub fn out_of_scope(alloc: Global, part: &Part, scopes: &Scopes) -> Result<(), Stop>
    ensures { IsRuleFault result (out_of_scope_said (scopes_view scopes.now) (part_view part.now)) }
{
    let Some(name) = next_of(part) else {
        return Ok(());
    };
    let name = name.as_str();
    let speaks = !is_word(name)
        && scopes.workflow.has(name)
        && !is_in_reach(name, scopes.blocks.as_slice());
    speak_at(alloc, CheckKind::JumpOutOfScope, speaks, "next")
}

fn is_outside_loop(inside: Inside, name: &str) -> bool
    ensures { result ≡ rules.outside_loop (inside_view inside) name.now }
{
    match inside {
        Inside::NoLoop => name == "break" || name == "continue",
        Inside::InLoop => false,
        Inside::InParallelLoop => name == "break",
    }
}

/// A `break` or a `continue` has no loop to act on.
pub fn outside_loop(alloc: Global, part: &Part, inside: Inside) -> Result<(), Stop>
    ensures { IsRuleFault result (outside_loop_said (inside_view inside) (part_view part.now)) }
{
    let Some(name) = next_of(part) else {
        return Ok(());
    };
    let speaks = is_outside_loop(inside, name.as_str());
    speak_at(alloc, CheckKind::BreakOutsideLoop, speaks, "next")
}

fn is_return(part: &Part) -> bool
    ensures { result ≡ rules.is_return (part_body (part_view part.now)) }
{
    match part {
        Part::Step(step) => matches!(&step.body, Body::Return(_)),
        Part::Body(body) => matches!(*body, Body::Return(_)),
        _ => false,
    }
}

/// A branch, or the body of a parallel loop, would end the workflow.
pub fn return_in_branch(alloc: Global, part: &Part, in_branch: bool) -> Result<(), Stop>
    ensures { IsRuleFault result (return_said (branch_view in_branch) (part_view part.now)) }
{
    let kind = CheckKind::ReturnInBranch;
    match speak_at(alloc, kind, in_branch && is_return(part), "return") {
        Ok(()) => {}
        Err(stop) => return Err(stop),
    }
    let Some(name) = next_of(part) else {
        return Ok(());
    };
    speak_at(alloc, kind, in_branch && name.as_str() == "end", "next")
}
