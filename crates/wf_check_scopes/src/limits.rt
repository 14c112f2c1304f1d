// The rule of limits.
ghost use Rattle.std.specs.Prelude.{◌≡◌, ◌<◌, ◌&&◌, OnOk, bytes_eq, codes, length, map, nat_lt};
ghost use Rattle.wf_ast.specs.Accept as rules;
ghost use Rattle.wf_ast.specs.View.{body_view, flow_view, loop_view, param_view, params_view};
ghost use Rattle.wf_ast.specs.Nodes.{StepPart};
ghost use Rattle.wf_diagnostics.specs.Answers.{IsRuleFault};
ghost use Rattle.wf_diagnostics.specs.Parts.{part_view};
ghost use Rattle.wf_diagnostics.specs.Said.{as_said};
ghost use Rattle.wf_diagnostics.specs.declared.kind.CheckKind.TheVariants as kinds;

use std::alloc::Global;
use wf_ast::{Body, Flow, LoopBody, Param, Step, Work};
use wf_diagnostics::{CheckKind, Part, Stop, keyed, speak, speak_at, speak_within};
use wf_value::Text;

/// A name has more than 256 bytes.
fn is_long(name: &Text) -> bool
    ensures { result ≡ nat_lt 256 (length name.now) }
{
    name.as_str().len() > 256
}

fn many_in_loop(alloc: Global, repeated: &LoopBody) -> Result<(), Stop>
    ensures { IsRuleFault result (λ path. as_said kinds.TooMany
        (rules.loop_many (loop_view repeated.now) path)) }
{
    let kind = CheckKind::TooMany;
    if let Some(index) = &repeated.index {
        match speak_at(alloc, kind, is_long(index), "index") {
            Ok(()) => {}
            Err(stop) => return Err(stop),
        }
    }
    speak_at(alloc, kind, is_long(&repeated.value), "value")
}

fn many_in_body(alloc: Global, body: &Body) -> Result<(), Stop>
    ensures { IsRuleFault result (λ path. as_said kinds.TooMany
        (rules.body_many (body_view body.now) path)) }
{
    let kind = CheckKind::TooMany;
    match body {
        Body::Assign(entries) => speak_at(alloc, kind, entries.items().len() > 50, "assign"),
        Body::Call(call) => match &call.result {
            None => Ok(()),
            Some(name) => speak_at(alloc, kind, is_long(name), "result"),
        },
        Body::Switch(arms) => speak_at(alloc, kind, arms.items().len() > 50, "switch"),
        Body::For(repeated) => {
            let found = many_in_loop(alloc, repeated);
            keyed(alloc, "for", found)
        }
        Body::Parallel(parallel) => match &parallel.work {
            Work::Branches(branches) => {
                let speaks = branches.items().len() > 10;
                speak_within(alloc, kind, speaks, "parallel", "branches")
            }
            Work::Loop(repeated) => {
                let found = many_in_loop(alloc, repeated);
                let found = keyed(alloc, "for", found);
                keyed(alloc, "parallel", found)
            }
        },
        Body::Try(tried) => match &tried.except {
            None => Ok(()),
            Some(except) => speak_within(alloc, kind, is_long(&except.name), "except", "as"),
        },
        Body::Nothing => Ok(()),
        Body::Block(_) => Ok(()),
        Body::Raise(_) => Ok(()),
        Body::Return(_) => Ok(()),
    }
}

/// The parameters of a workflow.
fn many_params(alloc: Global, params: &[Param]) -> Result<(), Stop>
    ensures { IsRuleFault result (λ path. as_said kinds.TooMany
        (rules.params_many (map param_view params.now) path 0)) }
{
    'each: for index in 0..params.len() {
        if is_long(&params[index].name) {
            return Err(Stop::here(alloc, CheckKind::TooMany).at_index(index));
        }
    }
    Ok(())
}

/// It is `main`, and has more than one parameter.
fn has_too_many(flow: &Flow) -> bool
    ensures { result ≡ (bytes_eq flow.now.name (codes "main") && nat_lt 1
        (length (params_view flow.now.params))) }
{
    flow.name.as_str() == "main" && flow.params.items().len() > 1
}

fn many_in_flow(alloc: Global, flow: &Flow) -> Result<(), Stop>
    ensures { IsRuleFault result (λ path. as_said kinds.TooMany
        (rules.flow_many (flow_view flow.now) path)) }
{
    let kind = CheckKind::TooMany;
    let params = flow.params.items();
    match speak(alloc, kind, is_long(&flow.name)) {
        Ok(()) => {}
        Err(stop) => return Err(stop),
    }
    match speak_at(alloc, kind, has_too_many(flow), "params") {
        Ok(()) => {}
        Err(stop) => return Err(stop),
    }
    let found = many_params(alloc, params);
    keyed(alloc, "params", found)
}

fn many_in_step(alloc: Global, step: &Step) -> Result<(), Stop>
    ensures { IsRuleFault result (λ path. as_said kinds.TooMany
        (rules.part_many (StepPart step.now.name (body_view step.now.body) step.now.next) path)) }
{
    match speak(alloc, CheckKind::TooMany, is_long(&step.name)) {
        Ok(()) => {}
        Err(stop) => return Err(stop),
    }
    many_in_body(alloc, &step.body)
}

fn many_in_part(alloc: Global, part: &Part) -> Result<(), Stop>
    ensures { IsRuleFault result (λ path. as_said kinds.TooMany
        (rules.part_many (part_view part.now) path)) }
{
    match part {
        Part::Flow(flow) => many_in_flow(alloc, flow),
        Part::Step(step) => many_in_step(alloc, step),
        Part::Arm(_) => Ok(()),
        Part::Body(body) => many_in_body(alloc, body),
        Part::Entry(entry) => speak(alloc, CheckKind::TooMany, is_long(&entry.target.name)),
        Part::Branch(_, _) => Ok(()),
    }
}

/// A limit is passed, or this is the first node past 1,000,000.
pub fn too_many(alloc: Global, part: &Part, number: u64) -> Result<(), Stop>
    ensures fault { IsRuleFault result (λ path. as_said kinds.TooMany
        (rules.rule_many number (part_view part.now) path)) }
    ensures few { OnOk result (number < 1000000) }
{
    match many_in_part(alloc, part) {
        Ok(()) => {}
        Err(stop) => return Err(stop),
    }
    speak(alloc, CheckKind::TooMany, number >= 1_000_000)
}
