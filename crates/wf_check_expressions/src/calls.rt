// The rules of calls: what is called, and the arguments that it is given.
ghost use Rattle.std.specs.Prelude.{◌≡◌, IfOk, Some, map, option_map};
ghost use Rattle.wf_ast.specs.Accept as rules;
ghost use Rattle.wf_ast.specs.Flows.{flow as flow_of};
ghost use Rattle.wf_ast.specs.Nodes.{BodyPart};
ghost use Rattle.wf_ast.specs.Tree as tree;
ghost use Rattle.wf_ast.specs.View.{body_view, call_view, flow_view, try_view};
ghost use Rattle.wf_diagnostics.specs.Answers.{IsRuleFault};
ghost use Rattle.wf_diagnostics.specs.Parts.{part_view};
ghost use Rattle.wf_diagnostics.specs.Said.{as_said};
ghost use Rattle.wf_diagnostics.specs.declared.kind.CheckKind.TheVariants as kinds;

use crate::arguments::{flow_takes, function_takes};
use crate::signature::signature;
use std::alloc::Global;
use wf_ast::{Body, CallBody, Flow, Predicate, TryBody};
use wf_diagnostics::{CheckKind, Part, Stop, speak_at, speak_within};
use wf_value::{OutOfMemory, Text};

/// The workflow that a call of this name calls: the first that has it. None calls `main`.
pub fn flow_named<'a>(flows: &'a [Flow], name: &str) -> Option<&'a Flow>
    ensures { option_map (λ f. flow_view f.now) result
        ≡ flow_of (map flow_view flows.now) name.now }
{
    if name == "main" {
        return None;
    }
    for flow in flows {
        if flow.name.as_str() == name {
            return Some(flow);
        }
    }
    None
}

/// The name is of no workflow that may be called.
fn is_no_flow(flows: &[Flow], name: &str) -> bool
    ensures { result ≡ rules.no_flow (map flow_view flows.now) (Some name.now) }
{
    flow_named(flows, name).is_none()
}

/// The name is of no workflow and no function that may be called.
fn is_unknown(flows: &[Flow], name: &str) -> bool
    ensures { result ≡ rules.unknown_call (map flow_view flows.now) name.now }
{
    is_no_flow(flows, name) && signature(name).is_none()
}

/// The workflow that a retry asks.
fn predicate_of(tried: &TryBody) -> Option<&Text>
    ensures { option_map (λ x. x.now) result
        ≡ rules.predicate_of (tree.Body.Try (try_view tried.now)) }
{
    match &tried.policy {
        None => None,
        Some(policy) => match &policy.predicate {
            Predicate::Flow(name) => Some(name),
            _ => None,
        },
    }
}

fn unknown_in_body(alloc: Global, body: &Body, flows: &[Flow]) -> Result<(), Stop>
    ensures { IsRuleFault result (λ path. as_said kinds.UnknownCall
        (rules.rule_call (map flow_view flows.now) (BodyPart (body_view body.now)) path)) }
{
    let kind = CheckKind::UnknownCall;
    match body {
        Body::Call(call) => speak_at(alloc, kind, is_unknown(flows, call.name.as_str()), "call"),
        Body::Try(tried) => match predicate_of(tried) {
            None => Ok(()),
            Some(name) => {
                let speaks = is_no_flow(flows, name.as_str());
                speak_within(alloc, kind, speaks, "retry", "predicate")
            }
        },
        Body::Nothing => Ok(()),
        Body::Assign(_) => Ok(()),
        Body::Switch(_) => Ok(()),
        Body::For(_) => Ok(()),
        Body::Parallel(_) => Ok(()),
        Body::Block(_) => Ok(()),
        Body::Raise(_) => Ok(()),
        Body::Return(_) => Ok(()),
    }
}

/// A call names neither a workflow nor a function, or a retry asks what is no workflow.
pub fn unknown_call(alloc: Global, part: &Part, flows: &[Flow]) -> Result<(), Stop>
    ensures { IsRuleFault result (λ path. as_said kinds.UnknownCall
        (rules.rule_call (map flow_view flows.now) (part_view part.now) path)) }
{
    match part {
        Part::Flow(_) => Ok(()),
        Part::Step(step) => unknown_in_body(alloc, &step.body, flows),
        Part::Arm(_) => Ok(()),
        Part::Body(body) => unknown_in_body(alloc, body, flows),
        Part::Entry(_) => Ok(()),
        Part::Branch(_, _) => Ok(()),
    }
}

/// The arguments of a call fit what is called; a workflow comes before a function of its name.
fn call_fits(alloc: Global, call: &CallBody, flows: &[Flow]) -> Result<bool, OutOfMemory>
    ensures { IfOk result (λ b. b ≡ rules.call_fits (map flow_view flows.now)
        (call_view call.now)) }
{
    let name = call.name.as_str();
    let arguments = call.args.items();
    match flow_named(flows, name) {
        Some(flow) => flow_takes(alloc, flow, arguments),
        None => match signature(name) {
            Some(names) => Ok(function_takes(name, &names, arguments)),
            None => Ok(true),
        },
    }
}

/// The workflow that a retry asks has one parameter.
fn predicate_fits(flows: &[Flow], name: &str) -> bool
    ensures { result ≡ rules.predicate_fits (map flow_view flows.now) (Some name.now) }
{
    match flow_named(flows, name) {
        None => true,
        Some(flow) => matches!(flow.params.items(), [_]),
    }
}

fn bad_in_body(alloc: Global, body: &Body, flows: &[Flow]) -> Result<(), Stop>
    ensures { IsRuleFault result (λ path. as_said kinds.BadArgument
        (rules.rule_argument (map flow_view flows.now) (BodyPart (body_view body.now)) path)) }
{
    let kind = CheckKind::BadArgument;
    match body {
        Body::Call(call) => match call_fits(alloc, call, flows) {
            Ok(fits) => speak_at(alloc, kind, !fits, "args"),
            Err(_) => Err(Stop::OutOfMemory),
        },
        Body::Try(tried) => match predicate_of(tried) {
            None => Ok(()),
            Some(name) => {
                let speaks = !predicate_fits(flows, name.as_str());
                speak_within(alloc, kind, speaks, "retry", "predicate")
            }
        },
        Body::Nothing => Ok(()),
        Body::Assign(_) => Ok(()),
        Body::Switch(_) => Ok(()),
        Body::For(_) => Ok(()),
        Body::Parallel(_) => Ok(()),
        Body::Block(_) => Ok(()),
        Body::Raise(_) => Ok(()),
        Body::Return(_) => Ok(()),
    }
}

/// The arguments don't fit what is called.
pub fn bad_argument(alloc: Global, part: &Part, flows: &[Flow]) -> Result<(), Stop>
    ensures { IsRuleFault result (λ path. as_said kinds.BadArgument
        (rules.rule_argument (map flow_view flows.now) (part_view part.now) path)) }
{
    match part {
        Part::Flow(_) => Ok(()),
        Part::Step(step) => bad_in_body(alloc, &step.body, flows),
        Part::Arm(_) => Ok(()),
        Part::Body(body) => bad_in_body(alloc, body, flows),
        Part::Entry(_) => Ok(()),
        Part::Branch(_, _) => Ok(()),
    }
}
