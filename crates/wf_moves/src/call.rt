// Calls of workflows and functions.
ghost use Rattle.std.specs.Prelude.{◌≤◌, IfOk, OnOk, Some};
ghost use Rattle.wf_frames.specs.Fits.{IsCall};
ghost use Rattle.wf_frames.specs.Bound.{bindings_of};
ghost use Rattle.wf_frames.specs.Frames.{body_result};
ghost use Rattle.wf_frames.specs.Owned.{Around, control_of, held_by};
ghost use Rattle.wf_frames.specs.Stands.{Stands};
ghost use Rattle.wf_model.specs.Calls as calls;
ghost use Rattle.wf_moves.specs.Moved.{IsLeft, MovesBy, SeesBy};
ghost use Rattle.wf_moves.specs.Tasks.{DoesBy, IsFlow, IsLeftSo, Names, flow_at};
ghost use Rattle.wf_model.specs.Spots.{part_at, part_body};
ghost use Rattle.wf_model.specs.declared.node.CallNode as call_node;
ghost use Rattle.wf_frames.specs.Built.{AreTargets, IsFunction, IsWorkflow, IsTableOf};
ghost use Rattle.wf_moves.specs.Stepped.{leads_with};
ghost use Rattle.wf_frames.specs.Steps.{calls_by};
ghost use Rattle.wf_value.specs.Data.{pairs_depth, pairs_of};

use crate::back::give;
use crate::finish::{Done, Went, done_of, goes};
use crate::logging::logs;
use crate::raising::{fails, raises_tag};
use crate::sending::{Sending, sends};
use crate::sleeping::sleeps;
use crate::start::params;
use std::alloc::Global;
use wf_ast::Function;
use wf_frames::{Bindings, Facts, Frame, Frames, Target, call_function, enter_call, seen};
use wf_model::Node;
use wf_scope::Scopes;
use wf_value::{Map, OutOfMemory, Tag};

/// How many calls of workflows may stand in each other.
pub(crate) const CALL_LIMIT: usize = 20;

/// The call of a step begins the workflow of this number, with its parameters in a layer of their own.
fn begin(
    alloc: Global,
    nodes: &[Node],
    n: u32,
    flow: u32,
    bindings: Bindings,
    frames: &mut Frames,
    scopes: &mut Scopes,
) -> Result<Went, OutOfMemory>
    ghost around: { Around }
    requires tells { IsTableOf around.spots nodes.now }
    requires stands { Stands around nodes.now frames.old scopes.old }
    requires call { (f : call_node.CallNode) × IsCall nodes.now n f }
    requires flow { IsFlow nodes.now flow }
    ensures moved { IfOk result (λ w. MovesBy around
        (λ s l. calls.calls_with s (flow_at (part_at around.spots flow))
        (body_result (part_body (part_at around.spots n))) (Some (bindings_of bindings))
        (control_of around frames.old) l)
        (held_by around frames.old scopes.old) w frames.new scopes.new) }
    ensures stands { OnOk result (Stands around nodes.now frames.new scopes.new) }
    ensures left { IfOk result (λ w. IsLeft nodes.now w frames.new) }
{
    if frames.calls() >= CALL_LIMIT {
        return raises_tag(alloc, Tag::RecursionError);
    }
    match enter_call(frames, scopes, bindings)? {
        Some(layer) => {
            frames.push(Frame::Back(Some(n), layer))?;
            frames.push(Frame::Do(flow, 0))?;
            Ok(goes(frames, nodes, scopes))
        }
        None => raises_tag(alloc, Tag::ResourceLimitError),
    }
}

/// The call of a workflow, with its arguments by their names. Where they don't fit its parameters nothing is done.
fn call_flow(
    alloc: Global,
    nodes: &[Node],
    n: u32,
    flow: u32,
    args: &Map,
    frames: &mut Frames,
    scopes: &mut Scopes,
) -> Result<Went, OutOfMemory>
    ghost around: { Around }
    requires tells { IsTableOf around.spots nodes.now }
    requires stands { Stands around nodes.now frames.old scopes.old }
    requires names { Names nodes.now n (IsWorkflow around.flows around.spots flow) }
    ensures moved { IfOk result (λ w. MovesBy around
        (λ s l. calls_by s (part_body (part_at around.spots n)) (pairs_of args.now)
        (control_of around frames.old) l)
        (held_by around frames.old scopes.old) w frames.new scopes.new) }
    ensures stands { OnOk result (Stands around nodes.now frames.new scopes.new) }
    ensures left { IfOk result (λ w. IsLeft nodes.now w frames.new) }
{
    match Bindings::given(alloc, params(nodes, flow), args)? {
        Some(bindings) => begin(alloc, nodes, n, flow, bindings, frames, scopes),
        None => Ok(goes(frames, nodes, scopes)),
    }
}

/// The call of a function, with its arguments by their names: its answer goes into the call's result.
fn evaluates(
    alloc: Global,
    nodes: &[Node],
    n: u32,
    function: &Function,
    args: &Map,
    frames: &mut Frames,
    scopes: &mut Scopes,
    facts: &Facts,
) -> Result<Went, OutOfMemory>
    ghost around: { Around }
    requires tells { IsTableOf around.spots nodes.now }
    requires stands { Stands around nodes.now frames.old scopes.old }
    requires names { Names nodes.now n (IsFunction around.flows function.now) }
    ensures moved { IfOk result (λ w. SeesBy around facts.entry.now
        (λ s l. calls_by s (part_body (part_at around.spots n)) (pairs_of args.now)
        (control_of around frames.old) l)
        (held_by around frames.old scopes.old) w frames.new scopes.new) }
    ensures stands { OnOk result (Stands around nodes.now frames.new scopes.new) }
    ensures left { IfOk result (λ w. IsLeft nodes.now w frames.new) }
{
    let look = seen(frames, scopes, facts);
    match call_function(alloc, function, args, &look, facts.now) {
        Ok(value) => give(alloc, nodes, Some(n), value, frames, scopes),
        Err(raise) => fails(alloc, raise),
    }
}

/// The call of a step, with its arguments. `targets` has what the call names at the call's own number.
pub(crate) fn call(
    alloc: Global,
    nodes: &[Node],
    targets: &[Target],
    n: u32,
    args: &Map,
    frames: &mut Frames,
    scopes: &mut Scopes,
    facts: &Facts,
    sending: &Sending,
) -> Result<Done, OutOfMemory>
    ghost around: { Around }
    requires tells { IsTableOf around.spots nodes.now }
    requires targets { AreTargets around.flows around.spots nodes.now targets.now }
    requires stands { Stands around nodes.now frames.old scopes.old }
    requires call { (f : call_node.CallNode) × IsCall nodes.now n f }
    requires shallow { pairs_depth (pairs_of args.now) ≤ 100 }
    ensures moved { IfOk result (λ d. DoesBy around facts.entry.now sending.now
        (λ s l. leads_with s (part_body (part_at around.spots n)) (pairs_of args.now)
        (control_of around frames.old) l)
        (held_by around frames.old scopes.old) d frames.new scopes.new) }
    ensures stands { OnOk result (Stands around nodes.now frames.new scopes.new) }
    ensures left { IfOk result (λ d. IsLeftSo nodes.now d frames.new) }
{
    let target = &targets[n as usize];
    match target {
        Target::Flow(flow) => Ok(done_of(call_flow(alloc, nodes, n, *flow, args, frames, scopes)?)),
        Target::Function(function) => Ok(done_of(evaluates(
            alloc, nodes, n, function, args, frames, scopes, facts,
        )?)),
        Target::Http(method) => sends(
            alloc, nodes, n, *method, args, frames, scopes, facts, sending,
        ),
        Target::Sleeps(nap) => sleeps(alloc, nodes, n, *nap, args, frames, scopes, facts),
        Target::Log => logs(alloc, nodes, n, args, frames, scopes, sending),
    }
}
