// The move of the innermost frame.
ghost use Rattle.std.specs.Prelude.{◌≡◌, IfOk, OnOk};
ghost use Rattle.wf_frames.specs.Foreseen.{Foresees};
ghost use Rattle.wf_frames.specs.Frames.{inner};
ghost use Rattle.wf_frames.specs.Owned.{Around, control_of, held_by};
ghost use Rattle.wf_frames.specs.Stands.{Stands};
ghost use Rattle.wf_moves.specs.Moved.{GoesNext};
ghost use Rattle.wf_moves.specs.Stepped.{leads, leads_to, stepped_at};
ghost use Rattle.wf_moves.specs.Tasks.{DoesBy, IsLeftSo};
ghost use Rattle.wf_frames.specs.Built.{AreTargets, IsTableOf};
ghost use Rattle.wf_frames.specs.Steps.{AreFit, HasStepOnTop, IsReady};

use crate::assign::assign;
use crate::back::returns;
use crate::call::call;
use crate::finish::{Done, Turned, done_of, goes, turns};
use crate::forking::fork;
use crate::jump::jump;
use crate::sending::Sending;
use crate::turn::turn;
use std::alloc::Global;
use wf_frames::{Facts, Frames, Leads, Next, Step, Target, seen, step_of};
use wf_model::Node;
use wf_scope::Scopes;
use wf_value::{OutOfMemory, Value};

/// What is left of a step that has a value at hand. It stands apart from what every move runs.
#[cold]
#[inline(never)]
fn finish_with(
    alloc: Global,
    nodes: &[Node],
    targets: &[Target],
    by: Leads,
    frames: &mut Frames,
    scopes: &mut Scopes,
    facts: &Facts,
    sending: &Sending,
) -> Result<Done, OutOfMemory>
    ghost around: { Around }
    requires tells { IsTableOf around.spots nodes.now }
    requires targets { AreTargets around.flows around.spots nodes.now targets.now }
    requires stands { Stands around nodes.now frames.old scopes.old }
    requires fit { AreFit nodes.now by }
    ensures moved { IfOk result (λ d. DoesBy around facts.entry.now sending.now
        (λ s l. leads_to around.spots by s (control_of around frames.old) l)
        (held_by around frames.old scopes.old) d frames.new scopes.new) }
    ensures stands { OnOk result (Stands around nodes.now frames.new scopes.new) }
    ensures left { IfOk result (λ d. IsLeftSo nodes.now d frames.new) }
{
    match by {
        Leads::Raises(error) => Ok(done_of(turns(alloc, Turned::Raises(error))?)),
        Leads::Returns(value) => Ok(done_of(returns(alloc, nodes, frames, scopes, value)?)),
        Leads::Calls(n, args) => call(
            alloc, nodes, targets, n, &args, frames, scopes, facts, sending,
        ),
        Leads::Forks(n) => fork(alloc, nodes, n, frames, scopes, facts),
    }
}

/// What is left of a step, beside its frames.
#[inline(always)]
fn finish_step(
    alloc: Global,
    nodes: &[Node],
    targets: &[Target],
    step: Step,
    frames: &mut Frames,
    scopes: &mut Scopes,
    facts: &Facts,
    sending: &Sending,
) -> Result<Done, OutOfMemory>
    ghost around: { Around }
    requires tells { IsTableOf around.spots nodes.now }
    requires targets { AreTargets around.flows around.spots nodes.now targets.now }
    requires stands { Stands around nodes.now frames.old scopes.old }
    requires ready { IsReady around.spots nodes.now (inner frames.old) step }
    ensures moved { IfOk result (λ d. DoesBy around facts.entry.now sending.now
        (λ s l. leads around.spots step s (control_of around frames.old) l)
        (held_by around frames.old scopes.old) d frames.new scopes.new) }
    ensures stands { OnOk result (Stands around nodes.now frames.new scopes.new) }
    ensures left { IfOk result (λ d. IsLeftSo nodes.now d frames.new) }
{
    match step {
        Step::Goes => Ok(done_of(goes(frames, nodes, scopes))),
        Step::Jumps(n) => Ok(done_of(jump(alloc, frames, nodes, scopes, n)?)),
        Step::Assigns(n) => Ok(done_of(assign(alloc, nodes, n, frames, scopes, facts)?)),
        Step::Leads(leads) => {
            let by = Box::into_inner(leads);
            finish_with(alloc, nodes, targets, by, frames, scopes, facts, sending)
        }
    }
}

/// The move of a task that stands neither at the end of a workflow that was called nor before a loop's turn.
#[inline(always)]
fn step_on(
    alloc: Global,
    nodes: &[Node],
    targets: &[Target],
    frames: &mut Frames,
    scopes: &mut Scopes,
    facts: &Facts,
    sending: &Sending,
) -> Result<Done, OutOfMemory>
    ghost around: { Around }
    requires tells { IsTableOf around.spots nodes.now }
    requires targets { AreTargets around.flows around.spots nodes.now targets.now }
    requires stands { Stands around nodes.now frames.old scopes.old }
    requires step { HasStepOnTop nodes.now (inner frames.old) }
    requires next { Foresees nodes.now frames.old }
    ensures moved { IfOk result (λ d. DoesBy around facts.entry.now sending.now
        (λ s l. stepped_at s (control_of around frames.old) l)
        (held_by around frames.old scopes.old) d frames.new scopes.new) }
    ensures stands { OnOk result (Stands around nodes.now frames.new scopes.new) }
    ensures left { IfOk result (λ d. IsLeftSo nodes.now d frames.new) }
{
    let look = seen(frames, scopes, facts);
    let step = step_of(alloc, nodes, frames, &look, facts.now)?;
    finish_step(alloc, nodes, targets, step, frames, scopes, facts, sending)
}

/// The move of a task, or its request. The end of a workflow that was called is a return of null.
#[inline(always)]
pub(crate) fn advance(
    alloc: Global,
    nodes: &[Node],
    targets: &[Target],
    frames: &mut Frames,
    scopes: &mut Scopes,
    facts: &Facts,
    sending: &Sending,
) -> Result<Done, OutOfMemory>
    ghost around: { Around }
    requires tells { IsTableOf around.spots nodes.now }
    requires targets { AreTargets around.flows around.spots nodes.now targets.now }
    requires stands { Stands around nodes.now frames.old scopes.old }
    requires going { GoesNext nodes.now frames.old }
    ensures moved { IfOk result (λ d. DoesBy around facts.entry.now sending.now
        (λ s l. stepped_at s (control_of around frames.old) l)
        (held_by around frames.old scopes.old) d frames.new scopes.new) }
    ensures stands { OnOk result (Stands around nodes.now frames.new scopes.new) }
    ensures left { IfOk result (λ d. IsLeftSo nodes.now d frames.new) }
{
    match frames.next() {
        Next::Back => Ok(done_of(returns(alloc, nodes, frames, scopes, Value::Null)?)),
        Next::Loop => Ok(done_of(turn(alloc, nodes, frames, scopes)?)),
        _ => step_on(alloc, nodes, targets, frames, scopes, facts, sending),
    }
}
