// Where a move leads: its error goes outward, and so does what a predicate has said.
ghost use Rattle.std.specs.Prelude.{◌≡◌, ◌≤◌, IfOk, List, OnOk};
ghost use Rattle.wf_frames.specs.Frames.{inner};
ghost use Rattle.wf_frames.specs.Owned.{Around, beside, control_of, held_by, local_of};
ghost use Rattle.wf_frames.specs.Stands.{Stands};
ghost use Rattle.wf_frames.specs.Turns.{Agrees};
ghost use Rattle.wf_model.specs.Config.{Item};
ghost use Rattle.wf_model.specs.Leave.{returns};
ghost use Rattle.wf_model.specs.Local as local;
ghost use Rattle.wf_model.specs.Local.{Moved, Scene};
ghost use Rattle.wf_model.specs.Unwind.{unwind};
ghost use Rattle.wf_moves.specs.Moved.{IsJudgeTop, IsLeft, IsMove, IsTurned, IsTurnedLeft};
ghost use Rattle.wf_moves.specs.Retries.{IsAskedOn, IsLed, IsLedSo, LeadsBy};
ghost use Rattle.wf_frames.specs.Built.{AreTargets, IsTableOf};
ghost use Rattle.wf_value.specs.Data.{boolean, depth};
ghost use Rattle.wf_value.specs.Plain.{plain};

use crate::finish::{End, Turned, Went, settle};
use crate::judging::{Decided, decide, retry};
use crate::unwind::{Tried, leave_to_try, take};
use crate::wait::Wait;
use std::alloc::Global;
use wf_frames::{Frame, Frames, Judging, Target, leave};
use wf_model::Node;
use wf_scope::Scopes;
use wf_value::{OutOfMemory, Value};

/// Where a move leads: the task goes on, has ended, or waits.
#[derive(Drop)]
pub(crate) enum Led {
    Goes,
    Ended(End),
    Waits(Wait),
}

/// The task goes on behind what has ended, or has ended itself.
pub(crate) fn lead_on(frames: &mut Frames, nodes: &[Node], scopes: &mut Scopes) -> Led
    ghost around: { Around }
    requires tells { IsTableOf around.spots nodes.now }
    requires stands { Stands around nodes.now frames.old scopes.old }
    ensures stands { Stands around nodes.now frames.new scopes.new }
    ensures left { IsLedSo nodes.now result frames.new }
    ensures moved { (c : List Item)
        → IsLed around
        (local.goes (control_of around frames.old) (beside c around frames.old scopes.old))
        result (local_of around frames.new scopes.new) }
{
    settle(frames, nodes, scopes);
    match frames.top() {
        None => Led::Ended(End::Value(Value::Null)),
        Some(_) => Led::Goes,
    }
}

/// An error goes outward: to the nearest `try` that takes it or tries its body again, or out of the task.
fn outward(
    alloc: Global,
    nodes: &[Node],
    targets: &[Target],
    last: u64,
    frames: &mut Frames,
    scopes: &mut Scopes,
    error: Value,
) -> Result<Led, OutOfMemory>
    ghost around: { Around }
    requires tells { IsTableOf around.spots nodes.now }
    requires targets { AreTargets around.flows around.spots nodes.now targets.now }
    requires stands { Stands around nodes.now frames.old scopes.old }
    requires shallow { depth (plain error) ≤ 100 }
    ensures moved { IfOk result (λ d. LeadsBy around last
        (λ s l. unwind s (control_of around frames.old) l (plain error))
        (held_by around frames.old scopes.old) d frames.new scopes.new) }
    ensures stands { OnOk result (Stands around nodes.now frames.new scopes.new) }
    ensures left { IfOk result (λ d. IsLedSo nodes.now d frames.new) }
{
    let mut error = error;
    while let Some(tried) = leave_to_try(frames, scopes) {
        match decide(alloc, nodes, targets, last, tried, error, frames, scopes)? {
            Decided::Raises(another) => error = another,
            Decided::Led(led) => return Ok(led),
        }
    }
    Ok(Led::Ended(End::Error(error)))
}

/// The `try` and the error on which a workflow was asked, whose call is the innermost frame.
fn asked_on(alloc: Global, frames: &Frames) -> Result<(Tried, Value), OutOfMemory>
    requires { IsJudgeTop (inner frames.now) }
    ensures { IfOk result (λ p. IsAskedOn (inner frames.now) p.0 p.1) }
{
    let Some(frame) = frames.top() else {
        unreachable!()
    };
    let Frame::Judge(judging) = frame else {
        unreachable!()
    };
    let judging: &Judging = judging;
    let tried = Tried {
        node: judging.node,
        tries: judging.tries,
        delay: judging.delay,
    };
    let error = judging.error.copy(alloc)?;
    Ok((tried, error))
}

/// The workflow that was asked about an error has answered: the body is to be tried again, or the `try` is through with it.
fn answered(
    alloc: Global,
    nodes: &[Node],
    targets: &[Target],
    last: u64,
    frames: &mut Frames,
    scopes: &mut Scopes,
    yes: bool,
) -> Result<Led, OutOfMemory>
    ghost around: { Around }
    requires tells { IsTableOf around.spots nodes.now }
    requires targets { AreTargets around.flows around.spots nodes.now targets.now }
    requires stands { Stands around nodes.now frames.old scopes.old }
    requires top { IsJudgeTop (inner frames.old) }
    ensures moved { IfOk result (λ d. LeadsBy around last
        (λ s l. returns s (boolean yes) (control_of around frames.old) l)
        (held_by around frames.old scopes.old) d frames.new scopes.new) }
    ensures stands { OnOk result (Stands around nodes.now frames.new scopes.new) }
    ensures left { IfOk result (λ d. IsLedSo nodes.now d frames.new) }
{
    let asked = asked_on(alloc, frames)?;
    let (tried, error) = asked;
    leave(frames, scopes);
    if yes {
        return retry(alloc, nodes, tried, last, frames, scopes);
    }
    match take(alloc, nodes, tried.node, frames, scopes, error)? {
        Some(another) => outward(alloc, nodes, targets, last, frames, scopes, another),
        None => Ok(lead_on(frames, nodes, scopes)),
    }
}

/// Where one of the few leads that a move seldom gives.
fn lead_turned(
    alloc: Global,
    nodes: &[Node],
    targets: &[Target],
    last: u64,
    by: Turned,
    frames: &mut Frames,
    scopes: &mut Scopes,
) -> Result<Led, OutOfMemory>
    ghost around: { Around }
    requires tells { IsTableOf around.spots nodes.now }
    requires targets { AreTargets around.flows around.spots nodes.now targets.now }
    requires stands { Stands around nodes.now frames.old scopes.old }
    requires left { IsTurnedLeft by (inner frames.old) }
    ensures moved { IfOk result (λ d. (s : Scene) (m : Moved) → s.last ≡ last → Agrees s around
        → IsTurned s m by (local_of around frames.old scopes.old)
        → IsLed around m d (local_of around frames.new scopes.new)) }
    ensures stands { OnOk result (Stands around nodes.now frames.new scopes.new) }
    ensures left { IfOk result (λ d. IsLedSo nodes.now d frames.new) }
{
    match by {
        Turned::Ended(end) => Ok(Led::Ended(end)),
        Turned::Raises(error) => outward(alloc, nodes, targets, last, frames, scopes, error),
        Turned::Says(yes) => answered(alloc, nodes, targets, last, frames, scopes, yes),
    }
}

/// Where a move leads. `targets` has the workflow of a predicate at the number of its `try`, and delays count from the last reading.
pub(crate) fn lead(
    alloc: Global,
    nodes: &[Node],
    targets: &[Target],
    last: u64,
    went: Went,
    frames: &mut Frames,
    scopes: &mut Scopes,
) -> Result<Led, OutOfMemory>
    ghost around: { Around }
    requires tells { IsTableOf around.spots nodes.now }
    requires targets { AreTargets around.flows around.spots nodes.now targets.now }
    requires stands { Stands around nodes.now frames.old scopes.old }
    requires left { IsLeft nodes.now went frames.old }
    ensures moved { IfOk result (λ d. (s : Scene) (m : Moved) → s.last ≡ last → Agrees s around
        → IsMove s m went (local_of around frames.old scopes.old)
        → IsLed around m d (local_of around frames.new scopes.new)) }
    ensures stands { OnOk result (Stands around nodes.now frames.new scopes.new) }
    ensures left { IfOk result (λ d. IsLedSo nodes.now d frames.new) }
{
    match went {
        Went::Goes => Ok(Led::Goes),
        Went::Ends => Ok(Led::Ended(End::Value(Value::Null))),
        Went::Turned(turned) => {
            let by = Box::into_inner(turned);
            lead_turned(alloc, nodes, targets, last, by, frames, scopes)
        }
    }
}
