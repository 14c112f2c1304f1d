// What a `try` does with an error: the policy decides.
ghost use Rattle.std.specs.Prelude.{◌≡◌, ◌≤◌, ◌<◌, ◌∷◌, [], ℕ, IfOk, OnOk, true};
ghost use Rattle.wf_ast.specs.View.{param_view, policy_option_view};
ghost use Rattle.wf_frames.specs.Bound.{bindings_of};
ghost use Rattle.wf_frames.specs.Frames.{calls_of, inner};
ghost use Rattle.wf_frames.specs.Owned.{Around, control_of, held_by};
ghost use Rattle.wf_frames.specs.Stands.{Stands};
ghost use Rattle.wf_model.specs.Move.{retries};
ghost use Rattle.wf_model.specs.Unwind.{judged};
ghost use Rattle.wf_moves.specs.Moved.{IsLeft, MovesBy};
ghost use Rattle.wf_moves.specs.Retries.{DecidesBy, Asked, AsksFlow, IsDecidedSo, IsLedSo, LeadsBy, Rests, TriedAt, ask_at, decide_at, retry_at, verdict_of, verdict_said};
ghost use Rattle.wf_moves.specs.Tasks.{part_params};
ghost use Rattle.wf_moves.specs.Waits.{is_at_try};
ghost use Rattle.wf_model.specs.Spots.{part_at};
ghost use Rattle.wf_frames.specs.Built.{AreTargets, IsTableOf};
ghost use Rattle.wf_value.specs.Data.{depth};
ghost use Rattle.wf_value.specs.Plain.{plain};

use crate::call::CALL_LIMIT;
use crate::finish::{Went, goes};
use crate::leading::{Led, lead_on};
use crate::start::params;
use crate::unwind::{Tried, take};
use crate::wait::Wait;
use std::alloc::Global;
use wf_ast::{Param, Policy, Predicate, boxed};
use wf_frames::{
    Bindings, Frame, Frames, Judging, Target, Trying, body_frame, enter_call, map_of, try_node,
};
use wf_model::Node;
use wf_name::Name;
use wf_retry::{default_says, next_delay};
use wf_scope::Scopes;
use wf_value::{OutOfMemory, Tag, Value};

/// What a policy says of an error: that the body is tried again, that it isn't, or that a workflow is asked.
#[derive(Clone, Copy)]
pub(crate) enum Verdict {
    Yes,
    No,
    Asks,
}

/// What became of an error at a `try`: another error goes on outward, or the task goes on or waits.
#[derive(Drop)]
pub(crate) enum Decided {
    Raises(Value),
    Led(Led),
}

fn said(yes: bool) -> Verdict
    ensures { result ≡ verdict_said yes }
{
    if yes { Verdict::Yes } else { Verdict::No }
}

/// Without a policy and with no retries left nothing is asked.
fn judge(policy: &Option<Policy>, tries: u64, error: &Value) -> Verdict
    ensures { result ≡ verdict_of (judged (policy_option_view policy.now) tries (plain error.now)) }
{
    let Some(policy) = policy else {
        return Verdict::No;
    };
    if tries >= u64::from(policy.max_retries) {
        return Verdict::No;
    }
    match &policy.predicate {
        Predicate::Always => Verdict::Yes,
        Predicate::Never => Verdict::No,
        Predicate::Default(kind) => said(default_says(*kind, error)),
        Predicate::Flow(_) => Verdict::Asks,
    }
}

/// The body of a `try` is to be tried again, behind a delay that counts from the last reading.
pub(crate) fn retry(
    alloc: Global,
    nodes: &[Node],
    tried: Tried,
    last: u64,
    frames: &mut Frames,
    scopes: &mut Scopes,
) -> Result<Led, OutOfMemory>
    ghost around: { Around }
    requires tells { IsTableOf around.spots nodes.now }
    requires stands { Stands around nodes.now frames.old scopes.old }
    requires at { TriedAt around.spots nodes.now tried (inner frames.old) }
    ensures moved { IfOk result (λ d. LeadsBy around last
        (λ s l. retry_at around.spots tried s (control_of around frames.old) l)
        (held_by around frames.old scopes.old) d frames.new scopes.new) }
    ensures stands { OnOk result (Stands around nodes.now frames.new scopes.new) }
    ensures left { IfOk result (λ d. IsLedSo nodes.now d frames.new) }
{
    let node = try_node(nodes, tried.node);
    let Some(policy) = &node.policy else {
        return Ok(lead_on(frames, nodes, scopes));
    };
    // No execution tries so often.
    let Some(tries) = tried.tries.checked_add(1) else {
        return Err(OutOfMemory);
    };
    let delay = next_delay(&policy.backoff, tried.delay);
    let trying = Trying {
        node: tried.node,
        tries,
        delay: Some(delay),
    };
    frames.push(Frame::Try(boxed(alloc, trying)?))?;
    Ok(Led::Waits(Wait::Delay {
        due: last.saturating_add(delay),
    }))
}

/// The body of the innermost `try` stands inside it again.
pub(crate) fn try_again(
    nodes: &[Node],
    frames: &mut Frames,
    scopes: &mut Scopes,
) -> Result<Went, OutOfMemory>
    ghost around: { Around }
    requires tells { IsTableOf around.spots nodes.now }
    requires stands { Stands around nodes.now frames.old scopes.old }
    requires top { is_at_try (inner frames.old) ≡ true }
    ensures moved { IfOk result (λ w. MovesBy around
        (λ s l. retries (control_of around frames.old) l)
        (held_by around frames.old scopes.old) w frames.new scopes.new) }
    ensures stands { OnOk result (Stands around nodes.now frames.new scopes.new) }
    ensures left { IfOk result (λ w. IsLeft nodes.now w frames.new) }
{
    let Some(frame) = frames.top() else {
        unreachable!()
    };
    let Frame::Try(trying) = frame else {
        unreachable!()
    };
    let tried = try_node(nodes, trying.node);
    frames.push(body_frame(nodes, tried.body))?;
    Ok(goes(frames, nodes, scopes))
}

/// The parameter of the workflow that is asked, with the error.
fn with_error(alloc: Global, param: &Param, error: &Value) -> Result<Bindings, OutOfMemory>
    ensures { IfOk result (λ b. bindings_of b ≡ (param.now.name, plain error.now) ∷ []) }
{
    let mut bindings = Bindings::new(alloc);
    bindings.put_first(Name::of(param.name.copy()?), error.copy(alloc)?)?;
    Ok(bindings)
}

/// The workflow that is asked about an error is called with it. Where the variables would pass their limit, that is the error.
fn question(
    alloc: Global,
    nodes: &[Node],
    tried: Tried,
    flow: u32,
    param: &Param,
    error: Value,
    frames: &mut Frames,
    scopes: &mut Scopes,
) -> Result<Decided, OutOfMemory>
    ghost around: { Around }
    requires tells { IsTableOf around.spots nodes.now }
    requires asked { AsksFlow around flow tried (plain error) }
    requires stands { Stands around nodes.now frames.old scopes.old }
    requires at { TriedAt around.spots nodes.now tried (inner frames.old) }
    requires shallow { depth (plain error) ≤ 100 }
    requires param { part_params (part_at around.spots flow) ≡ param_view param.now ∷ [] }
    requires few { calls_of (inner frames.old) < 20 }
    ensures moved { IfOk result (λ d. (last : ℕ) → DecidesBy around last
        (λ s l. ask_at around.spots tried s (plain error) (control_of around frames.old) l)
        (held_by around frames.old scopes.old) d frames.new scopes.new) }
    ensures same { IfOk result (λ d. Rests d (inner frames.old) (inner frames.new)) }
    ensures stands { OnOk result (Stands around nodes.now frames.new scopes.new) }
    ensures left { IfOk result (λ d. IsDecidedSo nodes.now d frames.new) }
{
    let bindings = with_error(alloc, param, &error)?;
    match enter_call(frames, scopes, bindings)? {
        Some(layer) => {
            let judging = Judging {
                node: tried.node,
                tries: tried.tries,
                delay: tried.delay,
                error,
                layer,
            };
            frames.push(Frame::Judge(boxed(alloc, judging)?))?;
            frames.push(Frame::Do(flow, 0))?;
            Ok(Decided::Led(lead_on(frames, nodes, scopes)))
        }
        None => Ok(Decided::Raises(map_of(alloc, Tag::ResourceLimitError)?)),
    }
}

/// A workflow is asked about an error: it is called with it, and what it returns decides. Where it would be one call too many in each
/// other, or the variables would pass their limit, that is the error.
fn ask(
    alloc: Global,
    nodes: &[Node],
    targets: &[Target],
    tried: Tried,
    error: Value,
    frames: &mut Frames,
    scopes: &mut Scopes,
) -> Result<Decided, OutOfMemory>
    ghost around: { Around }
    requires tells { IsTableOf around.spots nodes.now }
    requires asked { Asked around targets.now tried (plain error) }
    requires stands { Stands around nodes.now frames.old scopes.old }
    requires at { TriedAt around.spots nodes.now tried (inner frames.old) }
    requires shallow { depth (plain error) ≤ 100 }
    ensures moved { IfOk result (λ d. (last : ℕ) → DecidesBy around last
        (λ s l. ask_at around.spots tried s (plain error) (control_of around frames.old) l)
        (held_by around frames.old scopes.old) d frames.new scopes.new) }
    ensures same { IfOk result (λ d. Rests d (inner frames.old) (inner frames.new)) }
    ensures stands { OnOk result (Stands around nodes.now frames.new scopes.new) }
    ensures left { IfOk result (λ d. IsDecidedSo nodes.now d frames.new) }
{
    let target = &targets[tried.node as usize];
    let Target::Flow(flow) = target else {
        unreachable!()
    };
    let params = params(nodes, *flow);
    if params.len() != 1 {
        // No program is accepted that asks another workflow.
        return Ok(Decided::Led(lead_on(frames, nodes, scopes)));
    }
    let param = &params[0];
    if frames.calls() >= CALL_LIMIT {
        return Ok(Decided::Raises(map_of(alloc, Tag::RecursionError)?));
    }
    question(alloc, nodes, tried, *flow, param, error, frames, scopes)
}

/// An error comes to a `try`, whose frame was left: the body is to be tried again, a workflow is asked, or the `try` is through with it.
pub(crate) fn decide(
    alloc: Global,
    nodes: &[Node],
    targets: &[Target],
    last: u64,
    tried: Tried,
    error: Value,
    frames: &mut Frames,
    scopes: &mut Scopes,
) -> Result<Decided, OutOfMemory>
    ghost around: { Around }
    requires tells { IsTableOf around.spots nodes.now }
    requires targets { AreTargets around.flows around.spots nodes.now targets.now }
    requires stands { Stands around nodes.now frames.old scopes.old }
    requires at { TriedAt around.spots nodes.now tried (inner frames.old) }
    requires shallow { depth (plain error) ≤ 100 }
    ensures moved { IfOk result (λ d. DecidesBy around last
        (λ s l. decide_at around.spots tried s (plain error) (control_of around frames.old) l)
        (held_by around frames.old scopes.old) d frames.new scopes.new) }
    ensures same { IfOk result (λ d. Rests d (inner frames.old) (inner frames.new)) }
    ensures stands { OnOk result (Stands around nodes.now frames.new scopes.new) }
    ensures left { IfOk result (λ d. IsDecidedSo nodes.now d frames.new) }
{
    let node = try_node(nodes, tried.node);
    match judge(&node.policy, tried.tries, &error) {
        Verdict::Yes => Ok(Decided::Led(retry(alloc, nodes, tried, last, frames, scopes)?)),
        Verdict::Asks => ask(alloc, nodes, targets, tried, error, frames, scopes),
        Verdict::No => match take(alloc, nodes, tried.node, frames, scopes, error)? {
            Some(another) => Ok(Decided::Raises(another)),
            None => Ok(Decided::Led(lead_on(frames, nodes, scopes))),
        },
    }
}
