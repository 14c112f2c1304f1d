// What a step does to a task's frames.
ghost use Rattle.std.specs.Prelude.{◌≡◌, ◌<◌, ◌≤◌, ◌∷◌, List, Option, length, IfOk, IfSome, None, OnOk, false, true};
ghost use Rattle.wf_ast.specs.Eval.{truth};
ghost use Rattle.wf_ast.specs.Tree.{Body, Steps, loop};
ghost use Rattle.wf_eval.specs.Answers.{Answers, GivesBool};
ghost use Rattle.wf_eval.specs.Sight.{seen};
ghost use Rattle.wf_frames.specs.Fits.{Fits, FrameFits, IsCall, IsLoop, IsTry, has_next, reach, view_at};
ghost use Rattle.wf_frames.specs.Frames.{inner, items, left_view, mark_of};
ghost use Rattle.wf_frames.specs.Owned.{own_of};
ghost use Rattle.wf_ast.specs.Apply.{View};
ghost use Rattle.wf_model.specs.Config.{Item};
ghost use Rattle.wf_model.specs.Move as move;
ghost use Rattle.wf_model.specs.Move.{entered};
ghost use Rattle.wf_frames.specs.Built.{IsTableOf};
ghost use Rattle.wf_frames.specs.Steps.{AsksWith, CallsWith, CarriesCall, CarriesOut, Fails, Holds, IsDone, IsNoCall, IsOf, IsReady, LeadsSo, Performs, PerformsCall, RaisesValue, ReturnsValue, Within, arm_in, ends, is_idle, is_idle_kind};
ghost use Rattle.wf_frames.specs.declared.frames.Frame.{Frame};
ghost use Rattle.wf_model.specs.NodeKinds.{call_by, over_by};
ghost use Rattle.wf_model.specs.Shapes.{shape_by};
ghost use Rattle.wf_model.specs.Spots.{Spot, arms_by, owners_at, part_at, part_body, part_next};
ghost use Rattle.wf_model.specs.Table.{ArmsStandIn};
ghost use Rattle.wf_model.specs.declared.node.CallNode as call_node;
ghost use Rattle.wf_model.specs.declared.node.LoopNode.{LoopNode};
ghost use Rattle.wf_model.specs.declared.node.Node.{Node};
ghost use Rattle.wf_value.specs.Data.{depth};
ghost use Rattle.wf_value.specs.Errors.{error_map};
ghost use Rattle.wf_value.specs.Pairs.{Text};
ghost use Rattle.wf_value.specs.Plain.{plain};

use crate::filling::{fill_args, fill_shape};
use crate::{Frame, Frames, Left, Looping, Trying};
use std::alloc::Global;
use wf_ast::{Postfix, boxed};
use wf_eval::Look;
use wf_model::{CallNode, Node, NodeKind, OverShape, Shape, TryNode};
use wf_value::{Map, OutOfMemory, Raise, Tag, Value, error_map};

/// What is still to be done of a step that has a value at hand.
#[derive(Drop)]
pub enum Leads {
    /// An error is raised.
    Raises(Value),
    /// The workflow returns.
    Returns(Value),
    /// The call of the node, with the arguments by their names.
    Calls(u32, Map),
    /// The parallel step of the node is entered. Nothing of it is evaluated yet.
    Forks(u32),
}

/// What is still to be done of a step, beside its frames. What has a value at hand stands in a box: what every step hands on is small.
#[derive(Drop)]
pub enum Step {
    /// The task goes on.
    Goes,
    /// The jump of the node's `next`.
    Jumps(u32),
    /// The assignment of the node.
    Assigns(u32),
    Leads(Box<Leads>),
}

/// A step that has a value at hand. It stands apart from what every step runs.
#[cold]
#[inline(never)]
fn lead(alloc: Global, by: Leads) -> Result<Step, OutOfMemory>
    ensures { IfOk result (LeadsSo by) }
{
    Ok(Step::Leads(boxed(alloc, by)?))
}

/// The map of an error. It is asked for no error of a request and of branches, whose maps hold more: no evaluation raises one.
pub fn map_of(alloc: Global, tag: Tag) -> Result<Value, OutOfMemory>
    ensures error { IfOk result (λ v. plain v ≡ error_map tag) }
    ensures shallow { IfOk result (λ v. depth (plain v) ≤ 100) }
{
    match tag {
        Tag::HttpError => Err(OutOfMemory),
        Tag::UnhandledBranchError => Err(OutOfMemory),
        _ => error_map(alloc, tag),
    }
}

/// The error of an evaluation is raised.
fn fails(alloc: Global, raise: Raise) -> Result<Step, OutOfMemory>
    ensures raises { IfOk result (Fails raise) }
    ensures done { IfOk result IsDone }
{
    match raise {
        Raise::Error(tag) => lead(alloc, Leads::Raises(map_of(alloc, tag)?)),
        Raise::OutOfMemory => Err(OutOfMemory),
    }
}

/// A return.
fn returns<K: Look>(
    alloc: Global,
    shape: &Shape,
    codes: &[Postfix],
    look: &K,
    now: u64,
) -> Result<Step, OutOfMemory>
    ensures value { IfOk result
        (ReturnsValue (shape_by codes.now shape.now) (seen (K.sight look.now) now)) }
    ensures done { IfOk result IsDone }
{
    match fill_shape(alloc, shape, codes, look, now) {
        Ok(value) => lead(alloc, Leads::Returns(value)),
        Err(raise) => fails(alloc, raise),
    }
}

/// A raise, of a text or a map.
fn raises<K: Look>(
    alloc: Global,
    shape: &Shape,
    codes: &[Postfix],
    look: &K,
    now: u64,
) -> Result<Step, OutOfMemory>
    ensures value { IfOk result
        (RaisesValue (shape_by codes.now shape.now) (seen (K.sight look.now) now)) }
    ensures done { IfOk result IsDone }
{
    let value = match fill_shape(alloc, shape, codes, look, now) {
        Ok(value) => value,
        Err(raise) => return fails(alloc, raise),
    };
    match &value {
        Value::Text(_) | Value::Map(_) => lead(alloc, Leads::Raises(value)),
        _ => fails(alloc, Raise::Error(Tag::TypeError)),
    }
}

/// A truth value.
fn truth_of(value: &Value) -> Result<bool, Raise>
    ensures { GivesBool result (truth (plain value.now)) }
{
    match value {
        Value::Bool(b) => Ok(*b),
        _ => Err(Raise::Error(Tag::TypeError)),
    }
}

/// Whether the condition of an arm holds.
#[inline(always)]
fn holds<K: Look>(alloc: Global, nodes: &[Node], n: u32, look: &K, now: u64) -> Result<bool, Raise>
    ghost ns: { List Spot }
    requires tells { IsTableOf ns nodes.now }
    requires within { n < length nodes.now }
    ensures { Holds ns n (seen (K.sight look.now) now) result }
{
    let node = &nodes[n as usize];
    let NodeKind::Arm(condition) = &node.kind else {
        return Err(Raise::Error(Tag::TypeError));
    };
    match fill_shape(alloc, condition, node.codes.items(), look, now) {
        Ok(value) => truth_of(&value),
        Err(raise) => Err(raise),
    }
}

/// The body of the first arm whose condition holds.
#[inline(always)]
fn choose<K: Look>(
    alloc: Global,
    nodes: &[Node],
    arms: &[u32],
    look: &K,
    now: u64,
) -> Result<Option<u32>, Raise>
    ghost at: { Within }
    requires tells { IsTableOf at.spots nodes.now }
    requires arms { ArmsStandIn at.spots (length nodes.now) at.owners arms.now }
    ensures within { IfOk result
        (λ o. IfSome o (λ n. (n < length nodes.now) × (owners_at at.spots n ≡ at.owners))) }
    ensures chosen { Answers (arm_in at.spots) result
        (move.chosen (seen (K.sight look.now) now) (arms_by at.spots arms.now)) }
{
    for arm in arms {
        match holds(alloc, nodes, *arm, look, now) {
            Ok(true) => {
                let Some(body) = arm.checked_add(1) else {
                    return Err(Raise::OutOfMemory);
                };
                return Ok(Some(body));
            }
            Ok(false) => {}
            Err(raise) => return Err(raise),
        }
    }
    Ok(None)
}

/// What a loop goes over.
pub(crate) fn left_of<K: Look>(
    alloc: Global,
    over: &OverShape,
    codes: &[Postfix],
    look: &K,
    now: u64,
) -> Result<Left, Raise>
    ensures { Answers left_view result
        (move.over (seen (K.sight look.now) now) (over_by codes.now over.now)) }
{
    match over {
        OverShape::List(shape) => {
            let value = fill_shape(alloc, shape, codes, look, now)?;
            let Value::List(list) = &value else {
                return Err(Raise::Error(Tag::TypeError));
            };
            let list = list.copy()?;
            Ok(Left::Items(list, 0))
        }
        OverShape::Range(first, last) => {
            let first = fill_shape(alloc, first, codes, look, now)?;
            let last = fill_shape(alloc, last, codes, look, now)?;
            ends_of(&first, &last)
        }
    }
}

/// A range with these ends.
fn ends_of(first: &Value, last: &Value) -> Result<Left, Raise>
    ensures { Answers left_view result (ends (plain first.now) (plain last.now)) }
{
    match (first, last) {
        (Value::Int(first), Value::Int(last)) => {
            if *first <= *last {
                Ok(Left::Range(*first, *last))
            } else {
                Ok(Left::Nothing)
            }
        }
        _ => Err(Raise::Error(Tag::TypeError)),
    }
}

/// Whether a body does nothing.
fn does_nothing(kind: &NodeKind) -> bool
    ensures { result ≡ is_idle_kind kind.now }
{
    match kind {
        NodeKind::Assign(_) | NodeKind::Call(_) | NodeKind::Switch(_) | NodeKind::For(_) => false,
        NodeKind::Parallel(_) | NodeKind::Block(_) | NodeKind::Try(_) => false,
        NodeKind::Raise(_) | NodeKind::Return(_) => false,
        NodeKind::Nothing | NodeKind::Flow(_) | NodeKind::Branch(_) => true,
        NodeKind::Arm(_) | NodeKind::Entry(_) => true,
    }
}

/// Whether a node's body does nothing, and its `next` isn't there.
fn is_idle(node: &Node) -> bool
    ensures { result ≡ is_idle node.now }
{
    does_nothing(&node.kind) && node.next.is_none()
}

/// A switch: the body of the arm that is chosen stands alone, if there is anything to do in it.
#[inline(always)]
fn switch<K: Look>(
    alloc: Global,
    nodes: &[Node],
    arms: &[u32],
    frames: &mut Frames,
    look: &K,
    now: u64,
) -> Result<Step, OutOfMemory>
    ghost at: { Within }
    requires tells { IsTableOf at.spots nodes.now }
    requires arms { ArmsStandIn at.spots (length nodes.now) at.owners arms.now }
    requires fits { Fits at.spots nodes.now (inner frames.old) }
    requires inside { at.owners ≡ reach (inner frames.old) }
    ensures performed { IfOk result
        (Performs at.spots (Body.Switch (arms_by at.spots arms.now)) (seen (K.sight look.now) now)
        (inner frames.old) (inner frames.new)) }
    ensures fits { OnOk result (Fits at.spots nodes.now (inner frames.new)) }
    ensures own { OnOk result (own_of frames.new ≡ own_of frames.old) }
    ensures done { IfOk result IsDone }
{
    let chosen = match choose(alloc, nodes, arms, look, now) {
        Ok(chosen) => chosen,
        Err(raise) => return fails(alloc, raise),
    };
    let Some(n) = chosen else {
        return Ok(Step::Goes);
    };
    if is_idle(&nodes[n as usize]) {
        return Ok(Step::Goes);
    }
    frames.push(Frame::Lone(n, false))?;
    Ok(Step::Goes)
}

/// A loop that begins.
fn begin_loop<K: Look>(
    alloc: Global,
    n: u32,
    over: &OverShape,
    codes: &[Postfix],
    frames: &mut Frames,
    look: &K,
    now: u64,
) -> Result<Step, OutOfMemory>
    ghost ns: { List Spot }
    ensures begun { (value : Text) (index : Option Text) (ss : Steps) → part_body (part_at ns n)
        ≡ Body.For (loop value index (over_by codes.now over.now) ss)
        → IfOk result (Performs ns (part_body (part_at ns n)) (seen (K.sight look.now) now)
        (inner frames.old) (inner frames.new)) }
    ensures fits { (nodes : List Node) → (b : LoopNode) → IsLoop nodes n b
        → Fits ns nodes (inner frames.old) → OnOk result (Fits ns nodes (inner frames.new)) }
    ensures own { OnOk result (own_of frames.new ≡ own_of frames.old) }
    ensures done { IfOk result IsDone }
{
    match left_of(alloc, over, codes, look, now) {
        Ok(left) => {
            let looping = Looping {
                node: n,
                left,
                index: 0,
            };
            frames.push(Frame::Loop(boxed(alloc, looping)?))?;
            Ok(Step::Goes)
        }
        Err(raise) => fails(alloc, raise),
    }
}

/// A call: its arguments are evaluated.
fn calls<K: Look>(
    alloc: Global,
    n: u32,
    call: &CallNode,
    codes: &[Postfix],
    look: &K,
    now: u64,
) -> Result<Step, OutOfMemory>
    ensures called { IfOk result (CallsWith n (call_by codes.now call.now)
        (seen (K.sight look.now) now)) }
    ensures asked { IfOk result (AsksWith n (call_by codes.now call.now)
        (seen (K.sight look.now) now)) }
    ensures of { IfOk result (IsOf n) }
    ensures ready { (ns : List Spot) (nodes : List Node) (fs : List Frame)
        → IsCall nodes n call.now → IfOk result (IsReady ns nodes fs) }
{
    match fill_args(alloc, &call.args, codes, look, now) {
        Ok(args) => lead(alloc, Leads::Calls(n, args)),
        Err(raise) => fails(alloc, raise),
    }
}

/// The frame of the body of a `try`.
pub fn body_frame(nodes: &[Node], body: u32) -> Frame
    ghost ns: { List Spot }
    requires tells { IsTableOf ns nodes.now }
    requires within { body < length nodes.now }
    requires next { has_next (view_at nodes.now body) ≡ false }
    ensures item { (k : List Item) → items ns result k ≡ entered (part_body (part_at ns body)) ∷ k }
    ensures fits { (fs : List Frame) → owners_at ns body ≡ reach fs
        → FrameFits ns nodes.now result fs }
    ensures own { mark_of result ≡ None }
{
    let node = &nodes[body as usize];
    match &node.kind {
        NodeKind::Block(_) => Frame::Do(body, 0),
        _ => Frame::Lone(body, false),
    }
}

/// A `try`: its body stands inside it.
fn enter_try(
    alloc: Global,
    nodes: &[Node],
    n: u32,
    tried: &TryNode,
    frames: &mut Frames,
) -> Result<Step, OutOfMemory>
    ghost ns: { List Spot }
    requires tells { IsTableOf ns nodes.now }
    requires tried { IsTry nodes.now n tried.now }
    requires fits { Fits ns nodes.now (inner frames.old) }
    requires inside { owners_at ns n ≡ reach (inner frames.old) }
    ensures performed { IfOk result (λ st. (v : View)
        → Performs ns (part_body (part_at ns n)) v (inner frames.old) (inner frames.new) st) }
    ensures fits { OnOk result (Fits ns nodes.now (inner frames.new)) }
    ensures own { OnOk result (own_of frames.new ≡ own_of frames.old) }
    ensures done { IfOk result IsDone }
{
    let trying = Trying {
        node: n,
        tries: 0,
        delay: None,
    };
    frames.push(Frame::Try(boxed(alloc, trying)?))?;
    frames.push(body_frame(nodes, tried.body))?;
    Ok(Step::Goes)
}

/// The body of a node that is no call is carried out.
#[inline(always)]
fn perform_plain<K: Look>(
    alloc: Global,
    nodes: &[Node],
    n: u32,
    frames: &mut Frames,
    look: &K,
    now: u64,
) -> Result<Step, OutOfMemory>
    ghost ns: { List Spot }
    requires tells { IsTableOf ns nodes.now }
    requires within { n < length nodes.now }
    requires other { (f : call_node.CallNode) → IsCall nodes.now n f → ⊥ }
    requires fits { Fits ns nodes.now (inner frames.old) }
    requires inside { owners_at ns n ≡ reach (inner frames.old) }
    ensures performed { IfOk result
        (Performs ns (part_body (part_at ns n)) (seen (K.sight look.now) now) (inner frames.old)
        (inner frames.new)) }
    ensures fits { OnOk result (Fits ns nodes.now (inner frames.new)) }
    ensures own { OnOk result (own_of frames.new ≡ own_of frames.old) }
    ensures ready { IfOk result (IsReady ns nodes.now (inner frames.new)) }
    ensures no_call { IfOk result IsNoCall }
{
    let node = &nodes[n as usize];
    let codes = node.codes.items();
    match &node.kind {
        NodeKind::Assign(entries) => match entries.as_slice() {
            [] => Ok(Step::Goes),
            [first, ..] => {
                frames.push(Frame::Entries(n, 1))?;
                Ok(Step::Assigns(*first))
            }
        },
        NodeKind::Switch(arms) => switch(alloc, nodes, arms.as_slice(), frames, look, now),
        NodeKind::For(body) => begin_loop(alloc, n, &body.over, codes, frames, look, now),
        NodeKind::Block(_) => {
            frames.push(Frame::Do(n, 0))?;
            Ok(Step::Goes)
        }
        NodeKind::Raise(shape) => raises(alloc, shape, codes, look, now),
        NodeKind::Return(shape) => returns(alloc, shape, codes, look, now),
        NodeKind::Try(tried) => enter_try(alloc, nodes, n, tried, frames),
        NodeKind::Parallel(_) => lead(alloc, Leads::Forks(n)),
        _ => Ok(Step::Goes),
    }
}

/// The body of a node is carried out.
#[inline(never)]
fn perform<K: Look>(
    alloc: Global,
    nodes: &[Node],
    n: u32,
    frames: &mut Frames,
    look: &K,
    now: u64,
) -> Result<Step, OutOfMemory>
    ghost ns: { List Spot }
    requires tells { IsTableOf ns nodes.now }
    requires within { n < length nodes.now }
    requires fits { Fits ns nodes.now (inner frames.old) }
    requires inside { owners_at ns n ≡ reach (inner frames.old) }
    ensures performed { IfOk result
        (Performs ns (part_body (part_at ns n)) (seen (K.sight look.now) now) (inner frames.old)
        (inner frames.new)) }
    ensures asked { IfOk result
        (PerformsCall ns (part_body (part_at ns n)) (seen (K.sight look.now) now)
        (inner frames.old) (inner frames.new)) }
    ensures of { IfOk result (IsOf n) }
    ensures fits { OnOk result (Fits ns nodes.now (inner frames.new)) }
    ensures own { OnOk result (own_of frames.new ≡ own_of frames.old) }
    ensures ready { IfOk result (IsReady ns nodes.now (inner frames.new)) }
{
    let node = &nodes[n as usize];
    match &node.kind {
        NodeKind::Call(call) => calls(alloc, n, call, node.codes.items(), look, now),
        _ => perform_plain(alloc, nodes, n, frames, look, now),
    }
}

/// The step of a node is carried out.
#[inline(always)]
pub(crate) fn carry_out<K: Look>(
    alloc: Global,
    nodes: &[Node],
    n: u32,
    frames: &mut Frames,
    look: &K,
    now: u64,
) -> Result<Step, OutOfMemory>
    ghost ns: { List Spot }
    requires tells { IsTableOf ns nodes.now }
    requires within { n < length nodes.now }
    requires fits { Fits ns nodes.now (inner frames.old) }
    requires inside { owners_at ns n ≡ reach (inner frames.old) }
    ensures carried { IfOk result
        (CarriesOut ns (part_body (part_at ns n)) (part_next (part_at ns n))
        (seen (K.sight look.now) now) (inner frames.old) (inner frames.new)) }
    ensures asked { IfOk result
        (CarriesCall ns (part_body (part_at ns n)) (part_next (part_at ns n))
        (seen (K.sight look.now) now) (inner frames.old) (inner frames.new)) }
    ensures of { IfOk result (IsOf n) }
    ensures fits { OnOk result (Fits ns nodes.now (inner frames.new)) }
    ensures own { OnOk result (own_of frames.new ≡ own_of frames.old) }
    ensures ready { IfOk result (IsReady ns nodes.now (inner frames.new)) }
{
    let node = &nodes[n as usize];
    match &node.next {
        None => perform(alloc, nodes, n, frames, look, now),
        Some(_) => {
            if does_nothing(&node.kind) {
                return Ok(Step::Jumps(n));
            }
            frames.push(Frame::Then(n))?;
            perform(alloc, nodes, n, frames, look, now)
        }
    }
}
