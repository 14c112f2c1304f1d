// Returns.
ghost use Rattle.std.specs.Prelude.{◌≡◌, ◌≤◌, IfOk, List, OnOk, option_copied};
ghost use Rattle.wf_frames.specs.Fits.{IsCallOf};
ghost use Rattle.wf_frames.specs.Frames.{result_of};
ghost use Rattle.wf_frames.specs.Frames.{inner};
ghost use Rattle.wf_frames.specs.Owned.{Around, control_of, held_by};
ghost use Rattle.wf_frames.specs.Stands.{Stands};
ghost use Rattle.wf_frames.specs.Owned.{IsLinked, beside, own_of};
ghost use Rattle.wf_frames.specs.Fits.{Fits};
ghost use Rattle.wf_model.specs.Config.{Item};
ghost use Rattle.wf_model.specs.Leave as leave;
ghost use Rattle.wf_model.specs.Unwind.{to_back};
ghost use Rattle.wf_moves.specs.Moved.{IsBackTop, IsLeft, MovesBy, SaysSo, back_found, call_of, is_judge};
ghost use Rattle.wf_model.specs.Spots.{Spot};
ghost use Rattle.wf_model.specs.declared.node.Node.{Node};
ghost use Rattle.wf_frames.specs.Built.{IsTableOf};
ghost use Rattle.wf_value.specs.Data.{depth};
ghost use Rattle.wf_value.specs.Plain.{plain};

use crate::assign::store_value;
use crate::finish::{End, Turned, Went, goes, turns};
use crate::raising::raises_tag;
use std::alloc::Global;
use wf_frames::{Frame, Frames, leave};
use wf_model::{Node, NodeKind};
use wf_name::Name;
use wf_scope::Scopes;
use wf_value::{OutOfMemory, Tag, Value};

/// The frames inside the innermost call are left, or all.
fn leave_to_back(frames: &mut Frames, scopes: &mut Scopes)
    ghost around: { Around }
    requires linked { IsLinked around (own_of frames.old) scopes.old }
    ensures linked { IsLinked around (own_of frames.new) scopes.new }
    ensures found { (c : List Item)
        → to_back (control_of around frames.old) (beside c around frames.old scopes.old)
        ≡ back_found around.spots (inner frames.new) (beside c around frames.new scopes.new) }
    ensures outside { (held_by around frames.new scopes.new).outside
        ≡ (held_by around frames.old scopes.old).outside }
    ensures top { IsBackTop (inner frames.new) }
    ensures fits { (nodes : List Node) → Fits around.spots nodes (inner frames.old)
        → Fits around.spots nodes (inner frames.new) }
{
    while let Some(frame) = frames.top() {
        if frame.is_back() {
            return;
        }
        leave(frames, scopes);
    }
}

/// The call that ends with a frame, if a step made it.
fn call_of(frame: &Frame) -> Option<u32>
    ensures { result ≡ call_of frame.now }
{
    match frame {
        Frame::Back(call, _) => *call,
        Frame::Do(_, _) | Frame::Lone(_, _) | Frame::Entries(_, _) | Frame::Then(_) => None,
        Frame::Loop(_) | Frame::Try(_) | Frame::Mark(_) => None,
        Frame::Judge(_) => None,
    }
}

/// Whether the call that ends with a frame is that of a workflow that was asked about an error.
fn is_judge(frame: &Frame) -> bool
    ensures { result ≡ is_judge frame.now }
{
    match frame {
        Frame::Judge(_) => true,
        Frame::Do(_, _) | Frame::Lone(_, _) | Frame::Entries(_, _) | Frame::Then(_) => false,
        Frame::Loop(_) | Frame::Try(_) | Frame::Mark(_) | Frame::Back(_, _) => false,
    }
}

/// What the workflow that was asked about an error says, which must be a truth value.
fn says(alloc: Global, value: &Value) -> Result<Went, OutOfMemory>
    ensures { IfOk result (SaysSo (plain value.now)) }
{
    match value {
        Value::Bool(yes) => turns(alloc, Turned::Says(*yes)),
        _ => raises_tag(alloc, Tag::TypeError),
    }
}

/// The variable that takes what a call gives.
fn result_of(nodes: &[Node], call: Option<u32>) -> Option<&Name>
    ghost ns: { List Spot }
    requires tells { IsTableOf ns nodes.now }
    requires call { IsCallOf nodes.now call }
    ensures { option_copied result ≡ result_of ns call }
{
    let Some(n) = call else {
        return None;
    };
    let node = &nodes[n as usize];
    match &node.kind {
        NodeKind::Call(call) => call.result.as_ref(),
        _ => None,
    }
}

/// A value goes into the variable that the call names.
pub(crate) fn give(
    alloc: Global,
    nodes: &[Node],
    call: Option<u32>,
    value: Value,
    frames: &mut Frames,
    scopes: &mut Scopes,
) -> Result<Went, OutOfMemory>
    ghost around: { Around }
    requires tells { IsTableOf around.spots nodes.now }
    requires stands { Stands around nodes.now frames.old scopes.old }
    requires call { IsCallOf nodes.now call }
    ensures moved { IfOk result (λ w. MovesBy around
        (λ s l. leave.gives s (result_of around.spots call) (plain value)
        (control_of around frames.old) l)
        (held_by around frames.old scopes.old) w frames.new scopes.new) }
    ensures stands { OnOk result (Stands around nodes.now frames.new scopes.new) }
    ensures left { IfOk result (λ w. IsLeft nodes.now w frames.new) }
{
    match result_of(nodes, call) {
        Some(name) => store_value(alloc, nodes, name, value, frames, scopes),
        None => Ok(goes(frames, nodes, scopes)),
    }
}

/// The innermost workflow returns: to the call that it is of, to the question that it was asked, or out of the task.
pub(crate) fn returns(
    alloc: Global,
    nodes: &[Node],
    frames: &mut Frames,
    scopes: &mut Scopes,
    value: Value,
) -> Result<Went, OutOfMemory>
    ghost around: { Around }
    requires tells { IsTableOf around.spots nodes.now }
    requires stands { Stands around nodes.now frames.old scopes.old }
    requires shallow { depth (plain value) ≤ 100 }
    ensures moved { IfOk result (λ w. MovesBy around
        (λ s l. leave.returns s (plain value) (control_of around frames.old) l)
        (held_by around frames.old scopes.old) w frames.new scopes.new) }
    ensures stands { OnOk result (Stands around nodes.now frames.new scopes.new) }
    ensures left { IfOk result (λ w. IsLeft nodes.now w frames.new) }
{
    leave_to_back(frames, scopes);
    match frames.top() {
        None => turns(alloc, Turned::Ended(End::Value(value))),
        Some(frame) => {
            if is_judge(frame) {
                return says(alloc, &value);
            }
            let call = call_of(frame);
            leave(frames, scopes);
            give(alloc, nodes, call, value, frames, scopes)
        }
    }
}
