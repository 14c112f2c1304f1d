// Branches of parallel steps.
ghost use Rattle.std.specs.Prelude.{◌≡◌, IfOk, List, [], ◌∷◌, pos, true};
ghost use Rattle.wf_frames.specs.Built.{IsTableOf};
ghost use Rattle.wf_frames.specs.Fits.{Fits};
ghost use Rattle.wf_frames.specs.Forks.{is_work_at};
ghost use Rattle.wf_frames.specs.Frames.{inner};
ghost use Rattle.wf_frames.specs.Innermost.{innermost};
ghost use Rattle.wf_frames.specs.Turns.{names_of};
ghost use Rattle.wf_frames.specs.declared.frames.Frame.TheVariants as frame;
ghost use Rattle.wf_model.specs.Spots.{Spot};
ghost use Rattle.wf_moves.specs.Beginnings.{IsBeginning};
ghost use Rattle.wf_moves.specs.Branches.{BeginsAt, BeginsFrom, is_left};
ghost use Rattle.wf_moves.specs.Waits.{CanGoOn, is_awake_in};
ghost use Rattle.wf_scope.specs.Layers.{IsInnermost, IsLive, closed};
ghost use Rattle.wf_scope.specs.Store.{layers_of};
ghost use Rattle.wf_value.specs.Plain.{plain};

use crate::task::Task;
use crate::wait::{Joining, Wait};
use std::alloc::Global;
use wf_frames::{Frame, Frames, Work, enter_branch, map_of, next_in, parallel_node};
use wf_model::{LoopNode, Node, WorkNode};
use wf_scope::{Chain, Scopes};
use wf_value::{OutOfMemory, Tag, Value};

/// What a branch that begins comes to.
#[derive(Drop)]
pub enum Begun {
    /// It is a task, which has moves.
    Ready(Task),
    /// Its names would pass the limit on variables: it has ended with this error, and its layer is gone.
    Ended(Value),
}

/// The task of a branch, awake, which stands before the steps of this node, in this layer.
fn stand_before(alloc: Global, nodes: &[Node], list: u32, layer: Chain) -> Result<Task, OutOfMemory>
    ghost ns: { List Spot }
    requires tells { IsTableOf ns nodes.now }
    requires list { IsBeginning ns nodes.now list }
    ensures frames { IfOk result (λ t. inner t.frames ≡ frame.Do list 0 ∷ []) }
    ensures first { IfOk result (λ t. t.frames.first ≡ layer.number) }
    ensures awake { IfOk result (λ t. is_awake_in t.wait ≡ true) }
    ensures fits { IfOk result (λ t. Fits ns nodes.now (inner t.frames)) }
    ensures going { IfOk result (λ t. CanGoOn nodes.now t) }
{
    let frame = Frame::Do(list, 0);
    let Some(next) = next_in(&frame, nodes) else {
        unreachable!()
    };
    let mut frames = Frames::new(alloc, layer);
    frames.push(frame)?;
    frames.set_next(next);
    Ok(Task {
        alloc,
        frames,
        wait: Wait::Awake,
    })
}

/// A branch begins that stands before the steps of this node, in a layer of its own inside this one.
fn begin_steps(
    alloc: Global,
    nodes: &[Node],
    list: u32,
    outer: Chain,
    scopes: &mut Scopes,
) -> Result<Begun, OutOfMemory>
    ghost ns: { List Spot }
    requires tells { IsTableOf ns nodes.now }
    requires list { IsBeginning ns nodes.now list }
    requires live { IsLive outer.number (layers_of scopes.old) }
    ensures begins { IfOk result (BeginsAt ns nodes.now list [] scopes.old.limit outer.number
        (layers_of scopes.old) (layers_of scopes.new)) }
    ensures limit { IfOk result (λ b. scopes.new.limit ≡ scopes.old.limit) }
{
    let layer = scopes.inner(outer)?;
    let task = stand_before(alloc, nodes, list, layer)?;
    Ok(Begun::Ready(task))
}

/// An iteration begins of the parallel loop of this node, with this value and this number, in a layer of its own inside this one.
fn begin_turn(
    alloc: Global,
    nodes: &[Node],
    list: u32,
    repeated: &LoopNode,
    value: Value,
    number: u32,
    outer: Chain,
    scopes: &mut Scopes,
) -> Result<Begun, OutOfMemory>
    ghost ns: { List Spot }
    requires tells { IsTableOf ns nodes.now }
    requires list { IsBeginning ns nodes.now list }
    requires live { IsLive outer.number (layers_of scopes.old) }
    ensures begins { IfOk result (BeginsAt ns nodes.now list
        (names_of repeated.now.value (plain value) repeated.now.index (pos number))
        scopes.old.limit outer.number (layers_of scopes.old) (layers_of scopes.new)) }
    ensures limit { IfOk result (λ b. scopes.new.limit ≡ scopes.old.limit) }
{
    let opened = enter_branch(
        scopes,
        outer,
        &repeated.value,
        value,
        &repeated.index,
        number as u64,
    )?;
    match opened {
        Some(layer) => {
            let task = stand_before(alloc, nodes, list, layer)?;
            Ok(Begun::Ready(task))
        }
        None => {
            let error = map_of(alloc, Tag::ResourceLimitError)?;
            Ok(Begun::Ended(error))
        }
    }
}

/// What is left of a parallel step loses its next branch or iteration, which begins in a layer of its own inside this one.
fn begin(
    alloc: Global,
    nodes: &[Node],
    joining: &mut Joining,
    outer: Chain,
    scopes: &mut Scopes,
) -> Result<Begun, OutOfMemory>
    ghost ns: { List Spot }
    requires tells { IsTableOf ns nodes.now }
    requires work { is_work_at nodes.now joining.old.node joining.old.left ≡ true }
    requires left { is_left ns joining.old ≡ true }
    requires live { IsLive outer.number (layers_of scopes.old) }
    ensures begins { IfOk result (BeginsFrom ns nodes.now scopes.old.limit outer.number joining.old
        joining.new (layers_of scopes.old) (layers_of scopes.new)) }
    ensures limit { IfOk result (λ b. scopes.new.limit ≡ scopes.old.limit) }
{
    let number = joining.next;
    let Some(next) = number.checked_add(1) else {
        return Err(OutOfMemory);
    };
    joining.next = next;
    let body = parallel_node(nodes, joining.node);
    match &body.work {
        WorkNode::Branches(branches) => {
            let list = branches.as_slice()[number as usize];
            begin_steps(alloc, nodes, list, outer, scopes)
        }
        WorkNode::Loop(repeated) => {
            let list = joining.node;
            let Work::Values(left) = &mut joining.left else {
                unreachable!()
            };
            let Some(value) = left.take(alloc)? else {
                unreachable!()
            };
            begin_turn(alloc, nodes, list, repeated, value, number, outer, scopes)
        }
    }
}

impl Task {
    ghost use Rattle.wf_moves.specs.Branches.{BranchSo, has_left};

    /// The next branch or iteration of the parallel step in which it stands begins: its layer stands inside the task's innermost one, and
    /// holds the names of a loop. Without memory the task and the layers are left in any state, and are only to be let go.
    pub fn branch(&mut self, nodes: &[Node], scopes: &mut Scopes) -> Result<Begun, OutOfMemory>
        ghost ns: { List Spot }
        requires tells { IsTableOf ns nodes.now }
        requires going { CanGoOn nodes.now self.old }
        requires left { has_left ns self.old.wait ≡ true }
        requires live { IsLive (innermost self.old.frames.first (inner self.old.frames))
            (layers_of scopes.old) }
        ensures begins { IfOk result (BranchSo ns nodes.now scopes.old.limit self.old self.new
            (layers_of scopes.old) (layers_of scopes.new)) }
        ensures limit { IfOk result (λ b. scopes.new.limit ≡ scopes.old.limit) }
    {
        let outer = self.frames.layer();
        let alloc = self.alloc;
        let Wait::Joining(joining) = &mut self.wait else {
            unreachable!()
        };
        begin(alloc, nodes, joining.as_mut(), outer, scopes)
    }

    /// A branch that has ended leaves its first layer, which is all that is left of it.
    pub fn end(self, scopes: &mut Scopes)
        requires live { IsLive self.frames.first (layers_of scopes.old) }
        requires innermost { IsInnermost self.frames.first (layers_of scopes.old) }
        ensures closed { layers_of scopes.new ≡ closed self.frames.first (layers_of scopes.old) }
        ensures limit { scopes.new.limit ≡ scopes.old.limit }
    {
        scopes.close(self.frames.first());
    }
}
