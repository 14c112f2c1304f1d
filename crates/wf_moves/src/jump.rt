// Jumps.
ghost use Rattle.std.specs.Prelude.{◌≡◌, ℕ, List, [], Some, IfOk, IfSome, OnOk, is_some, slice_get, true, unwrap_or};
ghost use Rattle.wf_frames.specs.Fits.{Fits, HasNode, list_at, outside_at, reach, views};
ghost use Rattle.wf_frames.specs.Frames.{inner};
ghost use Rattle.wf_frames.specs.Owned.{Around, IsLinked, beside, control_of, held_by, local_of, own_of};
ghost use Rattle.wf_frames.specs.Stands.{Stands};
ghost use Rattle.wf_model.specs.Config.{Item};
ghost use Rattle.wf_model.specs.Leave as leave;
ghost use Rattle.wf_model.specs.Local.{Scene};
ghost use Rattle.wf_model.specs.Unwind.{to_loop, to_step};
ghost use Rattle.wf_model.specs.Unwind as found;
ghost use Rattle.wf_frames.specs.Built.{IsTableOf};
ghost use Rattle.wf_moves.specs.Moved.{FoundIn, IsLeft, IsLoopTop, IsMove, MovesBy, is_loop, loop_found, target};
ghost use Rattle.wf_frames.specs.Steps.{IsJump};
ghost use Rattle.wf_model.specs.Spots.{part_at, part_next};
ghost use Rattle.wf_model.specs.Table.{Leads};
ghost use Rattle.wf_model.specs.declared.node.Node.{Node};
ghost use Rattle.wf_value.specs.Pairs.{Text};

use crate::back::returns;
use crate::finish::{Went, goes};
use std::alloc::Global;
use wf_frames::{Frame, Frames, block, leave};
use wf_model::{Jump, Node};
use wf_scope::Scopes;
use wf_value::{OutOfMemory, Value};

/// Where a number stands first among others, if it does.
fn first_place(numbers: &[u32], to: u32) -> usize
    ensures { (i : ℕ) → slice_get numbers.now i ≡ Some to
        → slice_get numbers.now result ≡ Some to }
{
    let mut place = 0;
    while place < numbers.len() {
        if numbers[place] == to {
            return place;
        }
        place += 1;
    }
    place
}

/// Where a number stands among others, if it does. The numbers of a list rise, so a jump costs no more in a long one; that they do is asked
/// of nobody.
fn place_of(numbers: &[u32], to: u32) -> usize
    ensures { (i : ℕ) → slice_get numbers.now i ≡ Some to
        → slice_get numbers.now result ≡ Some to }
{
    match numbers.binary_search(&to) {
        Ok(place) => place,
        Err(_) => first_place(numbers, to),
    }
}

/// The number of a frame's node, if it is the list to which a jump leads.
fn target(frame: &Frame, nodes: &[Node], keep: u32) -> Option<u32>
    requires { HasNode nodes.now frame.now }
    ensures { result ≡ target nodes.now keep frame.now }
{
    match frame {
        Frame::Do(list, _) => {
            if block(nodes, *list).depth == keep {
                Some(*list)
            } else {
                None
            }
        }
        Frame::Lone(_, _) | Frame::Entries(_, _) | Frame::Then(_) => None,
        Frame::Loop(_) | Frame::Try(_) | Frame::Mark(_) | Frame::Back(_, _) => None,
        Frame::Judge(_) => None,
    }
}

/// The frames inside a jump's list are left, and that of the list itself. It gives the number of the list's node.
fn leave_to(frames: &mut Frames, nodes: &[Node], scopes: &mut Scopes, jump: Jump) -> Option<u32>
    ghost around: { Around }
    requires tells { IsTableOf around.spots nodes.now }
    requires stands { Stands around nodes.now frames.old scopes.old }
    ensures list { IfSome result (λ n. is_some (list_at nodes.now n) ≡ true) }
    ensures inside { IfSome result (λ n. outside_at around.spots nodes.now n
        ≡ reach (inner frames.new)) }
    ensures found { (x : Text)
        → Leads around.spots (views nodes.now) x (Some jump) (reach (inner frames.old))
        → FoundIn around.spots nodes.now x jump result (inner frames.old)
        (held_by around frames.old scopes.old) (inner frames.new)
        (held_by around frames.new scopes.new) }
    ensures stands { Stands around nodes.now frames.new scopes.new }
{
    while let Some(frame) = frames.top() {
        if let Some(list) = target(frame, nodes, jump.keep) {
            leave(frames, scopes);
            return Some(list);
        }
        leave(frames, scopes);
    }
    None
}

/// The task stands before the step of a jump.
fn jump_to(
    frames: &mut Frames,
    nodes: &[Node],
    scopes: &mut Scopes,
    jump: Jump,
) -> Result<(), OutOfMemory>
    ghost around: { Around }
    requires tells { IsTableOf around.spots nodes.now }
    requires stands { Stands around nodes.now frames.old scopes.old }
    requires leads { (x : Text)
        × Leads around.spots (views nodes.now) x (Some jump) (reach (inner frames.old)) }
    ensures found { (x : Text)
        → Leads around.spots (views nodes.now) x (Some jump) (reach (inner frames.old))
        → (c : List Item) → OnOk result
        (to_step x (control_of around frames.old) (beside c around frames.old scopes.old)
        ≡ found.Stands (control_of around frames.new) (beside c around frames.new scopes.new)) }
    ensures stands { OnOk result (Stands around nodes.now frames.new scopes.new) }
{
    let Some(list) = leave_to(frames, nodes, scopes, jump) else {
        unreachable!()
    };
    let place = place_of(block(nodes, list).steps.as_slice(), jump.to);
    frames.push(Frame::Do(list, place))?;
    Ok(())
}

/// Whether a frame is a loop, or a call, in which there is none.
fn is_loop(frame: &Frame) -> bool
    ensures { result ≡ is_loop frame.now }
{
    match frame {
        Frame::Loop(_) | Frame::Back(_, _) | Frame::Judge(_) => true,
        Frame::Do(_, _) | Frame::Lone(_, _) | Frame::Entries(_, _) => false,
        Frame::Then(_) | Frame::Try(_) | Frame::Mark(_) => false,
    }
}

/// The frames inside the innermost loop or call are left, or all.
fn leave_to_loop(frames: &mut Frames, scopes: &mut Scopes)
    ghost around: { Around }
    requires linked { IsLinked around (own_of frames.old) scopes.old }
    ensures linked { IsLinked around (own_of frames.new) scopes.new }
    ensures found { (c : List Item)
        → to_loop (control_of around frames.old) (beside c around frames.old scopes.old)
        ≡ loop_found around.spots (inner frames.new) (beside c around frames.new scopes.new) }
    ensures outside { (held_by around frames.new scopes.new).outside
        ≡ (held_by around frames.old scopes.old).outside }
    ensures top { IsLoopTop (inner frames.new) }
    ensures fits { (nodes : List Node) → Fits around.spots nodes (inner frames.old)
        → Fits around.spots nodes (inner frames.new) }
{
    while let Some(frame) = frames.top() {
        if is_loop(frame) {
            return;
        }
        leave(frames, scopes);
    }
}

/// `continue`: the innermost loop goes on, or the iteration of a parallel loop ends.
fn go_on_loop(frames: &mut Frames, nodes: &[Node], scopes: &mut Scopes) -> Went
    ghost around: { Around }
    requires tells { IsTableOf around.spots nodes.now }
    requires stands { Stands around nodes.now frames.old scopes.old }
    ensures moved { (s : Scene) (c : List Item)
        → IsMove s (leave.continues s (beside c around frames.old scopes.old)
        (to_loop (control_of around frames.old) (beside c around frames.old scopes.old)))
        result (local_of around frames.new scopes.new) }
    ensures stands { Stands around nodes.now frames.new scopes.new }
    ensures left { IsLeft nodes.now result frames.new }
{
    leave_to_loop(frames, scopes);
    goes(frames, nodes, scopes)
}

/// `break`: the innermost loop ends.
fn end_loop(frames: &mut Frames, nodes: &[Node], scopes: &mut Scopes) -> Went
    ghost around: { Around }
    requires tells { IsTableOf around.spots nodes.now }
    requires stands { Stands around nodes.now frames.old scopes.old }
    ensures moved { (s : Scene) (c : List Item)
        → IsMove s (leave.breaks (to_loop (control_of around frames.old)
        (beside c around frames.old scopes.old))) result (local_of around frames.new scopes.new) }
    ensures stands { Stands around nodes.now frames.new scopes.new }
    ensures left { IsLeft nodes.now result frames.new }
{
    leave_to_loop(frames, scopes);
    leave(frames, scopes);
    goes(frames, nodes, scopes)
}

/// To the step of this name, where the table has found one.
fn go_to(
    frames: &mut Frames,
    nodes: &[Node],
    scopes: &mut Scopes,
    jump: Option<Jump>,
) -> Result<Went, OutOfMemory>
    ghost around: { Around }
    requires tells { IsTableOf around.spots nodes.now }
    requires stands { Stands around nodes.now frames.old scopes.old }
    requires leads { (x : Text)
        × Leads around.spots (views nodes.now) x jump (reach (inner frames.old)) }
    ensures moved { IfOk result (λ w. (x : Text)
        → Leads around.spots (views nodes.now) x jump (reach (inner frames.old))
        → (s : Scene) (c : List Item) → IsMove s (leave.jumps_to s x
        (to_step x (control_of around frames.old) (beside c around frames.old scopes.old)))
        w (local_of around frames.new scopes.new)) }
    ensures stands { OnOk result (Stands around nodes.now frames.new scopes.new) }
    ensures left { IfOk result (λ w. IsLeft nodes.now w frames.new) }
{
    match jump {
        Some(jump) => {
            jump_to(frames, nodes, scopes, jump)?;
            Ok(goes(frames, nodes, scopes))
        }
        None => Ok(goes(frames, nodes, scopes)),
    }
}

/// The jump of a node's `next`.
pub(crate) fn jump(
    alloc: Global,
    frames: &mut Frames,
    nodes: &[Node],
    scopes: &mut Scopes,
    n: u32,
) -> Result<Went, OutOfMemory>
    ghost around: { Around }
    requires tells { IsTableOf around.spots nodes.now }
    requires stands { Stands around nodes.now frames.old scopes.old }
    requires jump { IsJump around.spots nodes.now n (inner frames.old) }
    ensures moved { IfOk result (λ w. MovesBy around
        (λ s l. leave.jumps s (unwrap_or (part_next (part_at around.spots n)) [])
        (control_of around frames.old) l)
        (held_by around frames.old scopes.old) w frames.new scopes.new) }
    ensures stands { OnOk result (Stands around nodes.now frames.new scopes.new) }
    ensures left { IfOk result (λ w. IsLeft nodes.now w frames.new) }
{
    let node = &nodes[n as usize];
    let Some(next) = &node.next else {
        unreachable!()
    };
    let next = next.as_str();
    if next == "end" {
        returns(alloc, nodes, frames, scopes, Value::Null)
    } else if next == "continue" {
        Ok(go_on_loop(frames, nodes, scopes))
    } else if next == "break" {
        Ok(end_loop(frames, nodes, scopes))
    } else {
        go_to(frames, nodes, scopes, node.jump)
    }
}
