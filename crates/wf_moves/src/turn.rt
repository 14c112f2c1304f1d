// The turns of a loop.
ghost use Rattle.std.specs.Prelude.{◌≡◌, List, IfOk, OnOk, Some, true};
ghost use Rattle.wf_frames.specs.Frames.{control, inner};
ghost use Rattle.wf_frames.specs.Loops.{TakesTurn, is_at_loop};
ghost use Rattle.wf_frames.specs.Owned.{Around, control_of, held_by};
ghost use Rattle.wf_frames.specs.Stands.{Stands};
ghost use Rattle.wf_frames.specs.declared.frames.Frame.{Frame};
ghost use Rattle.wf_model.specs.Move.{moves};
ghost use Rattle.wf_frames.specs.Built.{IsTableOf};
ghost use Rattle.wf_moves.specs.Moved.{IsLeft, MovesBy};

use crate::finish::{Went, goes};
use crate::raising::raises_tag;
use std::alloc::Global;
use wf_frames::{Frame, Frames, Turn, enter, loop_node};
use wf_model::Node;
use wf_scope::Scopes;
use wf_value::{OutOfMemory, Tag};

/// The loop's next iteration, by the turn that it has taken.
#[inline(always)]
fn iterate(
    alloc: Global,
    nodes: &[Node],
    turn: Turn,
    frames: &mut Frames,
    scopes: &mut Scopes,
) -> Result<Went, OutOfMemory>
    ghost around: { Around }
    requires tells { IsTableOf around.spots nodes.now }
    requires stands { Stands around nodes.now frames.old scopes.old }
    requires taken { (old : List Frame) × TakesTurn (Some turn) old (inner frames.old) }
    ensures moved { IfOk result (λ w. (old : List Frame)
        → TakesTurn (Some turn) old (inner frames.old) → MovesBy around
        (λ s l. moves s (control around.spots old) l)
        (held_by around frames.old scopes.old) w frames.new scopes.new) }
    ensures stands { OnOk result (Stands around nodes.now frames.new scopes.new) }
    ensures left { IfOk result (λ w. IsLeft nodes.now w frames.new) }
{
    let Turn { node, value, index } = turn;
    let body = loop_node(nodes, node);
    let entered = enter(frames, scopes, &body.value, value, &body.index, index)?;
    let Some(layer) = entered else {
        frames.pop();
        return raises_tag(alloc, Tag::ResourceLimitError);
    };
    frames.push(Frame::Mark(layer))?;
    frames.push(Frame::Do(node, 0))?;
    Ok(goes(frames, nodes, scopes))
}

/// The next iteration of the loop that is the innermost frame, or its end. The frame goes on where it stands.
pub(crate) fn turn(
    alloc: Global,
    nodes: &[Node],
    frames: &mut Frames,
    scopes: &mut Scopes,
) -> Result<Went, OutOfMemory>
    ghost around: { Around }
    requires tells { IsTableOf around.spots nodes.now }
    requires stands { Stands around nodes.now frames.old scopes.old }
    requires at { is_at_loop (inner frames.old) ≡ true }
    ensures moved { IfOk result (λ w. MovesBy around
        (λ s l. moves s (control_of around frames.old) l)
        (held_by around frames.old scopes.old) w frames.new scopes.new) }
    ensures stands { OnOk result (Stands around nodes.now frames.new scopes.new) }
    ensures left { IfOk result (λ w. IsLeft nodes.now w frames.new) }
{
    match frames.turn(alloc)? {
        Some(turn) => iterate(alloc, nodes, turn, frames, scopes),
        None => {
            frames.pop();
            Ok(goes(frames, nodes, scopes))
        }
    }
}
