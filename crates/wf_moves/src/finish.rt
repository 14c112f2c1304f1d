// How a task goes on: what has ended is left.
ghost use Rattle.std.specs.Prelude.{◌≡◌, IfOk, List, Some};
ghost use Rattle.wf_frames.specs.Foreseen.{Foresees};
ghost use Rattle.wf_frames.specs.Frames.{inner};
ghost use Rattle.wf_frames.specs.Owned.{Around, beside, control_of, local_of};
ghost use Rattle.wf_frames.specs.Stands.{Stands};
ghost use Rattle.wf_model.specs.Config.{Item};
ghost use Rattle.wf_model.specs.Local as local;
ghost use Rattle.wf_model.specs.Local.{Local, Moved, Scene};
ghost use Rattle.wf_frames.specs.Built.{IsTableOf};
ghost use Rattle.wf_moves.specs.Moved.{IsLeft, IsMove, IsSettled, IsThrough, turned_in};
ghost use Rattle.wf_moves.specs.Tasks.{IsDone, IsLeftSo};
ghost use Rattle.wf_frames.specs.declared.frames.Frames.{Frames};
ghost use Rattle.wf_model.specs.declared.node.Node.{Node};

use crate::sending::Sent;
use crate::wait::{Joining, Wait};
use std::alloc::Global;
use wf_ast::boxed;
use wf_frames::{Fork, Frames, Next, leave, next_in};
use wf_model::Node;
use wf_scope::Scopes;
use wf_sys_ask::Logged;
use wf_value::{OutOfMemory, Value};

/// How a task has ended.
#[derive(Drop)]
pub enum End {
    Value(Value),
    Error(Value),
}

/// What few moves give. An error goes outward only behind the move (`lead`), and so does the answer of a predicate.
#[derive(Drop)]
pub(crate) enum Turned {
    Ended(End),
    /// This error goes outward.
    Raises(Value),
    /// The workflow that was asked about an error returns this. Its call is the innermost frame.
    Says(bool),
}

/// What a move gives. Nearly all go on, so the rest stands in a box: what is handed on is small.
#[derive(Drop)]
pub(crate) enum Went {
    Goes,
    /// The task has ended behind its last step.
    Ends,
    Turned(Box<Turned>),
}

/// A move gives one of the few. It stands apart from what every move runs.
#[cold]
#[inline(never)]
pub(crate) fn turns(alloc: Global, by: Turned) -> Result<Went, OutOfMemory>
    ensures { IfOk result (λ w. turned_in w ≡ Some by) }
{
    Ok(Went::Turned(boxed(alloc, by)?))
}

/// What a task waits for behind a move, or what the move has logged.
#[derive(Drop)]
pub(crate) enum Awaits {
    /// The answer to this request.
    Sent(Box<Sent>, Wait),
    /// This was logged, and the move gives this then.
    Logged(Box<Logged>, Went),
    Waits(Wait),
    /// The branches of a parallel step, of which there are so many.
    Forks(Fork, Box<Joining>),
}

/// What a move of any kind gives: as `Went`, or what few of them wait for, in a box too.
#[derive(Drop)]
pub(crate) enum Done {
    Goes,
    /// The task has ended behind its last step.
    Ends,
    Turned(Box<Turned>),
    Awaits(Box<Awaits>),
}

/// What a move gives that waits for nothing.
#[inline(always)]
pub(crate) fn done_of(went: Went) -> Done
    ensures moved { (a : Around) (s : Scene) (m : Moved) (l : Local) → IsMove s m went l
        → IsDone a s m result l }
    ensures left { (nodes : List Node) (fs : Frames) → IsLeft nodes went fs
        → IsLeftSo nodes result fs }
{
    match went {
        Went::Goes => Done::Goes,
        Went::Ends => Done::Ends,
        Went::Turned(turned) => Done::Turned(turned),
    }
}

/// What has ended is left, and what is next then is kept.
#[inline(always)]
pub(crate) fn settle(frames: &mut Frames, nodes: &[Node], scopes: &mut Scopes)
    ghost around: { Around }
    requires tells { IsTableOf around.spots nodes.now }
    requires stands { Stands around nodes.now frames.old scopes.old }
    ensures stands { Stands around nodes.now frames.new scopes.new }
    ensures settled { IsSettled nodes.now (inner frames.new) }
    ensures next { Foresees nodes.now frames.new }
    ensures left { (c : List Item)
        → local.settle (control_of around frames.old) (beside c around frames.old scopes.old)
        ≡ local_of around frames.new scopes.new }
{
    while let Some(frame) = frames.top() {
        if let Some(next) = next_in(frame, nodes) {
            frames.set_next(next);
            return;
        }
        leave(frames, scopes);
    }
    frames.set_next(Next::Nothing);
}

/// The task goes on behind what has ended, or has ended itself.
#[inline(always)]
pub(crate) fn goes(frames: &mut Frames, nodes: &[Node], scopes: &mut Scopes) -> Went
    ghost around: { Around }
    requires tells { IsTableOf around.spots nodes.now }
    requires stands { Stands around nodes.now frames.old scopes.old }
    ensures stands { Stands around nodes.now frames.new scopes.new }
    ensures left { IsLeft nodes.now result frames.new }
    ensures through { IsThrough result }
    ensures moved { (s : Scene) (c : List Item)
        → IsMove s
        (local.goes (control_of around frames.old) (beside c around frames.old scopes.old))
        result (local_of around frames.new scopes.new) }
{
    settle(frames, nodes, scopes);
    match frames.top() {
        None => Went::Ends,
        Some(_) => Went::Goes,
    }
}
