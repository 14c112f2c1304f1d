// What steps log.
ghost use Rattle.std.specs.Prelude.{◌≤◌, IfOk, OnOk};
ghost use Rattle.wf_frames.specs.Owned.{Around, control_of, held_by};
ghost use Rattle.wf_frames.specs.Stands.{Stands};
ghost use Rattle.wf_moves.specs.Tasks.{IsLeftSo, LogsBy, Names};
ghost use Rattle.wf_model.specs.Spots.{part_at, part_body};
ghost use Rattle.wf_frames.specs.Built.{IsLog, IsTableOf};
ghost use Rattle.wf_frames.specs.Steps.{calls_by};
ghost use Rattle.wf_value.specs.Data.{pairs_depth, pairs_of};

use crate::back::give;
use crate::finish::{Awaits, Done, End, done_of};
use crate::raising::fails;
use crate::sending::Sending;
use std::alloc::Global;
use wf_ast::boxed;
use wf_frames::Frames;
use wf_model::Node;
use wf_scope::Scopes;
use wf_sys_ask::entry_of;
use wf_value::{Map, OutOfMemory, Value};

/// How a task stands behind what it has logged: it goes on, or waits for its next try, or has ended.
#[derive(Drop)]
pub enum Behind {
    Goes,
    Ended(End),
}

/// The log of a step's call, with its arguments; null goes into the call's result. An error in them is raised, and nothing is logged.
pub(crate) fn logs(
    alloc: Global,
    nodes: &[Node],
    n: u32,
    args: &Map,
    frames: &mut Frames,
    scopes: &mut Scopes,
    sending: &Sending,
) -> Result<Done, OutOfMemory>
    ghost around: { Around }
    requires tells { IsTableOf around.spots nodes.now }
    requires stands { Stands around nodes.now frames.old scopes.old }
    requires names { Names nodes.now n (IsLog around.flows) }
    requires shallow { pairs_depth (pairs_of args.now) ≤ 100 }
    ensures moved { IfOk result (λ d. LogsBy around sending.now
        (λ s l. calls_by s (part_body (part_at around.spots n)) (pairs_of args.now)
        (control_of around frames.old) l)
        (held_by around frames.old scopes.old) d frames.new scopes.new) }
    ensures stands { OnOk result (Stands around nodes.now frames.new scopes.new) }
    ensures left { IfOk result (λ d. IsLeftSo nodes.now d frames.new) }
{
    match entry_of(alloc, args, sending.logged) {
        Ok(entry) => {
            let entry = boxed(alloc, entry)?;
            let went = give(alloc, nodes, Some(n), Value::Null, frames, scopes)?;
            let awaits = boxed(alloc, Awaits::Logged(entry, went))?;
            Ok(Done::Awaits(awaits))
        }
        Err(raise) => Ok(done_of(fails(alloc, raise)?)),
    }
}
