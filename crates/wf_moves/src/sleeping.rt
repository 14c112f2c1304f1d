// Sleeps.
ghost use Rattle.std.specs.Prelude.{IfOk, OnOk};
ghost use Rattle.wf_eval.specs.Answers.{Answers};
ghost use Rattle.wf_frames.specs.Owned.{Around, control_of, held_by};
ghost use Rattle.wf_frames.specs.Stands.{Stands};
ghost use Rattle.wf_moves.specs.Naps.{nap_due};
ghost use Rattle.wf_moves.specs.Tasks.{IsLeftSo, Names, SleepsBy};
ghost use Rattle.wf_model.specs.Spots.{part_at, part_body};
ghost use Rattle.wf_frames.specs.Built.{IsNap, IsTableOf};
ghost use Rattle.wf_frames.specs.Steps.{calls_by};
ghost use Rattle.wf_value.specs.Data.{pairs_of};

use crate::finish::{Awaits, Done, done_of};
use crate::raising::fails;
use crate::wait::Wait;
use std::alloc::Global;
use wf_ast::boxed;
use wf_frames::{Facts, Frames, Nap};
use wf_model::Node;
use wf_scope::Scopes;
use wf_sys_ask::{sleep_due, until_due};
use wf_value::{Map, OutOfMemory, Raise};

/// When a sleep ends that begins at a reading.
fn nap_due(alloc: Global, nap: Nap, args: &Map, now: u64) -> Result<u64, Raise>
    ensures { Answers (λ n. n) result (nap_due nap now (pairs_of args.now)) }
{
    match nap {
        Nap::For => sleep_due(args, now),
        Nap::Until => until_due(alloc, args),
    }
}

/// The task sleeps behind a step's call, with its arguments. An error in them is raised. A sleep begins at the reading that the step sees,
/// and one until a moment that has passed is due at once.
pub(crate) fn sleeps(
    alloc: Global,
    nodes: &[Node],
    n: u32,
    nap: Nap,
    args: &Map,
    frames: &mut Frames,
    scopes: &mut Scopes,
    facts: &Facts,
) -> Result<Done, OutOfMemory>
    ghost around: { Around }
    requires tells { IsTableOf around.spots nodes.now }
    requires stands { Stands around nodes.now frames.old scopes.old }
    requires names { Names nodes.now n (IsNap around.flows nap) }
    ensures moved { IfOk result (λ d. SleepsBy around facts.entry.now
        (λ s l. calls_by s (part_body (part_at around.spots n)) (pairs_of args.now)
        (control_of around frames.old) l)
        (held_by around frames.old scopes.old) d frames.new scopes.new) }
    ensures stands { OnOk result (Stands around nodes.now frames.new scopes.new) }
    ensures left { IfOk result (λ d. IsLeftSo nodes.now d frames.new) }
{
    match nap_due(alloc, nap, args, facts.now) {
        Ok(due) => {
            let awaits = boxed(alloc, Awaits::Waits(Wait::Sleep { due, node: n }))?;
            Ok(Done::Awaits(awaits))
        }
        Err(raise) => Ok(done_of(fails(alloc, raise)?)),
    }
}
