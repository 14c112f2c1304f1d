// The beginning of parallel steps.
ghost use Rattle.std.specs.Prelude.{◌≡◌, IfOk, OnOk};
ghost use Rattle.wf_frames.specs.Built.{IsTableOf};
ghost use Rattle.wf_frames.specs.Fits.{IsParallel};
ghost use Rattle.wf_frames.specs.Owned.{Around, control_of, held_by};
ghost use Rattle.wf_frames.specs.Stands.{Stands};
ghost use Rattle.wf_frames.specs.Steps.{forks_by};
ghost use Rattle.wf_model.specs.Spots.{part_at, part_body};
ghost use Rattle.wf_model.specs.declared.node.ParallelNode as parallel_node;
ghost use Rattle.wf_moves.specs.Tasks.{IsLeftSo, SleepsBy};

use crate::finish::{Awaits, Done, done_of};
use crate::raising::{fails, raises_tag};
use crate::wait::Joining;
use std::alloc::Global;
use wf_ast::boxed;
use wf_frames::{Facts, Fork, Frames, seen, work_of};
use wf_model::Node;
use wf_scope::Scopes;
use wf_value::{OutOfMemory, Tag};

/// How many branches of one parallel step may run at once.
const RUNNING_LIMIT: u32 = 20;

/// The task enters the parallel step of a node. In a task that may stand in none more nothing is evaluated, and an error is raised; so is an
/// error in what a loop goes over.
pub(crate) fn fork(
    alloc: Global,
    nodes: &[Node],
    n: u32,
    frames: &mut Frames,
    scopes: &mut Scopes,
    facts: &Facts,
) -> Result<Done, OutOfMemory>
    ghost around: { Around }
    requires tells { IsTableOf around.spots nodes.now }
    requires stands { Stands around nodes.now frames.old scopes.old }
    requires parallel { (p : parallel_node.ParallelNode) × IsParallel nodes.now n p }
    ensures moved { IfOk result (λ d. SleepsBy around facts.entry.now
        (λ s l. forks_by s (part_body (part_at around.spots n)) (control_of around frames.old) l)
        (held_by around frames.old scopes.old) d frames.new scopes.new) }
    ensures stands { OnOk result (Stands around nodes.now frames.new scopes.new) }
    ensures left { IfOk result (λ d. IsLeftSo nodes.now d frames.new) }
{
    if !facts.deeper {
        return Ok(done_of(raises_tag(alloc, Tag::ParallelNestingError)?));
    }
    let look = seen(frames, scopes, facts);
    match work_of(alloc, nodes, n, &look, facts.now) {
        Ok(forked) => {
            let joining = boxed(
                alloc,
                Joining {
                    node: n,
                    left: forked.work,
                    next: 0,
                },
            )?;
            let fork = Fork {
                total: forked.total,
                limit: RUNNING_LIMIT,
            };
            Ok(Done::Awaits(boxed(alloc, Awaits::Forks(fork, joining))?))
        }
        Err(raise) => Ok(done_of(fails(alloc, raise)?)),
    }
}
