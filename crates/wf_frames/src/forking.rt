// What a parallel step goes over.
ghost use Rattle.std.specs.Prelude.{◌≡◌, ◌+ℤ◌, List, IfOk, pos, suc, true};
ghost use Rattle.wf_branches.specs.Steps.{above, count_of, values_count};
ghost use Rattle.wf_eval.specs.Answers.{Answers};
ghost use Rattle.wf_eval.specs.Sight.{seen};
ghost use Rattle.wf_frames.specs.Built.{IsTableOf};
ghost use Rattle.wf_frames.specs.Fits.{IsParallel};
ghost use Rattle.wf_frames.specs.Forks.{is_loop_work, is_work_at, parallel_at, work_view};
ghost use Rattle.wf_frames.specs.Frames.{left_view};
ghost use Rattle.wf_model.specs.Config.{ValuesLeft, counted_left, int_min};
ghost use Rattle.wf_model.specs.Move.{work};
ghost use Rattle.wf_model.specs.Spots.{Spot};
ghost use Rattle.wf_model.specs.declared.node.ParallelNode as parallel_node;
ghost use Rattle.wf_ast.specs.Tree.{ParallelBody};

use crate::Left;
use crate::nodes::parallel_node;
use crate::step::left_of;
use std::alloc::Global;
use wf_eval::Look;
use wf_model::{Node, WorkNode};
use wf_value::{OutOfMemory, Raise};

/// A range goes at most so far behind its first number.
const MORE: i64 = 4_294_967_294;

/// How many branches or iterations a parallel step has, and how many of them may run at once.
#[derive(Debug, Clone, Copy, PartialEq, Eq)]
pub struct Fork {
    pub total: u32,
    pub limit: u32,
}

/// What a parallel step has left: its branches from the next one on, or these values.
#[derive(Drop)]
pub enum Work {
    Branches,
    Values(Left),
}

/// What a parallel step goes over, and how many that are.
#[derive(Drop)]
pub struct Forked {
    pub work: Work,
    pub total: u32,
}

/// A count as a number of a task. No step has more.
fn narrow(count: u64) -> Result<u32, OutOfMemory>
    ensures { IfOk result (λ n. n ≡ count) }
{
    match u32::try_from(count) {
        Ok(n) => Ok(n),
        Err(_) => Err(OutOfMemory),
    }
}

/// Where a range ends that goes over at most 4,294,967,295 numbers.
#[tactic(auto, using(crate::proofs::Counting::cut_here, crate::proofs::Counting::cut_off))]
fn cut(first: i64, last: i64) -> i64
    ensures { result ≡ int_min last (first +ℤ pos 4294967294) }
{
    if first > i64::MAX - MORE {
        return last;
    }
    let most = first + MORE;
    if last <= most { last } else { most }
}

/// How many numbers of a range there are above its first.
fn above(first: i64, last: i64) -> u64
    ensures { result ≡ above first last }
{
    if first < last {
        last.abs_diff(first)
    } else {
        0
    }
}

/// Some values, of a range at most 4,294,967,295, and how many they are.
fn counted(left: Left) -> Result<Forked, OutOfMemory>
    ensures values { IfOk result (λ f. (p : ParallelBody)
        → work_view p 0 f.work ≡ ValuesLeft (counted_left (left_view left))) }
    ensures of_loop { IfOk result (λ f. is_loop_work f.work ≡ true) }
    ensures total { IfOk result (λ f. f.total ≡ values_count (counted_left (left_view left))) }
{
    match left {
        Left::Nothing => Ok(Forked {
            work: Work::Values(Left::Nothing),
            total: 0,
        }),
        Left::Items(list, at) => {
            let total = narrow(list.items().len().saturating_sub(at) as u64)?;
            Ok(Forked {
                work: Work::Values(Left::Items(list, at)),
                total,
            })
        }
        Left::Range(first, last) => {
            let last = cut(first, last);
            let above = above(first, last);
            let Some(count) = above.checked_add(1) else {
                return Err(OutOfMemory);
            };
            let total = narrow(count)?;
            Ok(Forked {
                work: Work::Values(Left::Range(first, last)),
                total,
            })
        }
    }
}

/// What the parallel step of a node goes over: its branches, of which nothing is evaluated, or the values of its loop.
pub fn work_of<K: Look>(
    alloc: Global,
    nodes: &[Node],
    n: u32,
    look: &K,
    now: u64,
) -> Result<Forked, Raise>
    ghost ns: { List Spot }
    requires tells { IsTableOf ns nodes.now }
    requires parallel { (p : parallel_node.ParallelNode) × IsParallel nodes.now n p }
    ensures work { Answers (λ f. work_view (parallel_at ns n) 0 f.work) result
        (work (seen (K.sight look.now) now) (parallel_at ns n)) }
    ensures at { IfOk result (λ f. is_work_at nodes.now n f.work ≡ true) }
    ensures total { IfOk result (λ f. f.total ≡ count_of (work_view (parallel_at ns n) 0 f.work)) }
{
    let body = parallel_node(nodes, n);
    match &body.work {
        WorkNode::Branches(branches) => {
            let total = narrow(branches.len() as u64)?;
            Ok(Forked {
                work: Work::Branches,
                total,
            })
        }
        WorkNode::Loop(repeated) => {
            let node = &nodes[n as usize];
            match left_of(alloc, &repeated.over, node.codes.items(), look, now) {
                Ok(left) => Ok(counted(left)?),
                Err(raise) => Err(raise),
            }
        }
    }
}
