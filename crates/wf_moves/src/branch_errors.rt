// The error of a parallel step whose branches have failed.
ghost use Rattle.std.specs.Prelude.{◌≡◌, ◌≤◌, IfOk, [], ◌∷◌, List as Seq, codes, true};
ghost use Rattle.wf_branches.specs.Views.{errors_view};
ghost use Rattle.wf_frames.specs.Built.{IsTableOf};
ghost use Rattle.wf_frames.specs.Fits.{IsParallel};
ghost use Rattle.wf_frames.specs.Forks.{parallel_at};
ghost use Rattle.wf_model.specs.Move.{error_list, name_of};
ghost use Rattle.wf_model.specs.Spots.{Spot};
ghost use Rattle.wf_model.specs.declared.node.ParallelNode as parallel;
ghost use Rattle.wf_value.specs.Data.{depth, list, items_of, map, no_pairs, pair};
ghost use Rattle.wf_value.specs.Errors.{error_with, nested_error, tag_message};
ghost use Rattle.wf_value.specs.Plain.{plain};
ghost use Rattle.wf_value.specs.declared.Tag.TheVariants.{UnhandledBranchError};

use crate::task::Task;
use crate::wait::Wait;
use std::alloc::Global;
use wf_frames::{map_of, parallel_node};
use wf_model::{Node, WorkNode};
use wf_value::{List, MAX_DEPTH, Map, OutOfMemory, Tag, Text, Value};

/// The name of a branch, or the number of an iteration as a text.
fn branch_name(alloc: Global, nodes: &[Node], n: u32, number: u32) -> Result<Text, OutOfMemory>
    ghost ns: { Seq Spot }
    requires tells { IsTableOf ns nodes.now }
    requires parallel { (p : parallel.ParallelNode) × IsParallel nodes.now n p }
    ensures { IfOk result (λ t. t ≡ name_of (parallel_at ns n) number) }
{
    let body = parallel_node(nodes, n);
    match &body.work {
        WorkNode::Branches(branches) => {
            let branches = branches.as_slice();
            let number = number as usize;
            if number < branches.len() {
                nodes[branches[number] as usize].name.copy()
            } else {
                Text::new(alloc, "")
            }
        }
        WorkNode::Loop(_) => {
            let text = format!(in alloc; "{number}")?;
            Text::new(alloc, text.as_str())
        }
    }
}

/// What one that has failed tells: a map from its name to its error.
fn branch_error(
    alloc: Global,
    nodes: &[Node],
    n: u32,
    failed: &(u32, Value),
) -> Result<Value, OutOfMemory>
    ghost ns: { Seq Spot }
    requires tells { IsTableOf ns nodes.now }
    requires parallel { (p : parallel.ParallelNode) × IsParallel nodes.now n p }
    ensures { IfOk result (λ v. plain v ≡ map (pair (name_of (parallel_at ns n) failed.now.0)
        (plain failed.now.1) no_pairs)) }
{
    let (number, error) = failed;
    let name = branch_name(alloc, nodes, n, *number)?;
    let mut pairs = Map::new(alloc)?;
    pairs.insert(name, error.copy(alloc)?)?;
    Ok(Value::Map(pairs))
}

/// What each that has failed tells, in order.
#[tactic(auto, using(crate::proofs::Failing::one_more, crate::proofs::Failing::one_next))]
fn branch_errors(
    alloc: Global,
    nodes: &[Node],
    n: u32,
    errors: &[(u32, Value)],
) -> Result<List, OutOfMemory>
    ghost ns: { Seq Spot }
    requires tells { IsTableOf ns nodes.now }
    requires parallel { (p : parallel.ParallelNode) × IsParallel nodes.now n p }
    ensures { IfOk result (λ l. l ≡ error_list (parallel_at ns n) (errors_view errors.now)) }
{
    let mut branches = List::new(alloc)?;
    for failed in errors {
        branches.push(branch_error(alloc, nodes, n, failed)?)?;
    }
    Ok(branches)
}

/// The error of a parallel step with these errors of its branches.
fn unhandled(alloc: Global, branches: List) -> Result<Value, OutOfMemory>
    ensures { IfOk result (λ v. plain v ≡ error_with UnhandledBranchError
        (tag_message UnhandledBranchError) ((codes "branches", list (items_of branches)) ∷ [])) }
{
    let mut tags = List::new(alloc)?;
    tags.push(Value::Text(Text::new(alloc, Tag::UnhandledBranchError.name())?))?;
    let message = Text::new(alloc, Tag::UnhandledBranchError.message())?;
    let mut pairs = Map::new(alloc)?;
    pairs.insert(Text::new(alloc, "branches")?, Value::List(branches))?;
    pairs.insert(Text::new(alloc, "tags")?, Value::List(tags))?;
    pairs.insert(Text::new(alloc, "message")?, Value::Text(message))?;
    Ok(Value::Map(pairs))
}

/// The error, or a ResourceLimitError where it nests too deep.
fn nested(alloc: Global, error: Value) -> Result<Value, OutOfMemory>
    ensures error { IfOk result (λ v. plain v ≡ nested_error (plain error)) }
    ensures shallow { IfOk result (λ v. depth (plain v) ≤ 100) }
{
    if error.depth() <= MAX_DEPTH {
        Ok(error)
    } else {
        map_of(alloc, Tag::ResourceLimitError)
    }
}

impl Task {
    ghost use Rattle.wf_moves.specs.Branches.{error_by};
    ghost use Rattle.wf_moves.specs.Waits.{CanGoOn, is_joining};

    /// The error of the parallel step in which it stands, whose branches have kept these errors: each by its branch's number, in their
    /// order. An error that nests deeper than 100 is a ResourceLimitError.
    pub fn join_error(&self, nodes: &[Node], errors: &[(u32, Value)]) -> Result<Value, OutOfMemory>
        ghost ns: { Seq Spot }
        requires tells { IsTableOf ns nodes.now }
        requires going { CanGoOn nodes.now self.now }
        requires joins { is_joining self.now.wait ≡ true }
        ensures error { IfOk result (λ e. plain e
            ≡ error_by ns self.now.wait (errors_view errors.now)) }
        ensures shallow { IfOk result (λ e. depth (plain e) ≤ 100) }
    {
        let Wait::Joining(joining) = &self.wait else {
            unreachable!()
        };
        let branches = branch_errors(self.alloc, nodes, joining.node, errors)?;
        nested(self.alloc, unhandled(self.alloc, branches)?)
    }
}
