// Nodes by their numbers.
ghost use Rattle.std.specs.List.{list_all};
ghost use Rattle.std.specs.Prelude.{◌≡◌, Some, is_some, slice_get, take, true};
ghost use Rattle.wf_frames.specs.Fits.{IsLoop, IsParallel, IsTry, entries_at, has_next, list_at, view_at};
ghost use Rattle.wf_frames.specs.Built.{has_any, has_steps, is_begun, is_node_built, is_table_built, work_built};
ghost use Rattle.wf_model.specs.NodeKinds.{block_view};
ghost use Rattle.wf_model.specs.declared.node.LoopNode as loop_node;
ghost use Rattle.wf_model.specs.declared.node.ParallelNode as parallel_node;
ghost use Rattle.wf_model.specs.declared.node.TryNode as try_node;

use wf_ast::Postfix;
use wf_model::{Block, LoopNode, Node, NodeKind, ParallelNode, TryNode, WorkNode};

/// Whether the steps of this table are built: no parallel one has a limit of its own, and each list that runs in parallel has a step. What
/// stands under a `try` says nothing of what is next.
pub fn are_built(nodes: &[Node]) -> bool
    ensures { result ≡ is_table_built nodes.now }
{
    for node in nodes {
        if !is_built(nodes, node) {
            return false;
        }
    }
    true
}

fn is_built(nodes: &[Node], node: &Node) -> bool
    ensures { result ≡ is_node_built nodes.now node.now }
{
    match &node.kind {
        NodeKind::Parallel(body) => body.limit.is_none() && is_work_built(nodes, &body.work),
        NodeKind::Try(tried) => !has_next(nodes, tried.body),
        NodeKind::Flow(_) | NodeKind::Branch(_) | NodeKind::Block(_) | NodeKind::For(_) => true,
        NodeKind::Nothing | NodeKind::Assign(_) | NodeKind::Switch(_) | NodeKind::Raise(_) => true,
        NodeKind::Return(_) | NodeKind::Arm(_) | NodeKind::Entry(_) | NodeKind::Call(_) => true,
    }
}

/// Whether each list that runs in parallel has a step.
fn is_work_built(nodes: &[Node], work: &WorkNode) -> bool
    ensures { result ≡ work_built nodes.now work.now }
{
    match work {
        WorkNode::Branches(branches) => have_steps(nodes, branches.as_slice()),
        WorkNode::Loop(repeated) => has_any(repeated.block.steps.as_slice()),
    }
}

/// Whether the nodes of these numbers are branches with steps.
fn have_steps(nodes: &[Node], branches: &[u32]) -> bool
    ensures { result ≡ list_all (has_steps nodes.now) branches.now }
{
    for branch in branches {
        if !has_steps(nodes, *branch) {
            return false;
        }
    }
    true
}

/// Whether the node of this number is a branch with a step.
fn has_steps(nodes: &[Node], n: u32) -> bool
    ensures { result ≡ has_steps nodes.now n }
{
    match nodes.get(n as usize) {
        Some(node) => is_begun(&node.kind),
        None => false,
    }
}

/// Whether a node of this kind is a branch with a step.
fn is_begun(kind: &NodeKind) -> bool
    ensures { result ≡ is_begun kind.now }
{
    match kind {
        NodeKind::Branch(block) => has_any(block.steps.as_slice()),
        _ => false,
    }
}

fn has_any(numbers: &[u32]) -> bool
    ensures { result ≡ has_any numbers.now }
{
    match numbers {
        [] => false,
        [_, ..] => true,
    }
}

/// Whether the node of this number says what is next.
fn has_next(nodes: &[Node], n: u32) -> bool
    ensures { result ≡ has_next (view_at nodes.now n) }
{
    match nodes.get(n as usize) {
        Some(node) => node.next.is_some(),
        None => false,
    }
}

/// The list of steps that a node owns.
#[tactic(auto, using(crate::proofs::Parts::list_within))]
pub fn block(nodes: &[Node], n: u32) -> &Block
    requires { is_some (list_at nodes.now n) ≡ true }
    ensures { list_at nodes.now n ≡ Some (block_view result.now) }
{
    let node = &nodes[n as usize];
    match node.kind.block() {
        Some(block) => block,
        None => unreachable!(),
    }
}

/// The numbers of an assign's entries.
#[tactic(auto, using(crate::proofs::Parts::entries_within))]
pub fn entries(nodes: &[Node], n: u32) -> &[u32]
    requires { is_some (entries_at nodes.now n) ≡ true }
    ensures { entries_at nodes.now n ≡ Some result.now }
{
    let node = &nodes[n as usize];
    match &node.kind {
        NodeKind::Assign(entries) => entries.as_slice(),
        _ => unreachable!(),
    }
}

/// The number at a place among others, if there is one.
#[inline(always)]
pub(crate) fn number_at(numbers: &[u32], at: usize) -> Option<u32>
    ensures { result ≡ slice_get numbers.now at }
{
    if at < numbers.len() {
        Some(numbers[at])
    } else {
        None
    }
}

/// The loop that a node is.
#[tactic(auto, using(crate::proofs::Parts::loop_within))]
pub fn loop_node(nodes: &[Node], n: u32) -> &LoopNode
    requires { (b : loop_node.LoopNode) × IsLoop nodes.now n b }
    ensures { IsLoop nodes.now n result.now }
{
    let node = &nodes[n as usize];
    match &node.kind {
        NodeKind::For(body) => body,
        _ => unreachable!(),
    }
}

/// The `try` that a node is.
#[tactic(auto, using(crate::proofs::Parts::try_within))]
pub fn try_node(nodes: &[Node], n: u32) -> &TryNode
    requires { (t : try_node.TryNode) × IsTry nodes.now n t }
    ensures { IsTry nodes.now n result.now }
{
    let node = &nodes[n as usize];
    match &node.kind {
        NodeKind::Try(tried) => tried,
        _ => unreachable!(),
    }
}

/// The parallel step that a node is.
#[tactic(auto, using(crate::proofs::Parts::parallel_within))]
pub fn parallel_node(nodes: &[Node], n: u32) -> &ParallelNode
    requires { (p : parallel_node.ParallelNode) × IsParallel nodes.now n p }
    ensures { IsParallel nodes.now n result.now }
{
    let node = &nodes[n as usize];
    match &node.kind {
        NodeKind::Parallel(body) => body,
        _ => unreachable!(),
    }
}

/// The first codes, at most so many.
pub fn first_of(codes: &[Postfix], count: u32) -> &[Postfix]
    ensures { result.now ≡ take count codes.now }
{
    let (first, _) = codes.split_at(codes.len().min(count as usize));
    first
}
