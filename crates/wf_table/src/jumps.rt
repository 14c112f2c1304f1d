// Where nodes jump.
ghost use Rattle.std.specs.Prelude.{◌≡◌, ℕ, List, Option, Some, IfOk, OnOk, length, map, slice_get};
ghost use Rattle.wf_ast.specs.Tree.{Flow};
ghost use Rattle.wf_model.specs.NodeKinds.{node_view};
ghost use Rattle.wf_table.specs.Made.{views_for};
ghost use Rattle.wf_table.specs.Named.{Finds, below, depth_of, first_named, number_of, numbers_of, outer_of};
ghost use Rattle.wf_model.specs.Spots.{owners_at, spots};
ghost use Rattle.wf_model.specs.Table.{EachLeads, Leads, NextLeads, kind_list};
ghost use Rattle.wf_value.specs.Pairs.{Text as Bytes};

use crate::names::{Names, names_of};
use std::alloc::Global;
use wf_model::grow::add;
use wf_model::{Jump, Node};
use wf_value::OutOfMemory;

/// Puts where each node jumps.
pub(crate) fn set_jumps(alloc: Global, nodes: &mut Vec<Node>) -> Result<(), OutOfMemory>
    ensures views { OnOk result (map node_view nodes.new.items ≡ map node_view nodes.old.items) }
    ensures jumps { OnOk result ((fs : List Flow)
        → map node_view nodes.old.items ≡ views_for 0 (spots fs)
        → EachLeads (spots fs) nodes.new.items) }
{
    let lists = all_names(alloc, nodes.as_slice())?;
    for index in 0..nodes.len() {
        let jump = jump_of(nodes.as_slice(), lists.as_slice(), &nodes[index]);
        nodes[index].jump = jump;
    }
    Ok(())
}

/// The names of the steps of each node's list.
fn all_names(alloc: Global, nodes: &[Node]) -> Result<Vec<Names>, OutOfMemory>
    ensures long { IfOk result (λ lists. length lists.items ≡ length nodes.now) }
    ensures finds { IfOk result (λ lists. Finds (map node_view nodes.now) lists.items) }
{
    let mut lists = Vec::new(alloc);
    for node in nodes {
        add(&mut lists, list_names(alloc, nodes, node)?)?;
    }
    Ok(lists)
}

/// The names of the steps of a node's list.
fn list_names(alloc: Global, nodes: &[Node], node: &Node) -> Result<Names, OutOfMemory>
    ensures { IfOk result (λ names. (x : Bytes)
        → number_of names x ≡ first_named (map node_view nodes.now) x
        (numbers_of (kind_list (node_view node.now).kind))) }
{
    match node.kind.block() {
        None => Ok(Names::new(alloc)),
        Some(block) => names_of(alloc, nodes, block.steps.as_slice()),
    }
}

/// Where a node jumps.
fn jump_of(nodes: &[Node], lists: &[Names], node: &Node) -> Option<Jump>
    ensures { (fs : List Flow) (i : ℕ) → map node_view nodes.now ≡ views_for 0 (spots fs)
        → length lists.now ≡ length nodes.now → Finds (map node_view nodes.now) lists.now
        → slice_get nodes.now i ≡ Some node.now
        → NextLeads (spots fs) (map node_view nodes.now) node.now.next result
        (owners_at (spots fs) i) }
{
    match &node.next {
        None => None,
        Some(name) => jump_to(nodes, lists, node, name.as_str()),
    }
}

/// Where a jump from a node leads: into the first of the lists around it, innermost first, that has a step of the name.
fn jump_to(nodes: &[Node], lists: &[Names], node: &Node, name: &str) -> Option<Jump>
    ensures { (fs : List Flow) (i : ℕ) → map node_view nodes.now ≡ views_for 0 (spots fs)
        → length lists.now ≡ length nodes.now → Finds (map node_view nodes.now) lists.now
        → slice_get nodes.now i ≡ Some node.now
        → Leads (spots fs) (map node_view nodes.now) name.now result (owners_at (spots fs) i) }
{
    let mut next = node.owner;
    while let Some(owner) = next {
        let Some(around) = nodes.get(owner as usize) else {
            return None;
        };
        let Some(names) = lists.get(owner as usize) else {
            return None;
        };
        if let Some(to) = names.find(name) {
            let keep = depth(around);
            return Some(Jump { keep, to });
        }
        next = outside(around, owner);
    }
    None
}

/// How many lists a jump from inside a node's own list may reach.
fn depth(node: &Node) -> u32
    ensures { result ≡ depth_of (kind_list (node_view node.now).kind) }
{
    match node.kind.block() {
        None => 0,
        Some(block) => block.depth,
    }
}

/// Whose list a jump may reach from a node's own list.
fn outer(node: &Node) -> Option<u32>
    ensures { result ≡ outer_of (node_view node.now) }
{
    if node.kind.is_left() {
        node.owner
    } else {
        None
    }
}

/// The same, of the node of this number. A number that isn't less is none.
fn outside(node: &Node, number: u32) -> Option<u32>
    ensures { result ≡ below number (outer_of (node_view node.now)) }
{
    match outer(node) {
        Some(outer) if outer < number => Some(outer),
        _ => None,
    }
}
