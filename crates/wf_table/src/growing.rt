// Nodes that are added to a table.
ghost use Rattle.std.specs.Prelude.{◌≡◌, IfOk, ℕ, List, [], ◌∷◌, ◌++◌, length, map};
ghost use Rattle.wf_ast.specs.View.{entry_view, expr_view, template_view};
ghost use Rattle.wf_model.specs.Compiles.{Compiles, Reads, code_list};
ghost use Rattle.wf_model.specs.NodeKinds.{entry_by, kind_by, node_view};
ghost use Rattle.wf_table.specs.Made.{Adds, StandsIn, entry_numbers, leaf_view};
ghost use Rattle.wf_model.specs.Spots.{ArmAt, EntryAt, entries_spots, spot};
ghost use Rattle.wf_model.specs.declared.node.Node.{Node as TheNode};

use crate::around::Here;
use std::alloc::Global;
use wf_ast::{Entry, Expr, Template};
use wf_model::grow::{add, push};
use wf_model::{Codes, EntryNode, Node, NodeKind, shape_of};
use wf_name::Name;
use wf_value::{OutOfMemory, Text};

/// A place at the end, for a node that is put there when its parts are.
pub(crate) fn hold(alloc: Global, nodes: &mut Vec<Node>) -> Result<u32, OutOfMemory>
    ensures number { IfOk result (λ n. n ≡ length nodes.old.items) }
    ensures grown { IfOk result (λ n. (p : TheNode)
        × (nodes.new.items ≡ nodes.old.items ++ p ∷ [])) }
{
    let name = Text::new(alloc, "")?;
    let node = Node {
        kind: NodeKind::Nothing,
        codes: Codes::new(alloc),
        name,
        next: None,
        jump: None,
        owner: None,
    };
    push(nodes, node)
}

/// The node of an arm or an entry. Its name is the empty one.
fn leaf(here: Here, name: Text, kind: NodeKind, codes: Codes) -> Node
    ensures { name ≡ [] → node_view result ≡ leaf_view here.owner (kind_by (code_list codes) kind) }
{
    Node {
        kind,
        codes,
        name,
        next: None,
        jump: None,
        owner: here.owner,
    }
}

/// The node of an arm, but for its body.
pub(crate) fn arm(
    alloc: Global,
    nodes: &mut Vec<Node>,
    here: Here,
    condition: &Template,
) -> Result<u32, OutOfMemory>
    ensures number { IfOk result (λ n. n ≡ length nodes.old.items) }
    ensures adds { IfOk result (λ n. (os : List ℕ) → StandsIn here os
        → Adds nodes.old.items nodes.new.items
        (spot (ArmAt (template_view condition.now)) os ∷ [])) }
{
    let name = Text::new(alloc, "")?;
    let mut codes = Codes::new(alloc);
    let condition = shape_of(alloc, condition, &mut codes)?;
    push(nodes, leaf(here, name, NodeKind::Arm(condition), codes))
}

/// The nodes of entries, and their numbers.
pub(crate) fn entries(
    alloc: Global,
    nodes: &mut Vec<Node>,
    here: Here,
    entries: &[Entry],
) -> Result<Vec<u32>, OutOfMemory>
    ensures { IfOk result (λ v. (os : List ℕ) → StandsIn here os
        → (v.items ≡ entry_numbers (map entry_view entries.now) (length nodes.old.items))
        × Adds nodes.old.items nodes.new.items (entries_spots (map entry_view entries.now) os)) }
{
    let mut numbers = Vec::new(alloc);
    for entry in entries {
        add(&mut numbers, entry_node(alloc, nodes, here, entry)?)?;
    }
    Ok(numbers)
}

/// The node of an entry, and its number.
fn entry_node(
    alloc: Global,
    nodes: &mut Vec<Node>,
    here: Here,
    entry: &Entry,
) -> Result<u32, OutOfMemory>
    ensures number { IfOk result (λ n. n ≡ length nodes.old.items) }
    ensures adds { IfOk result (λ n. (os : List ℕ) → StandsIn here os
        → Adds nodes.old.items nodes.new.items (spot (EntryAt (entry_view entry.now)) os ∷ [])) }
{
    let name = Text::new(alloc, "")?;
    let mut codes = Codes::new(alloc);
    let form = entry_form(alloc, entry, &mut codes)?;
    push(nodes, leaf(here, name, NodeKind::Entry(form), codes))
}

/// What a node has of an entry.
fn entry_form(alloc: Global, entry: &Entry, codes: &mut Codes) -> Result<EntryNode, OutOfMemory>
    ensures { IfOk result (λ e. code_list codes.old ≡ []
        → Compiles (code_list codes.old) (code_list codes.new) (λ cs. entry_by cs e)
        (entry_view entry.now)) }
{
    let places = places(alloc, entry.target.places.items(), codes)?;
    let value = shape_of(alloc, &entry.value, codes)?;
    Ok(EntryNode {
        name: Name::of(entry.target.name.copy()?),
        places,
        text: entry.target.text.copy()?,
        value,
    })
}

/// The codes of places, and how many there are.
fn places(alloc: Global, places: &[Expr], codes: &mut Codes) -> Result<u32, OutOfMemory>
    ensures count { IfOk result (λ n. n ≡ length places.now) }
    ensures codes { IfOk result (λ n. Reads (code_list codes.old) (code_list codes.new)
        (map expr_view places.now)) }
{
    let Ok(count) = u32::try_from(places.len()) else {
        return Err(OutOfMemory);
    };
    for place in places {
        codes.add(alloc, place)?;
    }
    Ok(count)
}
