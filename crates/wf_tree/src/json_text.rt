// Trees from JSON (RFC 8259).
ghost use Rattle.std.specs.Prelude.{◌≡◌, ◌∷◌, IfOk, IfErr, List, Option, Some, reverse};
ghost use Rattle.serde_json.specs.View.{view, items_view, members_view};
ghost use Rattle.wf_value.specs.Json.{Reads};
ghost use Rattle.wf_value.specs.declared.path.PathPart.TheVariants.{Key, Index};
ghost use Rattle.wf_tree.specs.Faults.{IsFaultOf, IsReaderFault, IsTreeFault, IsNoTree};
ghost use Rattle.wf_tree.specs.Json.{IsTree, tree_of, items_tree, members_tree, behind, first_decimal, first_in_items, first_in_members};
ghost use Rattle.wf_tree.specs.Plain.{plain_tree};

use crate::json_depth::is_too_deep;
use crate::{Tree, TreeList, TreeMap};
use serde_json::{Map as Members, Value as Json};
use std::alloc::Global;
use wf_value::{OutOfMemory, Path, PathPart, Text};

/// Why a source is no tree. Of several faults the first in this order is told, and two never hold
/// together: see `reading_is_decided`.
#[derive(Drop)]
pub enum TreeFault {
    /// The source is no JSON text, or one whose lists and objects nest deeper than 127, or one with
    /// a number past every float.
    NotJson,
    /// A number is no whole number of 64 bits, or is not written as one: `1.0`, `1e2` and `-0` are
    /// decimals too. With the path of the first such number in the tree, where the pairs of a map
    /// stand in the order of their keys.
    Decimal(Path),
    /// Lists and objects nest deeper than 100.
    TooDeep,
    /// There is no memory.
    OutOfMemory,
}

impl From<OutOfMemory> for TreeFault {
    ghost use Rattle.wf_tree.specs.declared.json_text.TreeFault.TheVariants.{OutOfMemory};
    ghost use Rattle.std.specs.Prelude.{◌≡◌};

    ghost from_gives = { λ _ e. e ≡ OutOfMemory };

    fn from(_refused: OutOfMemory) -> TreeFault {
        TreeFault::OutOfMemory
    }
}

/// Why some JSON is no tree, while the path to it is built: its steps, the innermost first.
#[derive(Drop)]
enum NoTree {
    Decimal(Vec<PathPart>),
    OutOfMemory,
}

impl From<OutOfMemory> for NoTree {
    ghost use Rattle.wf_tree.specs.declared.json_text.NoTree.TheVariants.{OutOfMemory};
    ghost use Rattle.std.specs.Prelude.{◌≡◌};

    ghost from_gives = { λ _ e. e ≡ OutOfMemory };

    fn from(_refused: OutOfMemory) -> NoTree {
        NoTree::OutOfMemory
    }
}

/// The tree that some JSON says. A key that stands twice keeps its last tree, and what the earlier
/// ones held is not seen. No tree of JSON has a `Decimal`.
pub fn read_json(alloc: Global, src: &str) -> Result<Tree, TreeFault>
    ensures tree { IfOk result (λ t. IsTree src.now (plain_tree t)) }
    ensures fault { IfErr result (IsFaultOf src.now) }
{
    let json = json_of(alloc, src)?;
    let tree = whole_tree(alloc, &json)?;
    if is_too_deep(&json) {
        return Err(TreeFault::TooDeep);
    }
    Ok(tree)
}

fn json_of(alloc: Global, src: &str) -> Result<Json, TreeFault>
    ensures json { IfOk result (λ j. Reads src.now (view j)) }
    ensures fault { IfErr result (IsReaderFault src.now) }
{
    match Json::from_slice(alloc, src.as_bytes()) {
        Ok(json) => Ok(json),
        Err(e) => if e.is_memory() {
            Err(TreeFault::OutOfMemory)
        } else {
            Err(TreeFault::NotJson)
        },
    }
}

fn whole_tree(alloc: Global, json: &Json) -> Result<Tree, TreeFault>
    ensures tree { IfOk result (λ t. tree_of (view json.now) ≡ Some (plain_tree t)) }
    ensures fault { IfErr result (IsTreeFault (first_decimal (view json.now))) }
{
    match tree_at(alloc, json) {
        Ok(tree) => Ok(tree),
        Err(NoTree::Decimal(steps)) => Err(TreeFault::Decimal(path_of(alloc, steps)?)),
        Err(NoTree::OutOfMemory) => Err(TreeFault::OutOfMemory),
    }
}

/// The path of these steps, the innermost of which stands first.
fn path_of(alloc: Global, steps: Vec<PathPart>) -> Result<Path, OutOfMemory>
    ensures { IfOk result (λ p. p ≡ reverse steps.items) }
{
    let mut left = steps;
    let mut path = Path::new(alloc)?;
    while let Some(step) = left.pop() {
        path.push(step)?;
    }
    Ok(path)
}

#[cycle(read)]
fn tree_at(alloc: Global, json: &Json) -> Result<Tree, NoTree>
    ensures tree { IfOk result (λ t. tree_of (view json.now) ≡ Some (plain_tree t)) }
    ensures fault { IfErr result (IsNoTree (first_decimal (view json.now))) }
{
    match json {
        Json::Null => Ok(Tree::Null),
        Json::Bool(b) => Ok(Tree::Bool(*b)),
        Json::Number(n) => match n.as_i64() {
            Some(whole) => Ok(Tree::Int(whole)),
            None => Err(NoTree::Decimal(Vec::new(alloc))),
        },
        Json::String(s) => Ok(Tree::Text(Text::new(alloc, s.as_str())?)),
        Json::Array(items) => Ok(Tree::List(list_of(alloc, items)?)),
        Json::Object(members) => Ok(Tree::Map(map_of(alloc, members)?)),
    }
}

#[cycle(read)]
fn list_of(alloc: Global, items: &Vec<Json>) -> Result<TreeList, NoTree>
    ensures tree { IfOk result (λ ts. items_tree (items_view items.now.items) ≡ Some ts) }
    ensures fault { IfErr result (IsNoTree (first_in_items 0 (items_view items.now.items))) }
{
    let mut list = TreeList::new(alloc)?;
    for (i, json) in items.iter().enumerate() {
        let item = item_at(alloc, i as u64, json)?;
        list.push(item)?;
    }
    Ok(list)
}

#[cycle(read)]
fn map_of(alloc: Global, members: &Members<String, Json>) -> Result<TreeMap, NoTree>
    ensures tree { IfOk result (λ ps. members_tree (members_view members.now.entries) ≡ Some ps) }
    ensures fault { IfErr result (IsNoTree (first_in_members (members_view members.now.entries))) }
{
    let mut pairs = Vec::new(alloc);
    for (key, json) in members.iter() {
        let name = Text::new(alloc, key.as_str())?;
        let item = member_at(alloc, &name, json)?;
        let Ok(()) = pairs.push((name, item)) else {
            return Err(NoTree::OutOfMemory);
        };
    }
    Ok(TreeMap::of_pairs(pairs))
}

/// The tree of an item, where a fault counts from the list on.
#[cycle(read)]
fn item_at(alloc: Global, index: u64, json: &Json) -> Result<Tree, NoTree>
    ensures tree { IfOk result (λ t. tree_of (view json.now) ≡ Some (plain_tree t)) }
    ensures fault { IfErr result (IsNoTree (behind (Index index) (first_decimal (view json.now)))) }
{
    match tree_at(alloc, json) {
        Ok(tree) => Ok(tree),
        Err(fault) => Err(outward(fault, PathPart::Index(index))),
    }
}

/// The tree of a member, where a fault counts from the object on.
#[cycle(read)]
fn member_at(alloc: Global, key: &Text, json: &Json) -> Result<Tree, NoTree>
    ensures tree { IfOk result (λ t. tree_of (view json.now) ≡ Some (plain_tree t)) }
    ensures fault { IfErr result (IsNoTree (behind (Key key.now) (first_decimal (view json.now)))) }
{
    match tree_at(alloc, json) {
        Ok(tree) => Ok(tree),
        Err(fault) => Err(outward(fault, PathPart::Key(key.copy()?))),
    }
}

/// A fault, seen from one step further out.
fn outward(fault: NoTree, step: PathPart) -> NoTree
    ensures { (first : Option (List _)) → IsNoTree first fault
        → IsNoTree (behind step first) result }
{
    match fault {
        NoTree::Decimal(steps) => {
            let mut longer = steps;
            match longer.push(step) {
                Ok(()) => NoTree::Decimal(longer),
                Err(_) => NoTree::OutOfMemory,
            }
        }
        NoTree::OutOfMemory => NoTree::OutOfMemory,
    }
}
