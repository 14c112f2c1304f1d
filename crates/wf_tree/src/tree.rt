// Trees: their types, how lists are built, and how lists and maps are read.
ghost use Rattle.std.specs.Prelude.{◌≡◌, [], ◌∷◌, ◌++◌, IfOk, is_ok, option_map, if◌then◌else◌};
ghost use Rattle.std.specs.List.{slice_get};
ghost use Rattle.wf_value.specs.Maps.{IsInOrder, value_at};
ghost use Rattle.wf_tree.specs.Plain.{plain_tree, plain_items, plain_pairs};

use crate::entries::find;
use std::alloc::Global;
use std::marker::Model;
use wf_value::{OutOfMemory, Text};

/// A source as it was read. Contracts speak of the plain data that it is.
#[cycle(tree)]
pub enum Tree {
    /// No value.
    Null,
    /// True or false.
    Bool(bool),
    /// A whole number of 64 bits.
    Int(i64),
    /// A number that is no whole number of 64 bits, or isn't written as one: its text as written.
    Decimal(Text),
    /// A text.
    Text(Text),
    /// Trees in order.
    List(TreeList),
    /// Trees by key.
    Map(TreeMap),
}

// Written, and not derived: it is one call wherever a tree is let go.
impl Drop for Tree {
    #[cycle(tree)]
    fn drop(self) {
        match self {
            Tree::Null | Tree::Bool(_) | Tree::Int(_) | Tree::Decimal(_) => {}
            Tree::Text(_) | Tree::List(_) | Tree::Map(_) => {}
        }
    }
}

/// Trees in order, which contracts see as the list of their plain data.
#[cycle(tree)]
#[derive(Drop)]
pub struct TreeList {
    items: Vec<Tree>,
}

/// Trees by key, which contracts see as the list of the pairs in the order of the keys' bytes. Each
/// key stands once.
#[cycle(tree)]
#[derive(Drop)]
pub struct TreeMap {
    pairs: Vec<(Text, Tree)>,
}

impl Model for TreeList {
    ghost use Rattle.std.specs.Prelude.{List};
    ghost use Rattle.wf_tree.specs.Trees as trees;
    ghost use Rattle.wf_tree.specs.Code.{coded_items};

    ghost Value = { List trees.Tree };

    ghost coded = { coded_items };

    ghost use Rattle.wf_tree.specs.Plain.{plain_items};

    ghost view = { λ a. plain_items a.items.items };

    ghost size = { λ ts. trees.items_depth (trees.items_of ts) };

    ghost use Rattle.wf_tree.specs.Falls.{most_items};

    ghost size_decreases = { λ a h. most_items a.items.items };
}

impl Model for TreeMap {
    ghost use Rattle.std.specs.Prelude.{List, ℕ};
    ghost use Rattle.wf_value.specs.Maps.{IsInOrder};
    ghost use Rattle.wf_tree.specs.Trees as trees;
    ghost use Rattle.wf_tree.specs.Code.{coded_pairs};

    ghost Value = { List (List ℕ × trees.Tree) };

    ghost coded = { coded_pairs };

    ghost use Rattle.wf_tree.specs.Plain.{plain_pairs};

    ghost view = { λ a. plain_pairs a.pairs.items };

    ghost invariant = { λ a. IsInOrder a.pairs.items };

    ghost size = { λ ps. trees.pairs_depth (trees.pairs_of ps) };

    ghost use Rattle.wf_tree.specs.Falls.{most_pairs};

    ghost size_decreases = { λ a h. most_pairs a.pairs.items };
}

impl TreeList {
    /// The empty list. It allocates nothing yet.
    pub fn new(alloc: Global) -> Result<TreeList, OutOfMemory>
        ensures { IfOk result (λ l. l ≡ []) }
    {
        Ok(TreeList {
            items: Vec::new(alloc),
        })
    }

    /// Adds an item at the end. Without memory the list stays, and the item is dropped.
    pub fn push(&mut self, item: Tree) -> Result<(), OutOfMemory>
        ensures { self.new ≡ (if is_ok result then self.old ++ plain_tree item ∷ [] else self.old) }
    {
        self.items.push(item)?;
        Ok(())
    }

    /// The items, the first one first.
    pub fn items(&self) -> &[Tree]
        ensures { plain_items result.now ≡ self.now }
    {
        self.items.as_slice()
    }
}

impl TreeMap {
    /// The map of pairs that stand in order.
    pub(crate) fn of_pairs(pairs: Vec<(Text, Tree)>) -> TreeMap
        requires { IsInOrder pairs.items }
        ensures { result ≡ plain_pairs pairs.items }
    {
        TreeMap { pairs }
    }

    /// The tree at a key.
    pub fn get(&self, key: &str) -> Option<&Tree>
        ensures value { option_map (λ t. plain_tree t.now) result ≡ value_at key.now self.now }
        ensures order { IsInOrder self.now }
    {
        find(self.pairs.as_slice(), key)
    }

    /// The pair at an index, from 0 on in the order of the keys' bytes; none past the end.
    pub fn entry(&self, i: usize) -> Option<(&str, &Tree)>
        ensures { option_map (λ p. (p.0.now, plain_tree p.1.now)) result ≡ slice_get self.now i }
    {
        let pairs = self.pairs.as_slice();
        if i < pairs.len() {
            Some((pairs[i].0.as_str(), &pairs[i].1))
        } else {
            None
        }
    }

    /// The pairs, in the order of the keys' bytes.
    pub fn pairs(&self) -> &[(Text, Tree)]
        ensures pairs { plain_pairs result.now ≡ self.now }
        ensures order { IsInOrder result.now }
    {
        self.pairs.as_slice()
    }
}
