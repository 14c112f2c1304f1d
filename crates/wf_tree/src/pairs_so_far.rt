// Pairs that are gathered, before they are a map.
ghost use Rattle.std.specs.Prelude.{◌≡◌, [], IfOk, is_ok, option_map, if◌then◌else◌};
ghost use Rattle.wf_value.specs.Maps.{value_at, with_value};
ghost use Rattle.wf_tree.specs.Plain.{plain_tree};

use crate::key::Key;
use crate::{Tree, TreeMap};
use std::alloc::Global;
use std::collections::BTreeMap;
use std::marker::Model;
use wf_value::{OutOfMemory, Text};

/// Pairs that are gathered, which contracts see as a map: as the list of the pairs in the order of
/// the keys' bytes. A pair is put in its place in a time that grows with the logarithm of their
/// number.
#[derive(Drop)]
pub struct PairsSoFar {
    alloc: Global,
    pairs: BTreeMap<Key, Tree>,
}

impl Model for PairsSoFar {
    ghost use Rattle.std.specs.Prelude.{List, ℕ};
    ghost use Rattle.wf_tree.specs.Trees as trees;
    ghost use Rattle.wf_tree.specs.Code.{coded_pairs};

    ghost Value = { List (List ℕ × trees.Tree) };

    ghost coded = { coded_pairs };

    ghost use Rattle.wf_tree.specs.Plain.{plain_pairs};

    ghost view = { λ a. plain_pairs a.pairs.entries };
}

impl PairsSoFar {
    /// No pairs. It allocates nothing yet.
    pub fn new(alloc: Global) -> Result<PairsSoFar, OutOfMemory>
        ensures { IfOk result (λ ps. ps ≡ []) }
    {
        Ok(PairsSoFar {
            alloc,
            pairs: BTreeMap::new(alloc),
        })
    }

    /// Puts a tree at a key, and gives the tree that was there. Without memory the pairs stay, and
    /// the key and the tree are dropped.
    pub fn insert(&mut self, key: Text, item: Tree) -> Result<Option<Tree>, OutOfMemory>
        ensures after { self.new ≡ (if is_ok result then with_value key (plain_tree item) self.old
            else self.old) }
        ensures old { IfOk result (λ t. option_map plain_tree t ≡ value_at key self.old) }
    {
        Ok(self.pairs.insert(Key { text: key }, item)?)
    }

    /// The map of these pairs.
    pub fn into_map(self) -> Result<TreeMap, OutOfMemory>
        ensures { IfOk result (λ m. m ≡ self) }
    {
        let PairsSoFar { alloc, pairs: tree } = self;
        let mut pairs = Vec::with_capacity(alloc, tree.len())?;
        for (key, item) in tree {
            pairs.push((key.text, item))?;
        }
        Ok(TreeMap::of_pairs(pairs))
    }
}
