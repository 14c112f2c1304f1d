// The keys that a map has so far.
ghost use Rattle.std.specs.Prelude.{◌≡◌, ◌||◌, ℕ, List, [], IfOk, OnOk, OnErr};
ghost use Rattle.wf_yaml_line.specs.Marks.{is_one_of, is_same};
ghost use Rattle.wf_yaml_line.specs.Views.{keys_of};

use std::alloc::Global;
use std::collections::BTreeSet;
use wf_value::{OutOfMemory, Text};

/// The keys that a map has so far. One is found, and added, in a time that grows with the logarithm
/// of their number.
#[derive(Drop)]
pub struct KeySet {
    alloc: Global,
    keys: BTreeSet<String>,
}

impl KeySet {
    /// No keys. It allocates nothing yet.
    pub fn new(alloc: Global) -> Result<KeySet, OutOfMemory>
        ensures { IfOk result (λ s. keys_of s ≡ []) }
    {
        Ok(KeySet {
            alloc,
            keys: BTreeSet::new(alloc),
        })
    }

    /// Whether a key stands among them.
    pub fn holds(&self, key: &str) -> bool
        ensures { result ≡ is_one_of (keys_of self.now) key.now }
    {
        self.keys.contains(key)
    }

    /// Adds a key. Without memory they stay.
    pub fn add(&mut self, key: Text) -> Result<(), OutOfMemory>
        ensures added { OnOk result ((k : List ℕ)
            → is_one_of (keys_of self.new) k ≡ (is_same key k || is_one_of (keys_of self.old) k)) }
        ensures kept { OnErr result (keys_of self.new ≡ keys_of self.old) }
    {
        let copy = String::from_str(self.alloc, key.as_str())?;
        self.keys.insert(copy)?;
        Ok(())
    }
}
