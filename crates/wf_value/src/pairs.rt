// Lists of pairs of texts, as the fields of a request and an environment are.
ghost use Rattle.std.specs.Prelude.{◌≡◌, ◌∷◌, [], ◌++◌, IfOk, OnErr, OnOk};

use crate::{OutOfMemory, Text};
use std::alloc::Global;
use std::marker::Model;

/// A list of pairs of texts, each a key and its value, in the order that they came; a key may stand more than once.
#[derive(Drop)]
pub struct Pairs {
    pairs: Vec<(Text, Text)>,
}

impl Model for Pairs {
    ghost use Rattle.std.specs.Prelude.{List as Seq, ℕ};

    ghost Value = { Seq (Seq ℕ × Seq ℕ) };

    ghost view = { λ a. a.pairs.items };
}

impl Pairs {
    /// No pairs.
    pub fn new(alloc: Global) -> Pairs
        ensures { result ≡ [] }
    {
        Pairs {
            pairs: Vec::new(alloc),
        }
    }

    /// Adds a pair at the end. Without memory the list stays, and the pair is dropped.
    pub fn push(&mut self, key: Text, value: Text) -> Result<(), OutOfMemory>
        ensures ok { OnOk result (self.new ≡ self.old ++ (key, value) ∷ []) }
        ensures err { OnErr result (self.new ≡ self.old) }
    {
        self.pairs.push((key, value))?;
        Ok(())
    }

    /// A copy, with the same pairs, which shares their texts.
    pub fn copy(&self, alloc: Global) -> Result<Pairs, OutOfMemory>
        ensures { IfOk result (λ copy. copy ≡ self.now) }
    {
        let mut copy = Pairs::new(alloc);
        for pair in &self.pairs {
            copy.push(pair.0.copy()?, pair.1.copy()?)?;
        }
        Ok(copy)
    }

    /// The pairs, the oldest first.
    pub fn items(&self) -> &[(Text, Text)]
        ensures { result.now ≡ self.now }
    {
        self.pairs.as_slice()
    }
}
