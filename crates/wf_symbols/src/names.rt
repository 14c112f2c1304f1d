// Names that are known at a place.
ghost use Rattle.std.specs.Prelude.{◌≡◌, ◌||◌, bytes_eq, [], OnErr, OnOk};
ghost use Rattle.wf_symbols.specs.Names.{names_of};
ghost use Rattle.wf_value.specs.HttpRequest.{is_among};
ghost use Rattle.wf_value.specs.Pairs.{Text as Bytes};

use std::alloc::Global;
use std::collections::BTreeSet;
use wf_value::OutOfMemory;

/// Names. One is found, and added, in a time that grows with the logarithm of their number.
#[derive(Drop)]
pub struct Names {
    alloc: Global,
    names: BTreeSet<String>,
}

impl Names {
    /// No names. It allocates nothing yet.
    pub fn new(alloc: Global) -> Names
        ensures { names_of result ≡ [] }
    {
        Names {
            alloc,
            names: BTreeSet::new(alloc),
        }
    }

    /// Whether a name stands among them.
    pub fn has(&self, name: &str) -> bool
        ensures { result ≡ is_among name.now (names_of self.now) }
    {
        self.names.contains(name)
    }

    /// Adds a name. Without memory they stay as they were.
    pub fn add(&mut self, name: &str) -> Result<(), OutOfMemory>
        ensures added { OnOk result ((x : Bytes)
            → is_among x (names_of self.new)
            ≡ (bytes_eq x name.now || is_among x (names_of self.old))) }
        ensures kept { OnErr result (names_of self.new ≡ names_of self.old) }
    {
        let copy = String::from_str(self.alloc, name)?;
        self.names.insert(copy)?;
        Ok(())
    }
}
