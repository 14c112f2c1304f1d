//! Numbers by names.
ghost use Rattle.std.specs.Prelude.{◌≡◌, None, OnOk};
ghost use Rattle.wf_assigned.specs.Numbers.{number_of, or_named};
ghost use Rattle.wf_value.specs.Pairs.{Text as Bytes};

use std::alloc::Global;
use std::collections::BTreeMap;
use wf_value::OutOfMemory;

/// Numbers by names. One is found, and added, in a time that grows with the logarithm of their number.
#[derive(Drop)]
pub(crate) struct Numbers {
    alloc: Global,
    numbers: BTreeMap<String, u32>,
}

impl Numbers {
    /// No names. It allocates nothing yet.
    pub(crate) fn new(alloc: Global) -> Numbers
        ensures { (x : Bytes) → number_of result x ≡ None }
    {
        Numbers {
            alloc,
            numbers: BTreeMap::new(alloc),
        }
    }

    /// The number of a name.
    pub(crate) fn find(&self, name: &str) -> Option<u32>
        ensures { result ≡ number_of self.now name.now }
    {
        match self.numbers.get(name) {
            None => None,
            Some(number) => Some(*number),
        }
    }

    /// Adds the number of a name, unless the name has one.
    pub(crate) fn add(&mut self, name: &str, number: u32) -> Result<(), OutOfMemory>
        ensures { OnOk result ((x : Bytes)
            → number_of self.new x ≡ or_named (number_of self.old x) x name.now number) }
    {
        match self.find(name) {
            Some(_) => return Ok(()),
            None => {}
        }
        let copy = String::from_str(self.alloc, name)?;
        self.numbers.insert(copy, number)?;
        Ok(())
    }
}
