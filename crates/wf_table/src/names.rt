// The numbers of steps and workflows by their names.
ghost use Rattle.std.specs.Prelude.{◌≡◌, None, Some, bytes_eq, if◌then◌else◌, IfOk, OnOk, map, slice_get};
ghost use Rattle.wf_value.specs.HttpUrl.{first_of_two};
ghost use Rattle.wf_model.specs.NodeKinds.{node_view};
ghost use Rattle.wf_table.specs.Named.{first_named, node_named, number_of, when_named};
ghost use Rattle.wf_value.specs.Pairs.{Text as Bytes};

use std::alloc::Global;
use std::collections::BTreeMap;
use wf_model::Node;
use wf_value::OutOfMemory;

/// Numbers by names. One is found, and added, in a time that grows with the logarithm of their number.
#[derive(Drop)]
pub(crate) struct Names {
    alloc: Global,
    numbers: BTreeMap<String, u32>,
}

impl Names {
    /// No names. It allocates nothing yet.
    pub(crate) fn new(alloc: Global) -> Names
        ensures { (x : Bytes) → number_of result x ≡ None }
    {
        Names {
            alloc,
            numbers: BTreeMap::new(alloc),
        }
    }

    /// The number of a name.
    pub(crate) fn find(&self, name: &str) -> Option<u32>
        ensures { result ≡ number_of self.now name.now }
    {
        match self.numbers.get(name) {
            None => None,
            Some(number) => Some(*number),
        }
    }

    /// Adds the number of a name, unless the name has one.
    fn add(&mut self, name: &str, number: u32) -> Result<(), OutOfMemory>
        ensures { OnOk result ((x : Bytes)
            → number_of self.new x
            ≡ first_of_two (number_of self.old x) (when_named x name.now number)) }
    {
        match self.find(name) {
            Some(_) => return Ok(()),
            None => {}
        }
        let copy = String::from_str(self.alloc, name)?;
        self.numbers.insert(copy, number)?;
        Ok(())
    }

    /// Adds the number of a node's name, unless the name has one. A number behind the last node has no name.
    fn add_node(&mut self, nodes: &[Node], number: u32) -> Result<(), OutOfMemory>
        ensures { OnOk result ((x : Bytes)
            → number_of self.new x
            ≡ first_of_two (number_of self.old x)
            (node_named x number (slice_get (map node_view nodes.now) number))) }
    {
        match nodes.get(number as usize) {
            None => Ok(()),
            Some(node) => self.add(node.name.as_str(), number),
        }
    }
}

/// The numbers of nodes by their names: of nodes of one name the first's.
pub(crate) fn names_of(alloc: Global, nodes: &[Node], numbers: &[u32]) -> Result<Names, OutOfMemory>
    ensures { IfOk result (λ names. (x : Bytes)
        → number_of names x ≡ first_named (map node_view nodes.now) x numbers.now) }
{
    let mut names = Names::new(alloc);
    for number in numbers {
        names.add_node(nodes, *number)?;
    }
    Ok(names)
}
