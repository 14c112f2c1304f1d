//! The table of a program.
ghost use Rattle.std.specs.Prelude.{◌≡◌, ◌≤◌, IfOk, length, map, option_copied, slice_get};
ghost use Rattle.wf_ast.specs.View.{flow_view, flows_view, program_view};
ghost use Rattle.wf_table.specs.Built.{flow_of, flow_number, node_list};
ghost use Rattle.wf_model.specs.Spots.{spots};
ghost use Rattle.wf_model.specs.Table.{Resolves};
ghost use Rattle.wf_value.specs.Pairs.{Text as Bytes};

use crate::build::flows;
use crate::jumps::set_jumps;
use crate::names::{Names, names_of};
use std::alloc::Global;
use wf_ast::Program;
use wf_model::Node;
use wf_value::OutOfMemory;

/// The nodes of a program by their numbers, in preorder, and the numbers of its workflows.
#[derive(Drop)]
pub struct Table {
    nodes: Vec<Node>,
    flows: Names,
}

impl Table {
    /// The nodes by their numbers.
    pub fn nodes(&self) -> &[Node]
        ensures { result.now ≡ node_list self.now }
    {
        self.nodes.as_slice()
    }

    /// The node of a number.
    pub fn node(&self, n: u32) -> Option<&Node>
        ensures { option_copied result ≡ slice_get (node_list self.now) n }
    {
        self.nodes.get(n as usize)
    }

    /// The number of the workflow of a name. It is found in a time that grows with the logarithm of their number.
    pub fn flow(&self, name: &str) -> Option<u32>
        ensures { result ≡ flow_of self.now name.now }
    {
        self.flows.find(name)
    }
}

/// The table of a program. Its cost grows with the length of the program, times a logarithm and how deeply its steps are nested.
///
/// # Errors
///
/// There may be no memory for it.
pub fn table_of(alloc: Global, program: &Program) -> Result<Table, OutOfMemory>
    // Each node is the part of its number, and jumps lead where the names of steps say.
    ensures resolves { IfOk result (λ t. Resolves (spots (program_view program.now).flows)
        (node_list t)) }
    // A workflow's number is that of the first of its name.
    ensures flows { IfOk result (λ t. (x : Bytes)
        → flow_of t x ≡ flow_number x (program_view program.now).flows 0) }
{
    let mut nodes = Vec::new(alloc);
    let numbers = flows(alloc, &mut nodes, program.flows.items())?;
    set_jumps(alloc, &mut nodes)?;
    let flows = names_of(alloc, nodes.as_slice(), numbers.as_slice())?;
    Ok(Table { nodes, flows })
}
