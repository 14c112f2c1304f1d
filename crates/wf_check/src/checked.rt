// Programs that were checked.
ghost use Rattle.std.specs.Prelude.{◌≡◌, IsTrue, option_copied, slice_get};
ghost use Rattle.wf_ast.specs.Accept.{Accept};
ghost use Rattle.wf_ast.specs.View.{program_view};
ghost use Rattle.wf_check.specs.Callable.{CallsLead};
ghost use Rattle.wf_check.specs.Numbered.{IsNumbered, IsNumbered-prop};
ghost use Rattle.wf_check.specs.Said.{is_accepted, program_built};
ghost use Rattle.wf_model.specs.Spots.{spots};
ghost use Rattle.wf_model.specs.Table.{Resolves};
ghost use Rattle.wf_model.specs.Told.{Told, Told-prop};
ghost use Rattle.wf_table.specs.Built.{flow_number, node_list};

use wf_ast::Program;
use wf_model::Node;
use wf_table::Table;

/// A program that was checked: the rules accept it, it uses only forms that are built, and it has its table. `check` alone makes it.
#[derive(Drop)]
pub struct Checked {
    pub(crate) program: Program,
    pub(crate) table: Table,
    pub ghost accepted: { IsTrue (is_accepted (program_view program)) },
    pub ghost told: { Told (spots (program_view program).flows) (node_list table) } by { Told-prop _ _ },
    pub ghost numbered: { IsNumbered (program_view program).flows table } by { IsNumbered-prop (program_view program).flows table },
}

impl Checked {
    ghost use Rattle.wf_check.specs.Seen.{held_by, nodes_of, program_of};

    /// The program.
    pub fn program(&self) -> &Program
        ensures program { result.now ≡ held_by self.now }
        ensures accepted { Accept (program_view result.now) }
        ensures built { IsTrue (program_built (program_view result.now)) }
    {
        &self.program
    }

    /// The nodes of the program by their numbers: each is the part of its number, and jumps lead where the names of steps say. Each call
    /// names what may be called, and each predicate that is named is a workflow that may be called.
    pub fn nodes(&self) -> &[Node]
        ensures nodes { result.now ≡ nodes_of self.now }
        ensures resolves { Resolves (spots (program_of self.now).flows) result.now }
        ensures lead { CallsLead (program_of self.now).flows result.now }
    {
        self.table.nodes()
    }

    /// The node of a number.
    pub fn node(&self, n: u32) -> Option<&Node>
        ensures { option_copied result ≡ slice_get (nodes_of self.now) n }
    {
        self.table.node(n)
    }

    /// The number of the workflow of a name: the first, where several have it. It is found in a time that grows with the logarithm of their
    /// number.
    pub fn flow(&self, name: &str) -> Option<u32>
        ensures { result ≡ flow_number name.now (program_of self.now).flows 0 }
    {
        self.table.flow(name)
    }
}
