//! Programs.
ghost use Rattle.std.specs.Prelude.{◌≡◌, [], ◌∷◌, ◌++◌, IfOk, is_ok, if◌then◌else◌, map};
ghost use Rattle.wf_ast.specs.View.{flow_list, flow_view, flows_view, param_list, param_view, params_view};

use crate::body::StepList;
use crate::grow::add;
use std::alloc::Global;
use wf_value::{OutOfMemory, Text, Value};

/// A parameter of a workflow, with its default where it has one.
#[derive(Drop)]
pub struct Param {
    pub name: Text,
    pub default: Option<Value>,
}

/// Parameters in their order.
#[derive(Drop)]
pub struct Params {
    items: Vec<Param>,
}

impl Params {
    /// Makes a list with no items.
    pub fn new(alloc: Global) -> Result<Params, OutOfMemory>
        ensures { IfOk result (λ list. params_view list ≡ []) }
    {
        Ok(Params {
            items: Vec::new(alloc),
        })
    }

    /// Adds an item at the end. Without memory the list stays as it was.
    pub fn push(&mut self, item: Param) -> Result<(), OutOfMemory>
        ensures { params_view self.new
            ≡ (if is_ok result then params_view self.old
            ++ param_view item ∷ [] else params_view self.old) }
    {
        add(&mut self.items, item)
    }

    /// Lends the items, in their order.
    pub fn items(&self) -> &[Param]
        ensures items { result.now ≡ param_list self.now }
        ensures view { map param_view result.now ≡ params_view self.now }
    {
        self.items.as_slice()
    }
}

/// A workflow.
#[derive(Drop)]
pub struct Flow {
    pub name: Text,
    pub params: Params,
    pub steps: StepList,
}

/// Workflows: `main` first, then the others by name.
#[derive(Drop)]
pub struct Flows {
    items: Vec<Flow>,
}

impl Flows {
    /// Makes a list with no items.
    pub fn new(alloc: Global) -> Result<Flows, OutOfMemory>
        ensures { IfOk result (λ list. flows_view list ≡ []) }
    {
        Ok(Flows {
            items: Vec::new(alloc),
        })
    }

    /// Adds an item at the end. Without memory the list stays as it was.
    pub fn push(&mut self, item: Flow) -> Result<(), OutOfMemory>
        ensures { flows_view self.new ≡
            (if is_ok result then flows_view self.old
            ++ flow_view item ∷ [] else flows_view self.old) }
    {
        add(&mut self.items, item)
    }

    /// Lends the items, in their order.
    pub fn items(&self) -> &[Flow]
        ensures items { result.now ≡ flow_list self.now }
        ensures view { map flow_view result.now ≡ flows_view self.now }
    {
        self.items.as_slice()
    }
}

/// A program.
#[derive(Drop)]
pub struct Program {
    pub flows: Flows,
}
