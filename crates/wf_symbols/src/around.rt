// What stands around a node.
ghost use Rattle.std.specs.Prelude.{◌≡◌, IfOk, OnErr, OnOk, map};
ghost use Rattle.wf_ast.specs.Accept.{is_visible};
ghost use Rattle.wf_ast.specs.Nodes.{assigned};
ghost use Rattle.wf_ast.specs.View.{steps_in};
ghost use Rattle.wf_symbols.specs.Around.{IsBound, IsClosed, IsLayer, IsOpened, IsUnbound, Still, layer_view};

use crate::names::Names;
use crate::tables::{add_assigned, own_names};
use std::alloc::Global;
use wf_ast::StepList;
use wf_value::OutOfMemory;

/// The innermost loop around a node.
#[derive(Clone, Copy, PartialEq, Eq)]
pub enum Inside {
    NoLoop,
    InLoop,
    InParallelLoop,
}

/// The innermost loop around a node, and whether it is in a branch.
#[derive(Clone, Copy)]
pub struct Here {
    pub inside: Inside,
    pub in_branch: bool,
}

/// The names of a block's steps, and whether no jump leads out of it.
#[derive(Drop)]
pub struct Block {
    pub names: Names,
    pub is_closed: bool,
}

/// A layer's names: those that are bound, those that are assigned in it, and those that the parallel step shares whose
/// branch or iteration it is.
#[derive(Drop)]
pub struct Layer {
    pub binds: Names,
    pub assigns: Names,
    pub shared: Option<Names>,
}

/// Every step's name of the workflow, the blocks, and the visible layers; the innermost first.
#[derive(Drop)]
pub struct Scopes {
    pub workflow: Names,
    pub blocks: Vec<Block>,
    pub layers: Vec<Layer>,
}

impl Scopes {
    /// Goes into a block, which is then the innermost. Without memory the scopes stay as they were.
    pub fn open(
        &mut self,
        alloc: Global,
        steps: &StepList,
        is_closed: bool,
    ) -> Result<(), OutOfMemory>
        ensures opened { OnOk result (IsOpened self.old self.new (steps_in steps.now) is_closed) }
        ensures kept { OnErr result (Still self.old self.new) }
    {
        let names = own_names(alloc, steps)?;
        self.blocks.insert(0, Block { names, is_closed })?;
        Ok(())
    }

    /// Goes out of the innermost block; outside of all it does nothing.
    pub fn close(&mut self)
        ensures { IsClosed self.old self.new }
    {
        if !self.blocks.is_empty() {
            self.blocks.remove(0);
        }
    }

    /// Goes into a layer, which is then the innermost. Without memory the scopes stay as they were.
    pub fn bind(&mut self, layer: Layer) -> Result<(), OutOfMemory>
        ensures bound { OnOk result (IsBound self.old self.new layer) }
        ensures kept { OnErr result (Still self.old self.new) }
    {
        self.layers.insert(0, layer)?;
        Ok(())
    }

    /// Goes out of the innermost layer; outside of all it does nothing.
    pub fn unbind(&mut self)
        ensures { IsUnbound self.old self.new }
    {
        if !self.layers.is_empty() {
            self.layers.remove(0);
        }
    }
}

/// The layer of a list of steps: the names that are bound in it, and those that the steps assign there.
pub fn layer_of(
    alloc: Global,
    binds: Names,
    steps: &StepList,
    shared: Option<Names>,
) -> Result<Layer, OutOfMemory>
    ensures { IfOk result (λ l. IsLayer l binds (assigned (steps_in steps.now)) shared) }
{
    let mut assigns = Names::new(alloc);
    add_assigned(&mut assigns, steps)?;
    Ok(Layer {
        binds,
        assigns,
        shared,
    })
}

/// Whether a visible layer has the name, bound or assigned.
pub fn is_visible(name: &str, layers: &[Layer]) -> bool
    ensures { result ≡ is_visible name.now (map layer_view layers.now) }
{
    for layer in layers {
        if layer.binds.has(name) || layer.assigns.has(name) {
            return true;
        }
    }
    false
}
