//! The compiled expressions of a node.
ghost use Rattle.std.specs.Prelude.{◌≡◌, [], ◌∷◌, ◌++◌, IfOk, length};
ghost use Rattle.wf_ast.specs.Tree as t;
ghost use Rattle.wf_ast.specs.View.{expr_view};
ghost use Rattle.wf_ast.specs.Instrs.{instrs};
ghost use Rattle.wf_ast.specs.Machine.{code};
ghost use Rattle.wf_model.specs.Shapes.{AddsCode};

use crate::grow::add;
use std::alloc::Global;
use wf_ast::{Expr, Postfix, compile};
use wf_value::OutOfMemory;

/// The compiled expressions of a node, in the order in which its form has them.
#[derive(Drop)]
pub struct Codes {
    items: Vec<Postfix>,
}

impl Codes {
    /// None yet. It allocates nothing.
    pub fn new(alloc: Global) -> Codes
        ensures { result.items.items ≡ [] }
    {
        Codes {
            items: Vec::new(alloc),
        }
    }

    /// Lends the compiled expressions, in their order.
    pub fn items(&self) -> &[Postfix]
        ensures { result.now ≡ self.now.items.items }
    {
        self.items.as_slice()
    }

    /// Adds the code of an expression, and says its place.
    pub fn add(&mut self, alloc: Global, e: &Expr) -> Result<u32, OutOfMemory>
        ensures { IfOk result (λ n. (n ≡ length self.old.items.items)
            × AddsCode self.old.items.items self.new.items.items (expr_view e.now)) }
    {
        let Ok(place) = u32::try_from(self.items.len()) else {
            return Err(OutOfMemory);
        };
        add(&mut self.items, compile(alloc, e)?)?;
        Ok(place)
    }
}
