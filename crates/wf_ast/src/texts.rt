//! Lists of texts.
ghost use Rattle.std.specs.Prelude.{◌≡◌, [], ◌∷◌, ◌++◌, IfOk, is_ok, if◌then◌else◌};
ghost use Rattle.wf_ast.specs.View.{texts_view};

use crate::grow::add;
use std::alloc::Global;
use wf_value::{OutOfMemory, Text};

/// Texts in their order.
#[derive(Drop)]
pub struct Texts {
    items: Vec<Text>,
}

impl Texts {
    /// Makes a list with no items.
    pub fn new(alloc: Global) -> Result<Texts, OutOfMemory>
        ensures { IfOk result (λ list. texts_view list ≡ []) }
    {
        Ok(Texts {
            items: Vec::new(alloc),
        })
    }

    /// Adds an item at the end. Without memory the list stays as it was.
    pub fn push(&mut self, item: Text) -> Result<(), OutOfMemory>
        ensures { texts_view self.new ≡
            (if is_ok result then texts_view self.old ++ item ∷ [] else texts_view self.old) }
    {
        add(&mut self.items, item)
    }

    /// Lends the items, in their order.
    pub fn items(&self) -> &[Text]
        ensures { result.now ≡ texts_view self.now }
    {
        self.items.as_slice()
    }
}
