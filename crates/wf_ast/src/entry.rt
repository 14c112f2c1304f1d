//! The entries of an assignment.
ghost use Rattle.std.specs.Prelude.{◌≡◌, [], ◌∷◌, ◌++◌, IfOk, is_ok, if◌then◌else◌, map};
ghost use Rattle.wf_ast.specs.View.{entries_view, entry_list, entry_view};

use crate::expr::Exprs;
use crate::grow::add;
use crate::template::Template;
use std::alloc::Global;
use wf_value::{OutOfMemory, Text};

/// A variable, and the places below it that are written.
#[derive(Drop)]
pub struct Target {
    pub name: Text,
    pub places: Exprs,
    /// The key as it stands in the source.
    pub text: Text,
}

/// One assignment.
#[derive(Drop)]
pub struct Entry {
    pub target: Target,
    pub value: Template,
}

/// Assignments in their order.
#[derive(Drop)]
pub struct Entries {
    items: Vec<Entry>,
}

impl Entries {
    /// Makes a list with no items.
    pub fn new(alloc: Global) -> Result<Entries, OutOfMemory>
        ensures { IfOk result (λ list. entries_view list ≡ []) }
    {
        Ok(Entries {
            items: Vec::new(alloc),
        })
    }

    /// Adds an item at the end. Without memory the list stays as it was.
    pub fn push(&mut self, item: Entry) -> Result<(), OutOfMemory>
        ensures { entries_view self.new
            ≡ (if is_ok result then entries_view self.old
            ++ entry_view item ∷ [] else entries_view self.old) }
    {
        add(&mut self.items, item)
    }

    /// Lends the items, in their order.
    pub fn items(&self) -> &[Entry]
        ensures items { result.now ≡ entry_list self.now }
        ensures view { map entry_view result.now ≡ entries_view self.now }
    {
        self.items.as_slice()
    }
}
