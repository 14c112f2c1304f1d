//! The names that are written on an edge.
ghost use Rattle.std.specs.Prelude.{◌≡◌, List, [], ◌∷◌, ◌++◌, IfOk, OnOk, map};
ghost use Rattle.wf_assigned.specs.Edges.{plain_name};
ghost use Rattle.wf_ast.specs.Nodes.{listed, loop_binds, param_names};
ghost use Rattle.wf_ast.specs.View.{entry_view, params_view};

use std::alloc::Global;
use std::marker::Model;
use wf_ast::{Entry, Params};
use wf_value::{OutOfMemory, Text};

/// Names in their order.
#[derive(Drop)]
pub(crate) struct NameList {
    items: Vec<Text>,
}

impl Model for NameList {
    ghost use Rattle.std.specs.Prelude.{List};
    ghost use Rattle.wf_value.specs.Pairs.{Text};

    ghost Value = { List Text };

    ghost view = { λ a. a.items.items };
}

impl NameList {
    /// No names. It allocates nothing yet.
    pub(crate) fn new(alloc: Global) -> NameList
        ensures { result ≡ [] }
    {
        NameList {
            items: Vec::new(alloc),
        }
    }

    /// Adds a name at the end.
    fn push(&mut self, name: &Text) -> Result<(), OutOfMemory>
        ensures { OnOk result (self.new ≡ self.old ++ name.now ∷ []) }
    {
        self.items.push(name.copy()?)?;
        Ok(())
    }

    /// The names, in their order.
    pub(crate) fn items(&self) -> &[Text]
        ensures { result.now ≡ self.now }
    {
        self.items.as_slice()
    }
}

/// One name.
pub(crate) fn only(alloc: Global, name: &Text) -> Result<NameList, OutOfMemory>
    ensures { IfOk result (λ names. names ≡ name.now ∷ []) }
{
    let mut names = NameList::new(alloc);
    names.push(name)?;
    Ok(names)
}

/// The name, where there is one.
pub(crate) fn at_most_one(alloc: Global, name: &Option<Text>) -> Result<NameList, OutOfMemory>
    ensures { IfOk result (λ names. names ≡ listed name.now) }
{
    match name {
        None => Ok(NameList::new(alloc)),
        Some(name) => only(alloc, name),
    }
}

/// The names that a loop binds.
pub(crate) fn bound_by_loop(
    alloc: Global,
    value: &Text,
    index: &Option<Text>,
) -> Result<NameList, OutOfMemory>
    ensures { IfOk result (λ names. names ≡ loop_binds value.now index.now) }
{
    let mut names = only(alloc, value)?;
    match index {
        None => {}
        Some(index) => names.push(index)?,
    }
    Ok(names)
}

/// The names of parameters.
pub(crate) fn parameters(alloc: Global, params: &Params) -> Result<NameList, OutOfMemory>
    ensures { IfOk result (λ names. names ≡ param_names (params_view params.now)) }
{
    let mut names = NameList::new(alloc);
    for param in params.items() {
        names.push(&param.name)?;
    }
    Ok(names)
}

/// The name that an entry writes: a plain one, and none where it writes a place below one.
pub(crate) fn written_by(alloc: Global, entry: &Entry) -> Result<NameList, OutOfMemory>
    ensures { IfOk result (λ names. names ≡ plain_name (entry_view entry.now)) }
{
    if entry.target.places.items().is_empty() {
        only(alloc, &entry.target.name)
    } else {
        Ok(NameList::new(alloc))
    }
}
