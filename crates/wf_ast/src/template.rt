//! Templates: values with expressions in them.
ghost use Rattle.std.specs.Prelude.{◌≡◌, [], ◌∷◌, ◌++◌, IfOk, is_ok, if◌then◌else◌, map};
ghost use Rattle.wf_ast.specs.View.{field_list, field_view, fields_view, part_list, part_view, parts_view, template_list, template_view, templates_view};

use crate::expr::Expr;
use crate::grow::add;
use std::alloc::Global;
use wf_value::{List, OutOfMemory, Text, Value};

/// A part of a text that is joined from texts and expressions.
#[derive(Drop)]
pub enum Part {
    Text(Text),
    Expr(Expr),
}

/// The parts of a joined text, in their order.
#[derive(Drop)]
pub struct Parts {
    items: Vec<Part>,
}

impl Parts {
    /// Makes a list with no items.
    pub fn new(alloc: Global) -> Result<Parts, OutOfMemory>
        ensures { IfOk result (λ list. parts_view list ≡ []) }
    {
        Ok(Parts {
            items: Vec::new(alloc),
        })
    }

    /// Adds an item at the end. Without memory the list stays as it was.
    pub fn push(&mut self, item: Part) -> Result<(), OutOfMemory>
        ensures { parts_view self.new ≡
            (if is_ok result then parts_view self.old
            ++ part_view item ∷ [] else parts_view self.old) }
    {
        add(&mut self.items, item)
    }

    /// Lends the items, in their order.
    pub fn items(&self) -> &[Part]
        ensures items { result.now ≡ part_list self.now }
        ensures view { map part_view result.now ≡ parts_view self.now }
    {
        self.items.as_slice()
    }
}

/// A value with expressions in it.
#[cycle(template)]
pub enum Template {
    Lit(Value),
    Expr(Box<Expr>),
    Join(Parts),
    List(Templates),
    /// A list of literals, kept as the value that it is.
    Literals(List),
    Map(NamedTemplates),
}

// Written, and not derived: it is one call wherever a template is let go.
impl Drop for Template {
    #[cycle(template)]
    fn drop(self) {
        match self {
            Template::Lit(_) | Template::Expr(_) | Template::Literals(_) => {}
            Template::Join(_) | Template::List(_) | Template::Map(_) => {}
        }
    }
}

/// Templates in their order.
#[cycle(template)]
#[derive(Drop)]
pub struct Templates {
    items: Vec<Template>,
}

impl Templates {
    /// Makes a list with no items.
    pub fn new(alloc: Global) -> Result<Templates, OutOfMemory>
        ensures { IfOk result (λ list. templates_view list ≡ []) }
    {
        Ok(Templates {
            items: Vec::new(alloc),
        })
    }

    /// Adds an item at the end. Without memory the list stays as it was.
    pub fn push(&mut self, item: Template) -> Result<(), OutOfMemory>
        ensures { templates_view self.new
            ≡ (if is_ok result then templates_view self.old
            ++ template_view item ∷ [] else templates_view self.old) }
    {
        add(&mut self.items, item)
    }

    /// Lends the items, in their order.
    pub fn items(&self) -> &[Template]
        ensures items { result.now ≡ template_list self.now }
        ensures view { map template_view result.now ≡ templates_view self.now }
    {
        self.items.as_slice()
    }
}

/// A template under a key.
#[cycle(template)]
#[derive(Drop)]
pub struct NamedTemplate {
    pub name: Text,
    pub template: Template,
}

/// Templates under keys, in the order of the keys.
#[cycle(template)]
#[derive(Drop)]
pub struct NamedTemplates {
    items: Vec<NamedTemplate>,
}

impl NamedTemplates {
    /// Makes a list with no items.
    pub fn new(alloc: Global) -> Result<NamedTemplates, OutOfMemory>
        ensures { IfOk result (λ list. fields_view list ≡ []) }
    {
        Ok(NamedTemplates {
            items: Vec::new(alloc),
        })
    }

    /// Adds an item at the end. Without memory the list stays as it was.
    pub fn push(&mut self, item: NamedTemplate) -> Result<(), OutOfMemory>
        ensures { fields_view self.new
            ≡ (if is_ok result then fields_view self.old
            ++ field_view item ∷ [] else fields_view self.old) }
    {
        add(&mut self.items, item)
    }

    /// Lends the items, in their order.
    pub fn items(&self) -> &[NamedTemplate]
        ensures items { result.now ≡ field_list self.now }
        ensures view { map field_view result.now ≡ fields_view self.now }
    {
        self.items.as_slice()
    }
}
