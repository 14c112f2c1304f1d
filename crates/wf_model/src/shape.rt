//! Templates whose expressions are compiled.
ghost use Rattle.std.specs.Prelude.{◌≡◌};
ghost use Rattle.wf_model.specs.Shapes.{named_list, piece_list, shape_list};

use wf_value::{List, Text, Value};

/// A part of a text that is joined from texts and expressions.
#[derive(Drop)]
pub enum Piece {
    Text(Text),
    /// The place of a compiled expression.
    Hole(u32),
}

/// The parts of a joined text, in their order.
#[derive(Drop)]
pub struct Pieces {
    pub(crate) items: Vec<Piece>,
}

impl Pieces {
    /// Lends the items, in their order.
    pub fn items(&self) -> &[Piece]
        ensures { result.now ≡ piece_list self.now }
    {
        self.items.as_slice()
    }
}

/// A template with holes where its expressions stand. A hole is the place of a compiled expression in the node's `Codes`.
#[cycle(shape)]
pub enum Shape {
    Lit(Value),
    Hole(u32),
    Join(Pieces),
    List(Shapes),
    /// A list of literals, kept as the value that it is.
    Literals(List),
    Map(NamedShapes),
}

// Written, and not derived: it is one call wherever a shape is let go.
impl Drop for Shape {
    #[cycle(shape)]
    fn drop(self) {
        match self {
            Shape::Lit(_) | Shape::Hole(_) | Shape::Literals(_) => {}
            Shape::Join(_) | Shape::List(_) | Shape::Map(_) => {}
        }
    }
}

/// Shapes in their order.
#[cycle(shape)]
#[derive(Drop)]
pub struct Shapes {
    pub(crate) items: Vec<Shape>,
}

impl Shapes {
    /// Lends the items, in their order.
    pub fn items(&self) -> &[Shape]
        ensures { result.now ≡ shape_list self.now }
    {
        self.items.as_slice()
    }
}

/// A shape under a key.
#[cycle(shape)]
#[derive(Drop)]
pub struct NamedShape {
    pub name: Text,
    pub shape: Shape,
}

/// Shapes under keys, in the order of the keys.
#[cycle(shape)]
#[derive(Drop)]
pub struct NamedShapes {
    pub(crate) items: Vec<NamedShape>,
}

impl NamedShapes {
    /// Lends the items, in their order.
    pub fn items(&self) -> &[NamedShape]
        ensures { result.now ≡ named_list self.now }
    {
        self.items.as_slice()
    }
}
