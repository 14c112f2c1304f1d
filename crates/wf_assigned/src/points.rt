//! Points of a workflow's text, and the edges between them.
use crate::names::NameList;

/// A place in the text of a workflow, by the number of its node. Nodes are numbered in preorder, and the workflow itself has the first
/// number. A step and an arm's body have the numbers of their nodes.
#[derive(Clone, Copy)]
pub(crate) enum Point {
    /// Where a node is evaluated: an entry, a step, an arm or a body. For a workflow it is its entry.
    At(u32),
    /// The head of the loop of this number.
    HeadOf(u32),
    /// An error that comes out of the body of the `try` of this number.
    FailOf(u32),
    /// The end of a step, of an arm's body, or of what stands under a `try`.
    EndOf(u32),
}

/// A point, and how many layers stand around it.
#[derive(Clone, Copy)]
pub(crate) struct Exit {
    pub(crate) point: Point,
    pub(crate) depth: u32,
}

/// The innermost loop around a point.
#[derive(Clone, Copy)]
pub(crate) enum Looping {
    NoLoop,
    /// A loop of this number, with so many layers around its step.
    InLoop(u32, u32),
    /// An iteration of a parallel loop, whose end leads nowhere.
    InTurn,
}

/// From one point to another. A layer is told by how many layers stand around a point in its text, itself among them.
#[derive(Drop)]
pub(crate) struct Edge {
    pub(crate) from: Point,
    pub(crate) to: Point,
    /// So many layers, from the outermost on, aren't left.
    pub(crate) keeps: u32,
    /// How many layers stand around the end.
    pub(crate) depth: u32,
    /// The names that are written on the edge, in the innermost layer around its end.
    pub(crate) writes: NameList,
}
