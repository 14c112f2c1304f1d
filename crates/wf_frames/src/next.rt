// What the innermost frame does next.
ghost use Rattle.std.specs.Prelude.{◌≡◌};
ghost use Rattle.wf_frames.specs.Fits.{HasNode};
ghost use Rattle.wf_frames.specs.Foreseen.{next_in};

use crate::Frame;
use crate::nodes::{block, entries, number_at};
use wf_model::Node;

/// What the innermost frame does next.
#[derive(Clone, Copy)]
pub enum Next {
    /// It has ended, or there is none.
    Nothing,
    /// It carries out the body of this node.
    Body(u32),
    /// It assigns the entry of this node.
    Entry(u32),
    /// It goes to the `next` of this node.
    Then(u32),
    /// A loop takes its turn.
    Loop,
    /// A call ends.
    Back,
}

/// What a frame does next; none where it has ended.
#[inline(always)]
pub fn next_in(frame: &Frame, nodes: &[Node]) -> Option<Next>
    requires { HasNode nodes.now frame.now }
    ensures { result ≡ next_in nodes.now frame.now }
{
    match frame {
        Frame::Do(list, at) => match number_at(block(nodes, *list).steps.as_slice(), *at) {
            Some(n) => Some(Next::Body(n)),
            None => None,
        },
        Frame::Lone(n, false) => Some(Next::Body(*n)),
        Frame::Entries(n, at) => match number_at(entries(nodes, *n), *at) {
            Some(entry) => Some(Next::Entry(entry)),
            None => None,
        },
        Frame::Then(n) => Some(Next::Then(*n)),
        Frame::Loop(_) => Some(Next::Loop),
        Frame::Back(_, _) | Frame::Judge(_) => Some(Next::Back),
        Frame::Lone(_, true) | Frame::Try(_) | Frame::Mark(_) => None,
    }
}
