// A task's frames.
ghost use Rattle.std.specs.Prelude.{◌≡◌, [], ◌∷◌, IfNone, IfOk, is_ok, option_map, reverse, true, if◌then◌else◌};
ghost use Rattle.wf_frames.specs.Innermost.{innermost};

use crate::next::Next;
use crate::turning::Turn;
use std::alloc::Global;
use wf_scope::Chain;
use wf_value::{List, OutOfMemory, Value};

/// The values that a loop has left.
#[derive(Drop)]
pub enum Left {
    Nothing,
    /// The items of a list from this one on.
    Items(List, usize),
    /// The whole numbers from one to another.
    Range(i64, i64),
}

/// A loop between two iterations, with the index of the next.
#[derive(Drop)]
pub struct Looping {
    pub node: u32,
    pub left: Left,
    pub index: u64,
}

/// A `try` around its body, with the retries used and the last delay in milliseconds.
#[derive(Drop)]
pub struct Trying {
    pub node: u32,
    pub tries: u64,
    pub delay: Option<u64>,
}

/// The call of the workflow that decides on an error of a `try`: the retries used, the last delay in milliseconds, the error, and the
/// number of the call's layer.
#[derive(Drop)]
pub struct Judging {
    pub node: u32,
    pub tries: u64,
    pub delay: Option<u64>,
    pub error: Value,
    pub layer: u64,
}

/// What a task has still to do, by the number of the node that it belongs to. What few frames hold stands in a box, so that a frame is
/// small.
#[derive(Drop)]
pub enum Frame {
    /// The steps of the list that the node owns, from this one on.
    Do(u32, usize),
    /// A body that stands alone: that of an arm, or one under a `try`; and whether it was carried out.
    Lone(u32, bool),
    /// The entries of an assign, from this one on.
    Entries(u32, usize),
    /// The node's `next`.
    Then(u32),
    Loop(Box<Looping>),
    Try(Box<Trying>),
    /// The layer of this number ends here.
    Mark(u64),
    /// The call of a step ends here, with its layer.
    Back(Option<u32>, u64),
    /// The call of the workflow that decides on an error of a `try` ends here, with its layer. The call and the decision are one frame,
    /// since neither is left without the other.
    Judge(Box<Judging>),
}

impl Frame {
    ghost use Rattle.wf_frames.specs.Frames.{HasRoom, gone_on, is_back, mark_of};

    /// The number of the layer that ends with it.
    #[inline(always)]
    pub(crate) fn mark(&self) -> Option<u64>
        ensures { result ≡ mark_of self.now }
    {
        match self {
            Frame::Mark(number) | Frame::Back(_, number) => Some(*number),
            Frame::Judge(judging) => Some(judging.layer),
            Frame::Do(_, _) | Frame::Lone(_, _) | Frame::Entries(_, _) | Frame::Then(_) => None,
            Frame::Loop(_) | Frame::Try(_) => None,
        }
    }

    /// It goes on to what is behind its step or its entry, or behind its body.
    #[inline(always)]
    fn go_on(&mut self)
        requires room { HasRoom self.old }
        ensures on { self.new ≡ gone_on self.old }
    {
        match self {
            Frame::Do(_, at) => *at += 1,
            Frame::Lone(_, done) => *done = true,
            Frame::Entries(_, at) => *at += 1,
            Frame::Then(_) | Frame::Loop(_) | Frame::Try(_) => {}
            Frame::Mark(_) | Frame::Back(_, _) | Frame::Judge(_) => {}
        }
    }

    /// Whether a call ends with it.
    pub fn is_back(&self) -> bool
        ensures { result ≡ is_back self.now }
    {
        match self {
            Frame::Back(_, _) | Frame::Judge(_) => true,
            Frame::Do(_, _) | Frame::Lone(_, _) | Frame::Entries(_, _) | Frame::Then(_) => false,
            Frame::Loop(_) | Frame::Try(_) | Frame::Mark(_) => false,
        }
    }
}

/// The number of the innermost of a task's own layers, looked for among its frames.
fn innermost(items: &[Frame], first: u64) -> u64
    ensures { result ≡ innermost first (reverse items.now) }
{
    let mut at = items.len();
    while at > 0 {
        at -= 1;
        let frame = &items[at];
        if let Some(number) = frame.mark() {
            return number;
        }
    }
    first
}

/// A task's frames, the layer around them all, and what the innermost frame does next, as it was kept last.
#[derive(Drop)]
pub struct Frames {
    // the innermost at the end
    items: Vec<Frame>,
    first: u64,
    // the innermost of the own layers
    layer: u64,
    next: Next,
    ghost layered: { layer ≡ innermost first (reverse items.items) },
}

impl Frames {
    ghost use Rattle.wf_frames.specs.Frames.{HasRoomOnTop, calls_of, inner, moved_on, popped, topped};
    ghost use Rattle.wf_frames.specs.Loops.{TakesTurn, is_at_loop};
    ghost use Rattle.wf_frames.specs.Owned.{own_of};

    /// None, inside this layer. It allocates nothing.
    pub fn new(alloc: Global, first: Chain) -> Frames
        ensures none { inner result ≡ [] }
        ensures first { result.first ≡ first.number }
    {
        Frames {
            items: Vec::new(alloc),
            first: first.number,
            layer: first.number,
            next: Next::Nothing,
        }
    }

    /// Puts a frame inside all others. Without memory all stays, and the frame is dropped.
    #[inline(always)]
    pub fn push(&mut self, frame: Frame) -> Result<(), OutOfMemory>
        ensures pushed { inner self.new
            ≡ (if is_ok result then frame ∷ inner self.old else inner self.old) }
        ensures first { self.new.first ≡ self.old.first }
    {
        let layer = frame.mark().unwrap_or(self.layer);
        self.items.push(frame)?;
        self.layer = layer;
        Ok(())
    }

    /// The innermost frame goes on to what is behind its step or its entry, or behind its body.
    #[inline(always)]
    pub(crate) fn go_on(&mut self)
        requires room { HasRoomOnTop (inner self.old) }
        ensures on { inner self.new ≡ moved_on (inner self.old) }
        ensures own { own_of self.new ≡ own_of self.old }
    {
        if let Some(frame) = self.items.last_mut() {
            frame.go_on();
        }
    }

    /// The loop that is the innermost frame goes on behind its next value, if one is left. Without memory it may be in any state.
    #[inline(always)]
    pub fn turn(&mut self, alloc: Global) -> Result<Option<Turn>, OutOfMemory>
        requires at { is_at_loop (inner self.old) ≡ true }
        ensures turned { IfOk result (λ o. TakesTurn o (inner self.old) (inner self.new)) }
        ensures first { self.new.first ≡ self.old.first }
        ensures own { own_of self.new ≡ own_of self.old }
    {
        let Some(frame) = self.items.last_mut() else {
            unreachable!()
        };
        frame.turn(alloc)
    }

    /// Takes the innermost frame.
    #[inline(always)]
    pub fn pop(&mut self) -> Option<Frame>
        ensures popped { inner self.old ≡ popped result (inner self.new) }
        ensures none { IfNone result (inner self.new ≡ []) }
        ensures first { self.new.first ≡ self.old.first }
    {
        let Some(frame) = self.items.pop() else {
            return None;
        };
        if frame.mark().is_some() {
            self.layer = innermost(self.items.as_slice(), self.first);
        }
        Some(frame)
    }

    /// What was kept of what the innermost frame does next.
    #[inline(always)]
    pub fn next(&self) -> Next
        ensures { result ≡ self.now.next }
    {
        self.next
    }

    /// Keeps what the innermost frame does next.
    #[inline(always)]
    pub fn set_next(&mut self, next: Next)
        ensures next { self.new.next ≡ next }
        ensures same { inner self.new ≡ inner self.old }
        ensures own { own_of self.new ≡ own_of self.old }
    {
        self.next = next;
    }

    /// The innermost frame.
    #[tactic(auto, using(crate::proofs::Reversed::reverse_top))]
    #[inline(always)]
    pub fn top(&self) -> Option<&Frame>
        ensures { topped (inner self.now) ≡ option_map (λ f. f.now) result }
    {
        self.items.last()
    }

    /// The layer around them all.
    pub fn first(&self) -> Chain
        ensures { result.number ≡ self.now.first }
    {
        Chain { number: self.first }
    }

    /// How many calls of workflows they stand in.
    #[tactic(auto, using(crate::proofs::Reversed::calls_reversed))]
    pub fn calls(&self) -> usize
        ensures { result ≡ calls_of (inner self.now) }
    {
        self.items.iter().filter(|frame| frame.is_back()).count()
    }

    /// The innermost of the task's own layers.
    #[inline(always)]
    pub fn layer(&self) -> Chain
        ensures { result.number ≡ innermost self.now.first (inner self.now) }
    {
        Chain { number: self.layer }
    }
}
