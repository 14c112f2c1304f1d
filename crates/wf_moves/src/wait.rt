// What tasks wait for.
use wf_frames::Work;

/// A parallel step in which a task stands: its node, the number of the next branch or iteration, and what is left from that one on.
#[derive(Drop)]
pub(crate) struct Joining {
    pub(crate) node: u32,
    pub(crate) left: Work,
    pub(crate) next: u32,
}

/// What a task waits for: nothing, the end of the sleep of a node's call, the moment at which the innermost `try` is tried again, the
/// answer to the call of this number, which the node makes, or the branches of a parallel step. Moments are in milliseconds since 1970.
#[derive(Drop)]
pub(crate) enum Wait {
    Awake,
    Sleep { due: u64, node: u32 },
    Delay { due: u64 },
    Calling { call: u64, node: u32 },
    Joining(Box<Joining>),
}
