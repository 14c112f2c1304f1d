// How a call was closed.

/// How a call was closed.
#[derive(Debug, Clone, Copy, PartialEq, Eq)]
pub enum Closed {
    /// Its answer came.
    Answered,
    /// Its due moment came first.
    TimedOut,
}
