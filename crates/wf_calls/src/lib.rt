//! The HTTP calls of an execution: which are open, and what was sent for them.
#![tactic(auto)]

mod call;
mod calls;
mod closed;
mod laws;

pub use calls::Calls;
pub use closed::Closed;
pub use laws::numbers_are_those_of_steps;
