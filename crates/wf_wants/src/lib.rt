//! Which event each node of a program wants: a plain one, one with a reading of the clock, or one that makes a request.
#![tactic(auto)]

mod clock;
mod wants;

pub use wants::wants_of;
