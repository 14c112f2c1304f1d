//! What the checker tells of a node.
#![tactic(auto)]

mod kind;
mod parts;
mod stop;

pub use kind::CheckKind;
pub use parts::{Part, next_of};
pub use stop::{Stop, keyed, speak, speak_at, speak_deep, speak_within};
