//! How a command ends: statuses, refusals and the texts that they print.
#![tactic(auto)]

mod kind;
mod place;
mod refusal;
mod status;

pub use kind::RefusalKind;
pub use place::Place;
pub use refusal::Refusal;
pub use status::Status;
