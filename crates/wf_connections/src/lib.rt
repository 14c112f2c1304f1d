//! The calls that a session has started, by their numbers, and what was told of each.
#![tactic(auto)]

mod connections;
mod line;
mod lines;
mod reply;

pub use connections::Connections;
