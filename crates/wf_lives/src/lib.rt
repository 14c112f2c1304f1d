//! What holds of an execution over all commands that it ever took, killed at any moments: laws of lists of commands, and worked
//! histories.
//!
//! The laws are about what wf_engine promises of one command; the functions here do nothing and carry them as clauses.
#![tactic(auto)]

mod lives;
mod rows;

pub use lives::{law_of_lives, law_of_stays};
pub use rows::worked_histories;
