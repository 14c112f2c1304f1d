//! Replaying the records of a journal.
//!
//! [`first_machine`] reads record 0 and makes a machine of it. [`replay`] then applies the turns that the history has left, and tells the
//! first record that doesn't go on from there, by the rules of wf_deeds; [`replay_turns`] applies the next ones of them alone.
//! [`last_machine`] does both for a whole history.
#![tactic(auto)]

mod engine_fault;
mod fault;
mod opening;
mod replaying;

pub use engine_fault::EngineFault;
pub use fault::ReplayFault;
pub use opening::{first_machine, last_machine};
pub use replaying::{replay, replay_turns};
