//! A durable engine: an execution over a journal, turn by turn; and the rules that it keeps, over every crash and every resumption.
#![tactic(auto)]

mod engine;
mod opening;
mod sending;
mod sessions;
mod starts;
mod taken;
mod taking;
mod turns;

pub use engine::Engine;
pub use starts::laws_of_starts;
pub use taken::Taken;
pub use turns::choose_turn;
pub use wf_replay::EngineFault;
