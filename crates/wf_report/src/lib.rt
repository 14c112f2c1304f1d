//! Reports of an execution, from its journal alone.
//!
//! [`show`] tells what an execution has come to, [`log_lines`] what it has logged, and [`state_at`] what it had come to after some of its
//! turns. The text is that of the configuration to which the records lead; nothing is written, and no clock is read.
#![tactic(auto)]

mod log;
mod opening;
mod showing;

pub use log::log_lines;
pub use opening::{last_state, state_at};
pub use showing::show;
