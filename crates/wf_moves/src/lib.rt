//! The moves of one task: what a step does to its frames and its layers.
//!
//! A task stands before a step of a program, in frames of numbers over the program's table. Each move is one of the definition of steps:
//! the innermost frame says what is next, it is carried out, and what has ended is left. A call of HTTP makes a request, and the task waits
//! for its answer. It waits too where it sleeps, and until the body of a `try` is tried again.
#![tactic(auto)]

mod assign;
mod back;
mod branch;
mod branch_errors;
mod call;
mod finish;
mod forking;
mod judging;
mod jump;
mod laws;
mod leading;
mod logging;
mod moves;
mod raising;
mod sending;
mod sleeping;
mod start;
mod task;
mod turn;
mod unwind;
mod wait;

pub use branch::Begun;
pub use finish::End;
pub use laws::{begins_as_steps_do, joins_as_steps_do};
pub use logging::Behind;
pub use sending::{Sending, Sent};
pub use task::{Move, Task, Told};
pub use wf_frames::Fork;
pub use wf_sys_ask::Logged;
