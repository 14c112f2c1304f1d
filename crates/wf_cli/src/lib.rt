//! The top call of `workflow`: a command line is read and done, and what it comes to is printed.
//!
//! A command first finds out what it has to say, from its words, its source and the journal; then it prints that, and returns the status.
//! The contract of [`run_line`] has a clause for each status, and says what a crash at any moment leaves.
#![tactic(auto)]

mod argument;
mod checking;
mod end;
mod execution;
mod formatting;
mod reporting;
mod top;

pub use top::{perform, run_line};
