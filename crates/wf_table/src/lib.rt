//! The table of a program: a node for each number, with its jumps resolved.
#![tactic(auto)]

mod around;
mod build;
mod copies;
mod growing;
mod jumps;
mod laws;
mod names;
mod table;

pub use laws::preorder;
pub use table::{Table, table_of};
