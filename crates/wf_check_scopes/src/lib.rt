//! The rules of scopes: lists of steps, their names, jumps, and what branches write and share.
#![tactic(auto)]

mod blocks;
mod limits;
mod variables;

pub use blocks::{double, empty, out_of_scope, outside_loop, return_in_branch, unknown_step};
pub use limits::too_many;
pub use variables::{undeclared_write, unknown_shared};
