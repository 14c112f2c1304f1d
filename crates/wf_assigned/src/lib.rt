//! Which reads of variables are sure, and which steps nothing reaches.
#![tactic(auto)]

mod blocks;
mod edges;
mod laws;
mod links;
mod names;
mod numbers;
mod points;
mod sizes;
mod solve;

pub use laws::{laws_of_marks, laws_of_tasks};
