//! The rules of the syntax, as definitions: which program a source's tree is, and which fault of a tree is the first.
//! Their laws. No code reads trees here.
#![tactic(auto)]

mod fault;
mod laws;
mod rows;

pub use fault::{SyntaxFault, SyntaxKind};
pub use laws::{
    each_tree_is_one, first_fault_is_a_fault, first_fault_is_it, one_fault, one_program,
    small_backoffs,
};
pub use rows::worked_faults;
