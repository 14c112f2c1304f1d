//! What is the rest of a line of a source in the YAML subset: a scalar, or a flow collection, which
//! is read in one walk.
#![tactic(auto)]

mod line;
mod nodes;
mod places;
mod signs;
mod turns;
mod walk;
mod words;

pub use line::one_line;
