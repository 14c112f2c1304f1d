//! Names of variables.
#![tactic(auto)]

mod name;

pub use name::Name;
