//! The sources of workflows: their trees, by the reader that the first byte chooses, and their
//! programs, as far as they are run.
#![tactic(auto)]

mod fault;
mod laws;
mod program;
mod refusing;
mod rows;
mod tree;

pub use fault::SourceFault;
pub use laws::{each_source_is_one, laws_of_sources};
pub use program::read_source;
pub use rows::worked_sources;
pub use tree::{SOURCE_LIMIT, read_tree};
