//! How a tree is written in the YAML subset: one text for each tree, in the order of its keys.
#![tactic(auto)]

mod laws;
mod layout;
mod texts;

pub use laws::{lines_come_back, scalars_come_back, texts_come_back, trees_come_back};
pub use layout::write_yaml;
