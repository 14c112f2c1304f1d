//! Names that are known at a place of a program.
#![tactic(auto)]

mod around;
mod names;
mod tables;

pub use around::{Block, Here, Inside, Layer, Scopes, is_visible, layer_of};
pub use names::Names;
pub use tables::{add_step_names, loop_names, param_names, text_names};
