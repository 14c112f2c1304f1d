//! The rule of names that are read, and the table of the forms that aren't built yet.
#![tactic(auto)]

mod arguments;
mod calls;
mod expressions;
mod forms;
mod reads;
mod signature;

pub use calls::{bad_argument, flow_named, unknown_call};
pub use expressions::unknown_name;
pub use forms::not_yet;
