//! The words of the language: its names and numbers, the fields of its maps, and the forms of a body.
#![tactic(auto)]

mod fields;
mod names;
mod numbers;

pub use fields::{field, has, has_all, has_only, has_only_of_form, is_empty, single};
pub use names::{is_among, is_name, is_step_name, unmarked};
pub use numbers::{thousandths_to, whole_within};
