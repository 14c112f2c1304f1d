//! Laws of values as JSON: what is written of a value is read back as that value.
#![tactic(auto)]

mod again;
mod laws;

pub use again::{compact, read_again};
pub use laws::{said_values_come_back, texts_are_short, values_come_back};
