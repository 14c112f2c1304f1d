//! Lines of cases: what stands in a line of a table, for the programs that read them.
//!
//! A line of a case program is the name of its table, a blank, and the case as a list in compact JSON.
#![tactic(auto)]

mod fault;
mod line;
mod pieces;
mod texts;
mod values;

pub use fault::CaseFault;
pub use line::{Case, case_of};
pub use pieces::{bytes_of, hex_of, text_of};
pub use texts::{json_of, quoted, utf8};
pub use values::{blob_of, value_of, values_of};
