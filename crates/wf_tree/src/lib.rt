//! A source's tree as it was read, before it is a program: its types, and how JSON (RFC 8259) is
//! read into it.
#![tactic(auto)]

mod entries;
mod json_depth;
mod json_laws;
mod json_text;
mod key;
mod pairs_so_far;
mod tree;

pub use json_laws::{paths_lead_to_decimals, reading_is_a_function, reading_is_decided};
pub use json_text::{TreeFault, read_json};
pub use pairs_so_far::PairsSoFar;
pub use tree::{Tree, TreeList, TreeMap};
