//! What a journal records: the start of an execution and its turns, and the one spelling of each record.
#![tactic(auto)]

mod argument;
mod data;
mod fault;
mod laws;
mod reading;
mod routes;
mod rows;
mod runs;
mod writing;

pub use argument::is_argument;
pub use data::{Event, Record, Start, Turn};
pub use fault::RecordFault;
pub use laws::one_spelling;
pub use reading::decode;
pub use routes::copy_routes;
pub use rows::worked_spellings;
pub use runs::{Events, Run};
pub use writing::{encode, encode_start, encode_turn};
