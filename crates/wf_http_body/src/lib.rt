//! Bodies of HTTP messages (RFC 9112, sections 6 and 7): how long one is by the fields of its head,
//! and its content, read as it comes.
#![tactic(auto)]

mod body;
mod chunk;
mod fields;
mod framing;
mod head;
mod laws;
mod number;
mod room;
mod sized;
mod trailer;

pub use body::{Chunks, End};
pub use framing::{Coding, Length, coding_of, length_of};
pub use head::head_length;
pub use laws::bodies_have_one_state;
pub use room::{FIELD_LIMIT, LARGE_ROOM, add};
pub use sized::read_length;
