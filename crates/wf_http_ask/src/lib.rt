//! What the arguments of an HTTP call ask for, and where and how that is sent (RFC 9112).
#![tactic(auto)]

mod arguments;
mod asking;
mod laws;
mod pairs;
mod request;

pub use asking::asked_of;
pub use laws::kinds_come_first;
pub use request::{Request, request_of};
