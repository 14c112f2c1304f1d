//! The values that answers to calls and requests to callbacks give a program, and the errors that
//! answers raise.
#![tactic(auto)]

mod body;
mod fault;
mod headers;
mod json;
mod limits;
mod maps;
mod media;
mod names;
mod reply;
mod response;
mod visit;

pub use fault::ReplyFault;
pub use reply::reply_value;
pub use response::response_value;
pub use visit::visit_value;
