//! What a call sends: where its URL leads, and the bytes of its request (RFC 9112).
#![tactic(auto)]

mod asked;
mod body;
mod escapes;
mod fault;
mod fields;
mod goal;
mod laws;
mod leading;
mod lines;
mod names;
mod parts;
mod port;
mod request;
mod route;

pub use asked::Asked;
pub use fault::OutFault;
pub use goal::Goal;
pub use laws::urls_are_of_http_uri;
pub use leading::address;
pub use request::request_bytes;
