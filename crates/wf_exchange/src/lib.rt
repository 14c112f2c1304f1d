//! What a request and a reply are at the other end: laws of texts that were heard in part.
#![tactic(auto)]

mod laws;

pub use laws::{replies_are_read, requests_are_read};
