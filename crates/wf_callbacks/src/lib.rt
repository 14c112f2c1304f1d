//! Callback endpoints: which requests came to them and wait to be taken.
#![tactic(auto)]

mod endpoint;
mod endpoints;
mod fault;
mod fields;
mod method;
mod visitor;

pub use endpoints::Endpoints;
pub use fault::ArriveFault;
pub use fields::Fields;
pub use method::Method;
pub use visitor::Visitor;
