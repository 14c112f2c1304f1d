//! What the arguments of calls of `sys.log`, `sys.sleep` and `sys.sleep_until` ask for, or their first error (Google Cloud Workflows
//! reference, "Standard library").
#![tactic(auto)]

mod argument;
mod entry;
mod moment;

pub use entry::{Logged, entry_of};
pub use moment::{due_of, sleep_due, until_due};
