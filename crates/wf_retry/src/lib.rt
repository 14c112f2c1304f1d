//! What a retry waits, and which errors a predefined predicate retries.
#![tactic(auto)]

mod delays;
mod predicates;

pub use delays::next_delay;
pub use predicates::default_says;
