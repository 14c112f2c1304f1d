//! Retry policies.
use wf_value::{Backoff, DefaultKind, Text};

/// Which errors are tried again.
#[derive(Drop)]
pub enum Predicate {
    Always,
    Never,
    Default(DefaultKind),
    Flow(Text),
}

/// When and how often a failed body is tried again.
pub struct Policy {
    pub predicate: Predicate,
    pub max_retries: u32,
    pub backoff: Backoff,
}

// Written, and not derived: it is one call wherever a policy is let go.
impl Drop for Policy {
    fn drop(self) {
        let Policy {
            predicate: _,
            max_retries: _,
            backoff: _,
        } = self;
    }
}
