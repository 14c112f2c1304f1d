// Retry policies: what a backoff and a predefined predicate are.

/// The delays of a retry, as the `backoff` of a retry policy has them (Google Cloud Workflows
/// reference, "Retry steps").
#[derive(Debug, Clone, Copy, PartialEq, Eq)]
pub struct Backoff {
    /// The first delay, in milliseconds.
    pub initial: u64,
    /// The longest delay, in milliseconds.
    pub max: u64,
    /// By how much a delay grows from one retry to the next, in thousandths.
    pub multiplier: u64,
}

/// The two predefined predicates of retry policies.
#[derive(Debug, Clone, Copy, PartialEq, Eq)]
pub enum DefaultKind {
    /// For calls that may be made twice: `http.default_retry_predicate`.
    Idempotent,
    /// For calls that may not: `http.default_retry_predicate_non_idempotent`.
    NonIdempotent,
}
