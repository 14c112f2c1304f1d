// How grave a logged value is.

/// The severity of a log entry, from the least grave on (Cloud Logging reference, `LogSeverity`).
#[derive(Debug, Clone, Copy, PartialEq, Eq)]
pub enum Severity {
    /// No severity was given.
    Default,
    /// Traces for finding faults.
    Debug,
    /// Routine messages.
    Info,
    /// Normal and worth a note.
    Notice,
    /// May become a trouble.
    Warning,
    /// Likely a trouble.
    Error,
    /// A grave trouble or an outage.
    Critical,
    /// Someone has to act at once.
    Alert,
    /// Systems cannot be used.
    Emergency,
}
