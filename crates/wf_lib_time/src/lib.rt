//! The functions `time.*` of the language's library: seconds since 1970-01-01T00:00:00Z, and their
//! texts (RFC 3339). The calendar is that of `jiff`.
#![tactic(auto)]

mod civil;
mod form;
mod format;
mod parse;
mod zone;

pub use format::time_format;
pub use parse::time_parse;
