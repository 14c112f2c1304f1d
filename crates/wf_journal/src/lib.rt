//! A journal: a file of records that a crash at any moment can't tear.
//!
//! The file begins with a magic; behind it stands a gate byte, and behind each open gate a record and the next gate. A record counts from the
//! moment in which its gate opens, and that is the last write of [`Journal::append`]. docs/JOURNAL.md tells the format.
#![tactic(auto)]

mod fault;
mod journal;
mod reading;
mod record;
mod writing;

pub use fault::JournalFault;
pub use journal::Journal;
