//! The real outside: a journal file, sockets, the system's clock and standard output, and what is read from a file or a reader.
#![tactic(auto)]

mod clock;
mod connection;
mod disk;
mod disk_error;
mod file_host;
mod file_source;
mod journal_file;
mod late_file;
mod late_sockets;
mod names;
mod sockets;

pub use disk_error::DiskError;
pub use file_host::FileHost;
pub use file_source::FileSource;
pub use late_file::LateFile;
