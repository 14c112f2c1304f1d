// What can keep the journal from its work.
ghost use Rattle.std.specs.Prelude.{◌≡◌};
ghost use Rattle.wf_journal.specs.declared.fault.JournalFault.TheVariants.{DiskFault, OutOfMemory};

use std::alloc::AllocError;
use thiserror::Error;
use wf_host::Failed;

/// Why a call on the journal did not do its work.
#[derive(Clone, Copy, Debug, PartialEq, Eq, Error)]
pub enum JournalFault {
    /// A call on the disk failed. The journal is closed; the file has to be opened again.
    #[error("the disk failed")]
    DiskFault,
    /// The file has at least 5 bytes and doesn't begin with `WFJ1`.
    #[error("the file is not a journal")]
    NotAJournal,
    /// The payload has more than 16,777,215 bytes.
    #[error("the record is too long")]
    TooLong,
    /// An earlier call answered `DiskFault`.
    #[error("the journal is closed after a fault of the disk")]
    Closed,
    /// There was no memory for a payload.
    #[error("out of memory")]
    OutOfMemory,
}

impl From<Failed> for JournalFault {
    ghost from_gives = { λ _ e. e ≡ DiskFault };

    fn from(_: Failed) -> Self {
        JournalFault::DiskFault
    }
}

impl From<AllocError> for JournalFault {
    ghost from_gives = { λ _ e. e ≡ OutOfMemory };

    fn from(_: AllocError) -> Self {
        JournalFault::OutOfMemory
    }
}
