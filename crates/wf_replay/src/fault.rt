// Why a history wasn't replayed.
ghost use Rattle.std.specs.Prelude.{◌≡◌};
ghost use Rattle.wf_replay.specs.Faults.{fault_of};

use thiserror::Error;
use wf_history::HistoryFault;

/// Why a history wasn't replayed.
#[derive(Clone, Copy, Debug, PartialEq, Eq, Error)]
pub enum ReplayFault {
    /// The disk failed, and its count of faults rose. The history is closed; the file has to be opened again.
    #[error("the disk failed")]
    DiskFault,
    /// The record with this number, from 0 on, is the first that doesn't go on: it is no turn, its session is 0 or over that number,
    /// its session or its waits are less than those of the turn before, or an event of it can't come. A number past 4,294,967,295 is
    /// told as that number.
    #[error("record {0} of the journal doesn't go on")]
    BadEvent(u32),
    /// An earlier call on the history answered `DiskFault`.
    #[error("the history is closed after a fault of the disk")]
    Closed,
    /// There was no memory. The machine is gone.
    #[error("out of memory")]
    OutOfMemory,
}

impl From<HistoryFault> for ReplayFault {
    ghost from_gives = { λ cause e. e ≡ fault_of cause };

    fn from(fault: HistoryFault) -> Self {
        match fault {
            HistoryFault::DiskFault => ReplayFault::DiskFault,
            HistoryFault::BadRecord(number) => ReplayFault::BadEvent(number),
            HistoryFault::Closed => ReplayFault::Closed,
            HistoryFault::NotAJournal | HistoryFault::OutOfMemory => ReplayFault::OutOfMemory,
        }
    }
}
