// What can keep an engine from its work.
ghost use Rattle.std.specs.Prelude.{◌≡◌};
ghost use Rattle.wf_replay.specs.EngineFaults.{fault_of, poll_fault, replay_fault};
ghost use Rattle.wf_replay.specs.declared.engine_fault.EngineFault.TheVariants as variant;

use crate::fault::ReplayFault;
use thiserror::Error;
use wf_history::HistoryFault;
use wf_host::PollError;
use wf_value::OutOfMemory;

/// Why a call of an engine gave nothing.
#[derive(Clone, Copy, Debug, PartialEq, Eq, Error)]
pub enum EngineFault {
    /// The disk failed, and its count of faults rose.
    #[error("the disk failed")]
    DiskFault,
    /// A poll failed, and its count of faults rose.
    #[error("the sockets failed")]
    PollFault,
    /// The file has at least 5 bytes and doesn't begin with `WFJ1`.
    #[error("the file is not a journal")]
    NotAJournal,
    /// The records of the file are no history: those up to the one with this number, from 0 on, begin none, and the number is the least.
    /// A number past 4,294,967,295 is told as that number.
    #[error("the journal is not a history at record {0}")]
    NotAHistory(u32),
    /// The file has a first record.
    #[error("the journal has an execution already")]
    AlreadyStarted,
    /// The file has no record.
    #[error("the journal has no execution")]
    NotStarted,
    /// Nothing can move before something comes from outside, and the session waits no more.
    #[error("suspended")]
    Suspended,
    /// An earlier call on the engine has failed.
    #[error("the engine is closed after a fault")]
    Closed,
    /// There was no memory.
    #[error("out of memory")]
    OutOfMemory,
}

impl From<OutOfMemory> for EngineFault {
    ghost from_gives = { λ _ e. e ≡ variant.OutOfMemory };

    fn from(_: OutOfMemory) -> Self {
        EngineFault::OutOfMemory
    }
}

impl From<PollError> for EngineFault {
    ghost from_gives = { λ cause e. e ≡ poll_fault cause };

    fn from(error: PollError) -> Self {
        match error {
            PollError::Failed => EngineFault::PollFault,
            PollError::OutOfMemory => EngineFault::OutOfMemory,
        }
    }
}

impl From<HistoryFault> for EngineFault {
    ghost from_gives = { λ cause e. e ≡ fault_of cause };

    fn from(fault: HistoryFault) -> Self {
        match fault {
            HistoryFault::DiskFault => EngineFault::DiskFault,
            HistoryFault::NotAJournal => EngineFault::NotAJournal,
            HistoryFault::BadRecord(number) => EngineFault::NotAHistory(number),
            HistoryFault::Closed => EngineFault::Closed,
            HistoryFault::OutOfMemory => EngineFault::OutOfMemory,
        }
    }
}

impl From<ReplayFault> for EngineFault {
    ghost from_gives = { λ cause e. e ≡ replay_fault cause };

    fn from(fault: ReplayFault) -> Self {
        match fault {
            ReplayFault::DiskFault => EngineFault::DiskFault,
            ReplayFault::BadEvent(number) => EngineFault::NotAHistory(number),
            ReplayFault::Closed => EngineFault::Closed,
            ReplayFault::OutOfMemory => EngineFault::OutOfMemory,
        }
    }
}
