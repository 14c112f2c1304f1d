// What a command has found out before it prints.
ghost use Rattle.std.specs.Prelude.{◌≡◌, ◌≤◌, ◌⊎◌, IfOk, IsErr, IsErrAnd};
ghost use Rattle.wf_cli.specs.Said.{SaysStatus, SaysArgument, SaysOutcome, SaysFault, SaysSource};
ghost use Rattle.wf_machine.specs.Lent.{outcome_view};
ghost use Rattle.wf_machine.specs.Outcome.{IsResult, IsShallow};
ghost use Rattle.wf_status.specs.Statuses.{line_end};
ghost use Rattle.wf_value.specs.Data.{depth};
ghost use Rattle.wf_value.specs.Json.{json_text};
ghost use Rattle.wf_value.specs.Plain.{plain};

use crate::argument::ArgumentFault;
use std::alloc::Global;
use wf_engine::EngineFault;
use wf_host::ReadFault;
use wf_machine::Outcome;
use wf_source::SourceFault;
use wf_status::Status;
use wf_value::{OutOfMemory, Value, to_json};

/// A status and the text that is printed with it.
#[derive(Drop)]
pub(crate) struct Said {
    pub(crate) status: Status,
    pub(crate) text: Vec<u8>,
}

/// Why a command ends without a text.
#[derive(Clone, Copy)]
pub(crate) enum Silence {
    /// The source could not be read.
    Unread,
    /// The journal could not be read, written or synced.
    DiskFault,
    /// A poll failed.
    PollFault,
    /// There is no memory.
    OutOfMemory,
}

impl From<OutOfMemory> for Silence {
    ghost use Rattle.wf_cli.specs.declared.end.Silence.TheVariants as Silence;

    ghost from_gives = { λ _ s. s ≡ Silence.OutOfMemory };

    fn from(_cause: OutOfMemory) -> Silence {
        Silence::OutOfMemory
    }
}

impl From<ReadFault> for Silence {
    ghost use Rattle.wf_cli.specs.Said.{silence_of};

    ghost from_gives = { λ fault s. s ≡ silence_of fault };

    fn from(fault: ReadFault) -> Silence {
        match fault {
            ReadFault::Failed => Silence::Unread,
            ReadFault::OutOfMemory => Silence::OutOfMemory,
        }
    }
}

/// A value as a line of JSON.
fn json_line(alloc: Global, value: &Value) -> Result<Vec<u8>, OutOfMemory>
    requires { depth (plain value.now) ≤ 100 }
    ensures { IfOk result (λ text. text.items ≡ line_end (json_text (plain value.now))) }
{
    let mut text = to_json(alloc, value)?;
    text.push(b'\n')?;
    Ok(text)
}

/// The bytes of a text.
fn bytes_of(alloc: Global, text: &str) -> Result<Vec<u8>, OutOfMemory>
    ensures { IfOk result (λ bytes. bytes.items ≡ text.now) }
{
    Ok(Vec::from_slice(alloc, text.as_bytes())?)
}

impl Said {
    /// A status that prints a line of its own.
    pub(crate) fn line(alloc: Global, status: Status) -> Result<Said, OutOfMemory>
        ensures { IfOk result (SaysStatus status) }
    {
        let text = match status.text(alloc)? {
            Some(line) => bytes_of(alloc, line.as_str())?,
            None => Vec::new(alloc),
        };
        Ok(Said { status, text })
    }

    /// What the program tells of itself.
    pub(crate) fn report(alloc: Global, text: &str) -> Result<Said, OutOfMemory>
        ensures { IfOk result (λ said. (said.status ≡ Status.Done) × (said.text.items ≡ text.now)) }
    {
        Ok(Said {
            status: Status::Done,
            text: bytes_of(alloc, text)?,
        })
    }

    /// The status and the line of an outcome.
    pub(crate) fn outcome(alloc: Global, outcome: Outcome<'_>) -> Result<Said, OutOfMemory>
        requires result { IsResult (outcome_view outcome) }
        requires shallow { IsShallow (outcome_view outcome) }
        ensures { IfOk result (λ said. SaysOutcome said (outcome_view outcome.entry)) }
    {
        match outcome {
            Outcome::Returned(value) => Ok(Said {
                status: Status::Done,
                text: json_line(alloc, value)?,
            }),
            Outcome::Raised(error) => Ok(Said {
                status: Status::Raised,
                text: json_line(alloc, error)?,
            }),
            Outcome::Active => unreachable!(),
        }
    }

    /// The status and the line of an argument that isn't taken, or why there is none.
    pub(crate) fn of_argument(alloc: Global, fault: ArgumentFault) -> Result<Said, Silence>
        ensures { SaysArgument fault result }
    {
        match fault {
            ArgumentFault::Bad => Ok(Said::line(alloc, Status::BadArgument)?),
            ArgumentFault::OutOfMemory => Err(Silence::OutOfMemory),
        }
    }

    /// The status and the line of a source that isn't taken, or why there is none.
    pub(crate) fn of_source(alloc: Global, fault: SourceFault) -> Result<Said, Silence>
        ensures { SaysSource fault result }
    {
        match fault {
            SourceFault::Refused(refusal) => Ok(Said::line(alloc, Status::Refused(refusal))?),
            SourceFault::OutOfMemory => Err(Silence::OutOfMemory),
        }
    }

    /// The status and the line of a fault of the engine, or why there is none. An engine that wasn't closed before doesn't answer that
    /// it is.
    pub(crate) fn of_fault(alloc: Global, fault: EngineFault) -> Result<Said, Silence>
        ensures { SaysFault fault result }
    {
        let status = match fault {
            EngineFault::DiskFault => return Err(Silence::DiskFault),
            EngineFault::PollFault => return Err(Silence::PollFault),
            EngineFault::NotAJournal => Status::NotAJournal,
            EngineFault::NotAHistory(number) => Status::NotAHistory(number),
            EngineFault::AlreadyStarted => Status::AlreadyStarted,
            EngineFault::NotStarted => Status::NotStarted,
            EngineFault::Suspended => Status::Suspended,
            EngineFault::Closed | EngineFault::OutOfMemory => return Err(Silence::OutOfMemory),
        };
        Ok(Said::line(alloc, status)?)
    }
}
