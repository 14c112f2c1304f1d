// How a command ends.
ghost use Rattle.std.specs.Prelude.{◌≡◌, ◌++◌, IfOk, decimal};
ghost use Rattle.wf_status.specs.Statuses.{status_code, status_text, line_end};

use crate::Refusal;
use std::alloc::Global;
use wf_value::{OutOfMemory, Text};

/// How a command ends.
#[derive(Drop)]
pub enum Status {
    /// The command did its work. An execution returned a value, which was printed whole.
    Done,
    /// The execution ended with an error, which was printed whole.
    Raised,
    /// The words are no command line. The number is that of the least word, from 0 on, with which
    /// they begin none, or the count of the words where only more of them are missing.
    BadLine(u32),
    /// The source is refused.
    Refused(Refusal),
    /// The text of the argument is not JSON, or is past its limit.
    BadArgument,
    /// The journal has a first record, so the execution in it can only be resumed.
    AlreadyStarted,
    /// The journal has no first record.
    NotStarted,
    /// The source could not be read.
    ReadFault,
    /// What was to be printed could not be printed whole.
    PrintFault,
    /// The journal could not be read, written or synced.
    DiskFault,
    /// The host could not wait for answers.
    PollFault,
    /// The journal's file begins otherwise than a journal.
    NotAJournal,
    /// The records of the journal are no history of an execution, from this number on.
    NotAHistory(u32),
    /// The execution waited as often as it was allowed to, and goes on when it is resumed.
    Suspended,
    /// There is no memory.
    OutOfMemory,
}

impl Status {
    /// The exit status of the program, from 0 to 14.
    pub fn code(&self) -> u8
        ensures { result ≡ status_code self.now }
    {
        match self {
            Status::Done => 0,
            Status::Raised => 1,
            Status::BadLine(_) => 2,
            Status::Refused(_) => 3,
            Status::BadArgument => 4,
            Status::AlreadyStarted => 5,
            Status::NotStarted => 6,
            Status::ReadFault => 7,
            Status::PrintFault => 8,
            Status::DiskFault => 9,
            Status::PollFault => 10,
            Status::NotAJournal => 11,
            Status::NotAHistory(_) => 12,
            Status::Suspended => 13,
            Status::OutOfMemory => 14,
        }
    }

    /// The line that a command prints because it ends so, with its line end. There is none where
    /// an outcome is printed, or where the outside or the memory failed.
    pub fn text(&self, alloc: Global) -> Result<Option<Text>, OutOfMemory>
        ensures { IfOk result (λ t. t ≡ status_text self.now) }
    {
        let line = match self {
            Status::BadLine(word) => numbered(alloc, "bad line at word ", *word)?,
            Status::Refused(refusal) => refusal.line(alloc)?,
            Status::BadArgument => Text::new(alloc, "bad argument\n")?,
            Status::AlreadyStarted => Text::new(alloc, "already started\n")?,
            Status::NotStarted => Text::new(alloc, "not started\n")?,
            Status::NotAJournal => Text::new(alloc, "not a journal\n")?,
            Status::NotAHistory(record) => numbered(alloc, "not a history at record ", *record)?,
            Status::Suspended => Text::new(alloc, "suspended\n")?,
            Status::Done
            | Status::Raised
            | Status::ReadFault
            | Status::PrintFault
            | Status::DiskFault
            | Status::PollFault
            | Status::OutOfMemory => return Ok(None),
        };
        Ok(Some(line))
    }
}

/// A line that ends with a number in decimal.
fn numbered(alloc: Global, what: &str, number: u32) -> Result<Text, OutOfMemory>
    ensures { IfOk result (λ t. t ≡ what.now ++ line_end (decimal number)) }
{
    let text = format!(in alloc; "{what}{number}\n")?;
    Text::new(alloc, text.as_str())
}
