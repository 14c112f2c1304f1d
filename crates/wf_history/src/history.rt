// A journal whose payloads are records.
ghost use Rattle.std.specs.Prelude.{◌≤◌};

use crate::HistoryFault;
use std::alloc::Global;
use wf_events::{Record, RecordFault, Start, Turn, decode, encode_start, encode_turn};
use wf_host::Host;
use wf_journal::Journal;

/// The history of an execution, read to some record. After a fault of the disk it is opened again.
#[derive(Drop)]
pub struct History {
    journal: Journal,
    place: u64,
    last: Option<(u64, u64)>,
}

impl History {
    ghost use Rattle.std.specs.Prelude.{◌≡◌, ◌≢◌, [], true, false, length};
    ghost use Rattle.wf_events.specs.Spelling.{record_bytes, HasSpelling};
    ghost use Rattle.wf_events.specs.View.{start_view, turn_view};
    ghost use Rattle.wf_history.specs.Faults.{IsFaultAt};
    ghost use Rattle.wf_history.specs.Kinds.{added_record, first_record};
    ghost use Rattle.wf_history.specs.Promises.{Opens, ReadsNext, Begins, Adds};
    ghost use Rattle.wf_history.specs.Stands.{is_new, at_end, is_closed, place, last, Stands};
    ghost use Rattle.wf_host.specs.World.{Told};
    ghost use Rattle.wf_journal.specs.Records.{records};

    /// Opens the file of a host, once what it reads is stable. It takes no memory and writes nothing.
    ///
    /// The error is `DiskFault` where a disk call failed, and `NotAJournal` exactly where the file has at least 5 bytes and another magic.
    pub fn open<H: Host>(host: &mut H) -> Result<History, HistoryFault>
        ensures { Opens H.world H.faults host.old host.new result }
    {
        Ok(History {
            journal: Journal::open(host)?,
            place: 0,
            last: None,
        })
    }

    /// The session and the waits of the last turn that was read or added, if there is one.
    pub fn last(&self) -> Option<(u64, u64)>
        ensures { result ≡ last self.now }
    {
        self.last
    }

    /// The number of the record that comes next, from 0 on.
    pub fn place(&self) -> u64
        ensures { result ≡ place self.now }
    {
        self.place
    }

    /// Whether the last record was read.
    pub fn at_end(&self) -> bool
        ensures { result ≡ at_end self.now }
    {
        self.journal.at_end()
    }

    /// Whether the disk failed in an earlier call.
    pub fn is_closed(&self) -> bool
        ensures { result ≡ is_closed self.now }
    {
        self.journal.is_closed()
    }

    /// The next record, or nothing behind the last.
    ///
    /// The error is `BadRecord` with the payload's number where it is no record, or `OutOfMemory`, and then the history stays as it was and
    /// the same payload still comes next; `DiskFault` where a disk call failed, and then the history is closed; or `Closed` exactly where it
    /// was closed before.
    pub fn next<H: Host>(
        &mut self,
        alloc: Global,
        host: &mut H,
    ) -> Result<Option<Record>, HistoryFault>
        requires kept { is_closed self.old ≡ false
            → Told (H.world host.old) (Stands self.old (H.world host.old)) }
        ensures { ReadsNext H.world H.faults self.old self.new host.old host.new result }
    {
        let before = self.journal;
        let mut room = Vec::new(alloc);
        let Some(payload) = self.journal.next(alloc, host, &mut room)? else {
            return Ok(None);
        };
        match decode(alloc, payload) {
            Ok(record) => {
                self.place = self.place.saturating_add(1);
                if let Record::Turn(turn) = &record {
                    self.last = Some((turn.session, turn.waits));
                }
                Ok(Some(record))
            }
            Err(fault) => {
                self.journal = before;
                Err(self.fault_of(fault))
            }
        }
    }

    /// A payload that gave no record, by its number.
    fn fault_of(&self, fault: RecordFault) -> HistoryFault
        ensures { IsFaultAt result fault (place self.now) }
    {
        let number = u32::try_from(self.place).unwrap_or(u32::MAX);
        match fault {
            RecordFault::BadRecord(_) => HistoryFault::BadRecord(number),
            RecordFault::OutOfMemory => HistoryFault::OutOfMemory,
        }
    }

    /// Begins the history of an execution with its start. From its Ok on each crash leaves a file that has it.
    ///
    /// The error is `DiskFault` where a disk call failed, and then the history is closed, and a crash leaves no record or the start alone;
    /// `Closed` exactly where it was closed before; or `OutOfMemory`, and then nothing has changed.
    pub fn begin<H: Host>(
        &mut self,
        alloc: Global,
        host: &mut H,
        start: &Start,
    ) -> Result<(), HistoryFault>
        requires ended { at_end self.old ≡ true }
        requires none { Told (H.world host.old) (records (H.world host.old).seen ≡ []) }
        requires spelled { HasSpelling (first_record (start_view start.now)) }
        requires short { length (record_bytes (first_record (start_view start.now))) ≤ 16777215 }
        requires kept { is_closed self.old ≡ false
            → Told (H.world host.old) (Stands self.old (H.world host.old)) }
        ensures { Begins H.world H.faults self.old self.new host.old host.new start.now result }
    {
        if self.is_closed() {
            return Err(HistoryFault::Closed);
        }
        let payload = encode_start(alloc, start)?;
        if self.journal.is_new() {
            self.journal.begin(host)?;
        }
        self.journal.append(host, &payload)?;
        self.place = 1;
        Ok(())
    }

    /// Adds a turn. From its Ok on each crash leaves a file that has it.
    ///
    /// The error is `DiskFault` where a disk call failed, and then the history is closed, and a crash leaves the records before or these and
    /// the turn; `Closed` exactly where it was closed before; or `OutOfMemory`, and then nothing has changed.
    pub fn add<H: Host>(
        &mut self,
        alloc: Global,
        host: &mut H,
        turn: &Turn,
    ) -> Result<(), HistoryFault>
        requires ended { at_end self.old ≡ true }
        requires begun { is_new self.old ≡ false }
        requires started { Told (H.world host.old) (records (H.world host.old).seen ≢ []) }
        requires spelled { HasSpelling (added_record (turn_view turn.now)) }
        requires short { length (record_bytes (added_record (turn_view turn.now))) ≤ 16777215 }
        requires kept { is_closed self.old ≡ false
            → Told (H.world host.old) (Stands self.old (H.world host.old)) }
        ensures { Adds H.world H.faults self.old self.new host.old host.new turn.now result }
    {
        if self.is_closed() {
            return Err(HistoryFault::Closed);
        }
        let payload = encode_turn(alloc, turn)?;
        self.journal.append(host, &payload)?;
        self.place = self.place.saturating_add(1);
        self.last = Some((turn.session, turn.waits));
        Ok(())
    }
}
