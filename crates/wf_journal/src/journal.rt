// The journal as its users see it.
ghost use Rattle.std.specs.Prelude.{◌<◌};

use crate::JournalFault;
use crate::reading::{Block, read_block};
use crate::record::{MAGIC, add_record, write_start};
use std::alloc::{AllocError, Global};
use wf_host::{Failed, Host};

/// No payload is longer, in bytes.
const LONGEST: usize = 16_777_215;

/// The journal in a host's file, read to some gate. All its calls take the same host, and nothing else writes this file.
/// After a fault of the disk it is closed, since nobody knows then what the file holds; the file has to be opened again.
#[derive(Clone, Copy, Drop)]
pub struct Journal {
    /// Where the next gate stands, in bytes from the file's start.
    gate: u64,
    /// The file's length in bytes when it was opened.
    size: u64,
    /// The file has at most 4 bytes.
    is_new: bool,
    /// The gate isn't open.
    at_end: bool,
    /// The gate's byte is 1, though it isn't open.
    stale: bool,
    /// A disk call failed.
    closed: bool,
    ghost fits: { gate < 9_223_372_036_854_775_807 },
    ghost sized: { size < 9_223_372_036_854_775_808 },
}

impl Journal {
    ghost use Rattle.std.specs.Prelude.{◌≡◌, ◌⊎◌, ◌↔◌, ◌<◌, [], ◌∷◌, true, false, OnOk, IfOk, IsErrOf};
    ghost use Rattle.wf_host.specs.Calls.{AtAnyMoment, DiskFailed, DoesNoDeed, NoCountFalls, ReadsAsBefore, TellsAsBefore};
    ghost use Rattle.wf_host.specs.World.{Told};
    ghost use Rattle.wf_journal.specs.Journal.{Stays};
    ghost use Rattle.wf_journal.specs.Promises.{Opens, Lends, Begins, Appends};
    ghost use Rattle.wf_journal.specs.Stands.{is_new, at_end, is_closed, ahead, unread, Stands};

    /// Opens the host's file, once what it reads is stable. A file of at most 4 bytes is new. It takes no memory and writes nothing.
    ///
    /// The error is `DiskFault` where a disk call failed, and `NotAJournal` exactly where the file has at least 5 bytes and another magic.
    pub fn open<H: Host>(host: &mut H) -> Result<Journal, JournalFault>
        ensures { Opens H.world H.faults host.old host.new result }
    {
        host.sync()?;
        let size = host.size()?;
        if size <= 4 {
            return Ok(Journal {
                gate: 4,
                size,
                is_new: true,
                at_end: true,
                stale: false,
                closed: false,
            });
        }
        let mut front = [0; 4];
        let _ = host.read_at(0, &mut front)?;
        if front != MAGIC {
            return Err(JournalFault::NotAJournal);
        }
        Ok(Journal {
            gate: 4,
            size,
            is_new: false,
            at_end: false,
            stale: false,
            closed: false,
        })
    }

    /// Whether the file is new, so that it has to be begun before a record is added.
    pub fn is_new(&self) -> bool
        ensures { result ≡ is_new self.now }
    {
        self.is_new
    }

    /// Whether the first gate that isn't open was reached, so that a record may be added.
    pub fn at_end(&self) -> bool
        ensures { result ≡ at_end self.now }
    {
        self.at_end
    }

    /// Whether an earlier call answered `DiskFault`.
    pub fn is_closed(&self) -> bool
        ensures { result ≡ is_closed self.now }
    {
        self.closed
    }

    /// Lends the next payload from the room, or nothing at the first gate that isn't open. The room loses what it held, grows a piece at a
    /// time as the payload is read, and holds just the payload that is lent.
    ///
    /// The error is `DiskFault` where a disk call failed, and then the journal is closed; `Closed` exactly where it was closed before; or
    /// `OutOfMemory` where the room couldn't grow, and then the same payload still comes next. Reading ends over any host: `unread` falls.
    pub fn next<'a, H: Host>(
        &mut self,
        _alloc: Global,
        host: &mut H,
        room: &'a mut Vec<u8>,
    ) -> Result<Option<&'a [u8]>, JournalFault>
        requires kept { is_closed self.old ≡ false
            → Told (H.world host.old) (Stands self.old (H.world host.old)) }
        ensures { Lends H.world H.faults self.old self.new host.old host.new result }
    {
        match self.fill_next(host, room) {
            Ok(true) => Ok(Some(room.as_slice())),
            Ok(false) => Ok(None),
            Err(fault) => Err(fault),
        }
    }

    /// Fills the room with the next payload, if there is one.
    fn fill_next<H: Host>(&mut self, host: &mut H, room: &mut Vec<u8>) -> Result<bool, JournalFault>
        requires kept { is_closed self.old ≡ false
            → Told (H.world host.old) (Stands self.old (H.world host.old)) }
        ensures stands { is_closed self.new ≡ false
            → Told (H.world host.old) (Stands self.new (H.world host.new)) }
        ensures open { OnOk result (is_closed self.new ≡ false) }
        ensures payload { Told (H.world host.old)
            (IfOk result (λ found. found ≡ true
            → ahead self.old (H.world host.old).seen
            ≡ room.new.items ∷ ahead self.new (H.world host.old).seen)) }
        ensures none { Told (H.world host.old)
            (IfOk result (λ found. found ≡ false → ahead self.old (H.world host.old).seen ≡ [])) }
        ensures ended { IfOk result (λ found. found ≡ false → at_end self.new ≡ true) }
        ensures not_ended { IfOk result (λ found. found ≡ true → at_end self.new ≡ false) }
        ensures shorter { IfOk result (λ found. found ≡ true → unread self.new < unread self.old) }
        ensures none_ahead { Told (H.world host.old)
            (IfOk result (λ found. found ≡ false → ahead self.new (H.world host.new).seen ≡ [])) }
        ensures seen { ReadsAsBefore H.world host.old host.new }
        ensures any_moment { is_closed self.old ≡ false
            → AtAnyMoment H.world host.old host.new (Stays (H.world host.old)) }
        ensures disk_fault { IsErrOf result JournalFault.DiskFault
            → DiskFailed H.faults host.old host.new }
        ensures closed { IsErrOf result JournalFault.Closed ↔ (is_closed self.old ≡ true) }
        ensures closes { (is_closed self.new ≡ true)
            ↔ ((is_closed self.old ≡ true) ⊎ IsErrOf result JournalFault.DiskFault) }
        ensures not_asked { ¬ IsErrOf result JournalFault.NotAJournal }
        ensures too_long { ¬ IsErrOf result JournalFault.TooLong }
        ensures unchanged { IsErrOf result JournalFault.OutOfMemory → self.new ≡ self.old }
        ensures idle { IsErrOf result JournalFault.Closed
            → (self.new ≡ self.old) × (host.new ≡ host.old) }
        ensures new { is_new self.new ≡ is_new self.old }
        ensures deeds { DoesNoDeed H.world host.old host.new }
        ensures tells { TellsAsBefore H.world host.old host.new }
        ensures counts { NoCountFalls H.faults host.old host.new }
    {
        if self.closed {
            return Err(JournalFault::Closed);
        }
        if self.at_end {
            return Ok(false);
        }
        match read_block(host, self.gate, self.size, room) {
            Ok(Block::Payload(len)) => {
                self.gate += 5 + u64::from(len);
                Ok(true)
            }
            Ok(Block::End(stale)) => {
                self.at_end = true;
                self.stale = stale;
                Ok(false)
            }
            Err(JournalFault::DiskFault) => {
                self.closed = true;
                Err(JournalFault::DiskFault)
            }
            Err(fault) => Err(fault),
        }
    }

    /// Makes a new file a journal without a record. It takes no memory.
    ///
    /// The error is `DiskFault` where a disk call failed, and then the journal is closed, or `Closed` exactly where it was closed before.
    pub fn begin<H: Host>(&mut self, host: &mut H) -> Result<(), JournalFault>
        requires fresh { is_new self.old ≡ true }
        requires kept { is_closed self.old ≡ false
            → Told (H.world host.old) (Stands self.old (H.world host.old)) }
        ensures { Begins H.world H.faults self.old self.new host.old host.new result }
    {
        if self.closed {
            return Err(JournalFault::Closed);
        }
        match write_start(host) {
            Ok(()) => {
                self.gate = 4;
                self.is_new = false;
                self.at_end = true;
                self.stale = false;
                Ok(())
            }
            Err(Failed) => {
                self.closed = true;
                Err(JournalFault::DiskFault)
            }
        }
    }

    /// Adds a record with this payload. From its Ok on each crash leaves a file that has it. It takes no memory.
    ///
    /// The error is `TooLong` exactly where the payload has more than 16,777,215 bytes, and then nothing changes; `DiskFault` where a disk call
    /// failed, and then the journal is closed, and a crash leaves the records before or these and the new one; or `Closed` exactly where it was
    /// closed before.
    pub fn append<H: Host>(&mut self, host: &mut H, payload: &[u8]) -> Result<(), JournalFault>
        requires ended { at_end self.old ≡ true }
        requires begun { is_new self.old ≡ false }
        requires kept { is_closed self.old ≡ false
            → Told (H.world host.old) (Stands self.old (H.world host.old)) }
        ensures { Appends H.world H.faults self.old self.new host.old host.new payload.now result }
    {
        if self.closed {
            return Err(JournalFault::Closed);
        }
        if payload.len() > LONGEST {
            return Err(JournalFault::TooLong);
        }
        match add_record(host, self.gate, self.stale, payload) {
            Ok(()) => {
                self.gate += 5 + payload.len() as u64;
                self.stale = false;
                Ok(())
            }
            Err(Failed) => {
                self.closed = true;
                Err(JournalFault::DiskFault)
            }
        }
    }
}
