// What stands in a journal.
use crate::plan::quiet;
use std::alloc::Global;
use wf_cases::CaseFault;
use wf_events::{Record, RecordFault, decode};
use wf_host::MemHost;
use wf_journal::{Journal, JournalFault};

/// How many records a journal has, and how many events these have.
#[derive(Clone, Copy, Drop)]
pub struct Counts {
    pub records: u64,
    pub events: u64,
}

impl Counts {
    /// What stands in a journal, from its first record to the last behind an open gate. What is no journal has none.
    pub fn of(alloc: Global, image: &[u8]) -> Result<Counts, CaseFault> {
        let plan = quiet(alloc, Vec::from_slice(alloc, image)?);
        let mut host = MemHost::new(alloc, plan)?;
        counts_in(alloc, &mut host, image.len())
    }
}

/// What stands in a host's file, of at most so many records.
fn counts_in(alloc: Global, host: &mut MemHost, most: usize) -> Result<Counts, CaseFault> {
    let mut counts = Counts {
        records: 0,
        events: 0,
    };
    let mut journal = match Journal::open(host) {
        Ok(journal) => journal,
        Err(JournalFault::NotAJournal) => return Ok(counts),
        Err(_) => return Err(CaseFault::OutOfMemory),
    };
    let mut room = Vec::new(alloc);
    for _ in 0..most {
        let Ok(payload) = journal.next(alloc, host, &mut room) else {
            return Err(CaseFault::OutOfMemory);
        };
        let Some(payload) = payload else {
            break;
        };
        counts.records = counts.records.saturating_add(1);
        counts.events = counts.events.saturating_add(events_in(alloc, payload)?);
    }
    Ok(counts)
}

/// How many events a payload has. One that is no record has none.
fn events_in(alloc: Global, payload: &[u8]) -> Result<u64, CaseFault> {
    match decode(alloc, payload) {
        Ok(Record::Turn(turn)) => Ok(turn.events.count() as u64),
        Ok(_) | Err(RecordFault::BadRecord(_)) => Ok(0),
        Err(RecordFault::OutOfMemory) => Err(CaseFault::OutOfMemory),
    }
}
