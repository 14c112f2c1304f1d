// What a command came to, and how it is told.
use crate::deeds::all_told;
use crate::records::Counts;
use std::alloc::Global;
use wf_cases::{CaseFault, hex_of, quoted};
use wf_host::{Deed, MemHost};

/// What a command came to.
#[derive(Drop)]
pub struct Ended {
    pub status: u8,
    printed: String,
    counts: Counts,
    /// How often the clock was read.
    readings: u64,
    /// How many deeds were neither readings nor prints.
    others: u64,
    /// The deeds that aren't prints.
    deeds: String,
    /// Whether the journal is the one that was given.
    kept: bool,
    /// The journal left, with all that was written.
    pub journal: Vec<u8>,
    /// What a crash leaves of it that loses all that wasn't synced.
    pub synced: Vec<u8>,
}

impl Ended {
    /// What stands in a host behind a command that ended so, which was given this journal.
    pub fn new(
        alloc: Global,
        status: u8,
        before: &[u8],
        host: MemHost,
    ) -> Result<Ended, CaseFault> {
        let counts = Counts::of(alloc, host.image())?;
        let printed = printed(alloc, host.printed())?;
        let (readings, others) = counted(host.deeds());
        let deeds = all_told(alloc, host.deeds())?;
        let kept = host.image() == before;
        let journal = Vec::from_slice(alloc, host.image())?;
        let synced = host.crash(alloc, false)?;
        Ok(Ended {
            status,
            printed,
            counts,
            readings,
            others,
            deeds,
            kept,
            journal,
            synced,
        })
    }

    /// The status, what was printed, and the counts of records and events in the journal left.
    pub fn line(&self, alloc: Global) -> Result<String, CaseFault> {
        let Counts { records, events } = self.counts;
        let line = format!(in alloc;
            "{} {} {records}r {events}e",
            self.status,
            self.printed.as_str()
        );
        Ok(line?)
    }

    /// Behind that the counts of readings and of other deeds, whether the journal was kept, and whether all of it is synced.
    pub fn full_line(&self, alloc: Global) -> Result<String, CaseFault> {
        let line = self.line(alloc)?;
        let kept = if self.kept { "kept" } else { "changed" };
        let synced = if self.journal.as_slice() == self.synced.as_slice() {
            "synced"
        } else {
            "unsynced"
        };
        let full = format!(in alloc;
            "{} {}n {}d {kept} {synced}",
            line.as_str(),
            self.readings,
            self.others
        );
        Ok(full?)
    }

    /// Behind that the deeds that aren't prints, in brackets.
    pub fn line_with_deeds(&self, alloc: Global) -> Result<String, CaseFault> {
        let line = self.full_line(alloc)?;
        let told = format!(in alloc; "{} [{}]", line.as_str(), self.deeds.as_str());
        Ok(told?)
    }
}

/// How many deeds were readings, and how many neither readings nor prints.
fn counted(deeds: &[Deed]) -> (u64, u64) {
    let mut readings = 0u64;
    let mut others = 0u64;
    for deed in deeds {
        match deed {
            Deed::Now(_) => readings = readings.saturating_add(1),
            Deed::Print(_) => {}
            _ => others = others.saturating_add(1),
        }
    }
    (readings, others)
}

/// Bytes as a JSON text, or in hex where they are no UTF-8.
pub fn printed(alloc: Global, bytes: &[u8]) -> Result<String, CaseFault> {
    match str::from_utf8(bytes) {
        Ok(text) => quoted(alloc, text),
        Err(_) => hex_of(alloc, bytes),
    }
}
