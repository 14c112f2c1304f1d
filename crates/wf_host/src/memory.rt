// The record of a host in memory. It keeps what the host had at first and each of its calls.
ghost use Rattle.std.specs.Prelude.{◌≡◌, ◌≤◌, ◌+◌, length, take, ◌++◌, [], ◌∷◌, IfOk, OnOk, OnErr, MatchResult, List, ℕ};
ghost use Rattle.wf_host.specs.Memory.{content, marks, stable};
ghost use Rattle.wf_host.specs.World.{longest, written};

use crate::Deed;
use crate::moves::put_in;
use std::alloc::{AllocError, Global};
use wf_value::Bytes;

/// One call that was carried out.
#[derive(Drop)]
pub enum Done {
    /// A write at this offset of these bytes.
    Wrote(u64, Bytes),
    /// A sync.
    Synced,
    /// A deed; its place among these is that among the deeds.
    Did,
}

/// What the host had at first, and each call.
#[derive(Drop)]
pub(crate) struct CallRecord {
    first: Vec<u8>,
    image: Vec<u8>,
    past: Vec<Done>,
    deeds: Vec<Deed>,
    ghost same: { image.items ≡ content first.items past.items },
    ghost counts: { marks past.items ≡ length deeds.items },
    ghost fits: { length image.items ≤ longest },
}

/// How many calls there were up to the last sync.
fn last_sync(past: &[Done]) -> usize
    ensures within { result ≤ length past.now }
    ensures stable { (first : List ℕ) → stable first first past.now
        ≡ content first (take result past.now) }
{
    let mut last = 0;
    for i in 0..past.len() {
        match &past[i] {
            Done::Synced => last = i + 1,
            Done::Wrote(_, _) => {}
            Done::Did => {}
        }
    }
    last
}

/// The file after these calls.
fn replayed(alloc: Global, first: &[u8], past: &[Done]) -> Result<Vec<u8>, AllocError>
    ensures { IfOk result (λ v. v.items ≡ content first.now past.now) }
{
    let mut file = first.to_vec(alloc)?;
    let mut rest = past;
    while let [done, after @ ..] = rest {
        if let Done::Wrote(at, bytes) = done {
            put_in(&mut file, *at as usize, bytes.as_slice())?;
        }
        rest = after;
    }
    Ok(file)
}

impl CallRecord {
    ghost use Rattle.wf_host.specs.World.{Torn, Same, Only, Elapses};
    ghost use Rattle.wf_host.specs.CallRecord.{record_world, record_stable};

    /// No calls yet, and all of the file on the disk.
    pub(crate) fn new(alloc: Global, image: Vec<u8>) -> Result<CallRecord, AllocError>
        ensures seen { IfOk result (λ r. (record_world r).seen ≡ image.items) }
        ensures deeds { IfOk result (λ r. (record_world r).deeds ≡ []) }
        ensures settled { IfOk result (λ r. Only image.items (record_world r).may_leave) }
        ensures stable { IfOk result (λ r. record_stable r ≡ image.items) }
    {
        Ok(CallRecord {
            first: image.to_vec(alloc)?,
            image,
            past: Vec::new(alloc),
            deeds: Vec::new(alloc),
        })
    }

    /// Writes, or leaves all as it is.
    pub(crate) fn write(&mut self, alloc: Global, at: usize, bytes: &[u8]) -> Result<(), AllocError>
        requires inside { at ≤ length (record_world self.old).seen }
        requires room { at + length bytes.now ≤ longest }
        ensures written { OnOk result ((record_world self.new).seen
            ≡ written (record_world self.old).seen at bytes.now) }
        ensures stays { OnErr result ((record_world self.new).seen ≡ (record_world self.old).seen) }
        ensures stable { record_stable self.new ≡ record_stable self.old }
        ensures time { Elapses (Torn at (length bytes.now)) [] (record_world self.old)
            (record_world self.new) }
    {
        let Ok(copy) = Bytes::new(alloc, bytes) else {
            return Err(AllocError);
        };
        self.past.reserve(1)?;
        put_in(&mut self.image, at, bytes)?;
        self.past.push(Done::Wrote(at as u64, copy))?;
        Ok(())
    }

    /// Notes a sync.
    pub(crate) fn sync(&mut self) -> Result<(), AllocError>
        ensures durable { OnOk result (Only (record_world self.old).seen
            (record_world self.new).may_leave) }
        ensures stable { OnOk result (record_stable self.new ≡ (record_world self.old).seen) }
        ensures stays { OnErr result (record_stable self.new ≡ record_stable self.old) }
        ensures seen { (record_world self.new).seen ≡ (record_world self.old).seen }
        ensures time { Elapses Same [] (record_world self.old) (record_world self.new) }
    {
        self.past.push(Done::Synced)?;
        Ok(())
    }

    /// Notes a deed.
    pub(crate) fn act(&mut self, deed: Deed) -> Result<(), AllocError>
        ensures seen { (record_world self.new).seen ≡ (record_world self.old).seen }
        ensures stable { record_stable self.new ≡ record_stable self.old }
        ensures time { MatchResult result (λ _. Elapses Same (deed ∷ []) (record_world self.old)
            (record_world self.new))
            (λ _. Elapses Same [] (record_world self.old) (record_world self.new)) }
    {
        self.deeds.reserve(1)?;
        self.past.push(Done::Did)?;
        self.deeds.push(deed)?;
        Ok(())
    }

    /// What a crash leaves of what was synced.
    pub(crate) fn synced(&self, alloc: Global) -> Result<Vec<u8>, AllocError>
        ensures left { IfOk result (λ v. (record_world self.now).may_leave v.items) }
        ensures synced { IfOk result (λ v. v.items ≡ record_stable self.now) }
    {
        replayed(alloc, &self.first, &self.past[..last_sync(&self.past)])
    }

    /// The file as it reads, which a crash may leave too.
    pub(crate) fn written(&self, alloc: Global) -> Result<Vec<u8>, AllocError>
        ensures left { IfOk result (λ v. (record_world self.now).may_leave v.items) }
        ensures seen { IfOk result (λ v. v.items ≡ (record_world self.now).seen) }
    {
        self.image.to_vec(alloc)
    }

    /// The file as it reads.
    pub(crate) fn image(&self) -> &[u8]
        ensures { result.now ≡ (record_world self.now).seen }
    {
        &self.image
    }

    /// The deeds so far.
    pub(crate) fn deeds(&self) -> &[Deed]
        ensures { result.now ≡ (record_world self.now).deeds }
    {
        &self.deeds
    }
}
