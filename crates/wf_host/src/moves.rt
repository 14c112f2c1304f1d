// What is copied within memory.
ghost use Rattle.std.specs.Prelude.{◌≡◌, ◌-◌, ◌++◌, [], ◌∷◌, min, length, take, drop, OnOk, OnErr, MatchResult};
ghost use Rattle.wf_host.specs.World.{written, Same, Elapses};
ghost use Rattle.wf_host.specs.CallRecord.{record_world, record_stable};
ghost use Rattle.wf_host.specs.declared.data.Deed.TheVariants.{Print};

use crate::Deed;
use crate::memory::CallRecord;
use std::alloc::{AllocError, Global};
use wf_value::Bytes;

/// Fills the room with what stands at an offset, as far as it reaches, and says how much that is.
pub fn copy_from(file: &[u8], at: u64, into: &mut [u8]) -> usize
    ensures count { result ≡ min (length into.old) (length file.now - at) }
    ensures bytes { into.new ≡ take result (drop at file.now) ++ drop result into.old }
{
    if at >= file.len() as u64 {
        return 0;
    }
    let rest = &file[at as usize..];
    let count = rest.len().min(into.len());
    into[..count].copy_from_slice(&rest[..count]);
    count
}

/// Writes the bytes over what stands at an offset, or at the end where that is earlier, and makes the file longer
/// where they reach past its end. Without memory for that the file stays as it is.
pub fn put_in(file: &mut Vec<u8>, at: usize, bytes: &[u8]) -> Result<(), AllocError>
    ensures written { OnOk result (file.new.items ≡ written file.old.items at bytes.now) }
    ensures stays { OnErr result (file.new.items ≡ file.old.items) }
{
    let at = at.min(file.len());
    let over = bytes.len().min(file.len() - at);
    let (inside, beyond) = bytes.split_at(over);
    file.reserve(beyond.len())?;
    file[at..at + over].copy_from_slice(inside);
    file.extend_from_slice(beyond)
}

/// Prints the bytes and notes it, or leaves what was printed and the deeds as they are.
pub(crate) fn take_down(
    alloc: Global,
    log: &mut CallRecord,
    printed: &mut Vec<u8>,
    bytes: &[u8],
) -> Result<(), AllocError>
    ensures seen { (record_world log.new).seen ≡ (record_world log.old).seen }
    ensures stable { record_stable log.new ≡ record_stable log.old }
    ensures printed { OnOk result (printed.new.items ≡ printed.old.items ++ bytes.now) }
    ensures unprinted { OnErr result (printed.new.items ≡ printed.old.items) }
    ensures time { MatchResult result (λ _. Elapses Same (Print bytes.now ∷ [])
        (record_world log.old) (record_world log.new))
        (λ _. Elapses Same [] (record_world log.old) (record_world log.new)) }
{
    let Ok(copy) = Bytes::new(alloc, bytes) else {
        return Err(AllocError);
    };
    printed.reserve(bytes.len())?;
    log.act(Deed::Print(copy))?;
    printed.extend_from_slice(bytes)
}
