// The reading of a source to its end or to a limit.
ghost use Rattle.std.specs.Prelude.{◌≡◌, ◌≤◌, length, IfOk, IsErrOf};
ghost use Rattle.wf_host.specs.World.{Rose};
ghost use Rattle.wf_host.specs.Source.{HoldsRest, IsFirst};

use crate::{Failed, Source};
use std::alloc::Global;

/// A source that wasn't read.
#[derive(Clone, Copy, Debug, PartialEq, Eq)]
pub enum ReadFault {
    /// A read failed.
    Failed,
    /// There was no memory for the bytes.
    OutOfMemory,
}

const PIECE: usize = 4096;

/// Reads a source to its end, or to as many bytes as the limit says.
pub fn read_up_to<S: Source>(
    alloc: Global,
    source: &mut S,
    limit: usize,
) -> Result<Vec<u8>, ReadFault>
    ensures bytes { IfOk result (λ v. IsFirst limit (S.left source.old) v.items) }
    ensures rest { IfOk result (λ v. HoldsRest (S.left source.old) (S.left source.new) v.items) }
    ensures count { IfOk result (λ v. length v.items ≤ limit) }
    ensures later { S.faults source.old ≤ S.faults source.new }
    ensures failed { IsErrOf result ReadFault.Failed
        → Rose (S.faults source.old) (S.faults source.new) }
{
    let mut out = Vec::new(alloc);
    let mut buffer = [0u8; PIECE];
    while out.len() < limit {
        let room = (limit - out.len()).min(PIECE);
        match source.read(&mut buffer[..room]) {
            Ok(0) => return Ok(out),
            Ok(count) => match out.extend_from_slice(&buffer[..count]) {
                Ok(()) => {}
                Err(_) => return Err(ReadFault::OutOfMemory),
            },
            Err(Failed) => return Err(ReadFault::Failed),
        }
    }
    Ok(out)
}
