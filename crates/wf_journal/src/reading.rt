// The reads of the journal.
ghost use Rattle.std.specs.Prelude.{◌≡◌, ◌≤◌, ◌<◌, ◌+◌, ◌++◌, ◌^◌, [], ◌∷◌, true, false, length, vec_len, take, drop, IfOk, OnOk, OnErr, IsErrOf};
ghost use Rattle.wf_host.specs.Calls.{AtAnyMoment, DiskFailed, DoesNoDeed, NoCountFalls, OnlyErrors, ReadsAsBefore, TellsAsBefore};
ghost use Rattle.wf_host.specs.World.{longest, Told, Same, Only, Elapses};
ghost use Rattle.wf_journal.specs.Journal.{Stays};
ghost use Rattle.wf_journal.specs.Promises.{ReadsBlock};
ghost use Rattle.wf_journal.specs.Reading.{IsHead, SaysHead, FitsIn};

use crate::JournalFault;
use std::alloc::AllocError;
use wf_host::{Failed, Host};

/// A payload is read in pieces of at most this many bytes.
const PIECE: usize = 65_536;

/// What stands at a gate.
#[derive(Clone, Copy)]
pub(crate) enum Head {
    /// Open, with the length of its payload.
    Open(u32),
    /// Not open, and whether its byte is 1.
    Shut(bool),
}

/// What the bytes from a gate on say, of which there are at least five where the gate is open.
fn head_of(bytes: &[u8; 5], gate: u64, size: u64) -> Head
    requires { gate < longest }
    ensures says { SaysHead bytes.now gate size result }
    ensures fits { FitsIn size gate result }
{
    let [byte, a, b, c, d] = *bytes;
    let len = u32::from_be_bytes([a, b, c, d]);
    if byte == 1 && gate + 5 + u64::from(len) < size {
        Head::Open(len)
    } else {
        Head::Shut(byte == 1)
    }
}

/// Reads a gate and what stands behind it.
pub(crate) fn read_head<H: Host>(host: &mut H, gate: u64, size: u64) -> Result<Head, Failed>
    requires most { gate < longest }
    requires inside { Told (H.world host.old) (gate < length (H.world host.old).seen) }
    requires size { Told (H.world host.old) (size ≡ length (H.world host.old).seen) }
    ensures head { Told (H.world host.old)
        (IfOk result (λ h. IsHead (H.world host.old).seen gate h)) }
    ensures fits { IfOk result (λ h. FitsIn size gate h) }
    ensures seen { ReadsAsBefore H.world host.old host.new }
    ensures time { Told (H.world host.old) (Elapses Same [] (H.world host.old) (H.world host.new)) }
    ensures tells { TellsAsBefore H.world host.old host.new }
    ensures counts { NoCountFalls H.faults host.old host.new }
    ensures cause { OnErr result (DiskFailed H.faults host.old host.new) }
{
    let mut bytes = [0; 5];
    let _ = host.read_at(gate, &mut bytes)?;
    Ok(head_of(&bytes, gate, size))
}

/// Reads this many bytes behind those that the room holds. False is told only by a host that doesn't tell its meanings.
fn read_piece<H: Host>(
    host: &mut H,
    at: u64,
    count: usize,
    room: &mut Vec<u8>,
) -> Result<bool, JournalFault>
    requires most { at ≤ longest }
    requires short { vec_len room.old + count < 2 ^ 32 }
    requires inside { Told (H.world host.old) (at + count ≤ length (H.world host.old).seen) }
    requires settled { Told (H.world host.old)
        (Only (H.world host.old).seen (H.world host.old).may_leave) }
    ensures piece { Told (H.world host.old)
        (IfOk result (λ b. (b ≡ true)
        × (room.new.items ≡ room.old.items ++ take count (drop at (H.world host.old).seen)))) }
    ensures longer { OnOk result (vec_len room.new ≡ vec_len room.old + count) }
    ensures seen { ReadsAsBefore H.world host.old host.new }
    ensures settled { Told (H.world host.old)
        (Only (H.world host.old).seen (H.world host.new).may_leave) }
    ensures any_moment { AtAnyMoment H.world host.old host.new (Stays (H.world host.old)) }
    ensures deeds { DoesNoDeed H.world host.old host.new }
    ensures tells { TellsAsBefore H.world host.old host.new }
    ensures counts { NoCountFalls H.faults host.old host.new }
    ensures disk_fault { IsErrOf result JournalFault.DiskFault
        → DiskFailed H.faults host.old host.new }
    ensures only { OnlyErrors result (JournalFault.DiskFault ∷ JournalFault.OutOfMemory ∷ []) }
{
    let held = room.len();
    room.resize(held + count, 0)?;
    let read = host.read_at(at, &mut room[held..])?;
    Ok(read == count)
}

/// Reads a payload, a piece at a time, so that the room grows only with what the file has. False is told only by a host that doesn't
/// tell its meanings.
pub(crate) fn read_payload<H: Host>(
    host: &mut H,
    at: u64,
    len: u32,
    room: &mut Vec<u8>,
) -> Result<bool, JournalFault>
    requires most { at + len ≤ longest }
    requires inside { Told (H.world host.old) (at + len < length (H.world host.old).seen) }
    requires settled { Told (H.world host.old)
        (Only (H.world host.old).seen (H.world host.old).may_leave) }
    ensures payload { Told (H.world host.old)
        (IfOk result (λ b. (b ≡ true)
        × (room.new.items ≡ take len (drop at (H.world host.old).seen)))) }
    ensures seen { ReadsAsBefore H.world host.old host.new }
    ensures settled { Told (H.world host.old)
        (Only (H.world host.old).seen (H.world host.new).may_leave) }
    ensures any_moment { AtAnyMoment H.world host.old host.new (Stays (H.world host.old)) }
    ensures deeds { DoesNoDeed H.world host.old host.new }
    ensures tells { TellsAsBefore H.world host.old host.new }
    ensures counts { NoCountFalls H.faults host.old host.new }
    ensures disk_fault { IsErrOf result JournalFault.DiskFault
        → DiskFailed H.faults host.old host.new }
    ensures only { OnlyErrors result (JournalFault.DiskFault ∷ JournalFault.OutOfMemory ∷ []) }
{
    let len = len as usize;
    room.clear();
    while room.len() < len {
        let held = room.len();
        if !read_piece(host, at + held as u64, PIECE.min(len - held), room)? {
            return Ok(false);
        }
    }
    Ok(true)
}

/// What is read of a block.
#[derive(Clone, Copy)]
pub(crate) enum Block {
    /// Its payload, with the length.
    Payload(u32),
    /// The gate isn't open; whether its byte is 1.
    End(bool),
}

/// Reads the block at a gate, if it is open.
pub(crate) fn read_block<H: Host>(
    host: &mut H,
    gate: u64,
    size: u64,
    room: &mut Vec<u8>,
) -> Result<Block, JournalFault>
    requires most { gate < longest }
    requires most_size { size ≤ longest }
    requires inside { Told (H.world host.old) (gate < length (H.world host.old).seen) }
    requires size { Told (H.world host.old) (size ≡ length (H.world host.old).seen) }
    requires settled { Told (H.world host.old)
        (Only (H.world host.old).seen (H.world host.old).may_leave) }
    ensures { ReadsBlock H.world H.faults gate size room.new.items host.old host.new result }
{
    match read_head(host, gate, size) {
        Ok(Head::Open(len)) => match read_payload(host, gate + 5, len, room) {
            Ok(true) => Ok(Block::Payload(len)),
            Ok(false) => Ok(Block::End(true)),
            Err(fault) => Err(fault),
        },
        Ok(Head::Shut(stale)) => Ok(Block::End(stale)),
        Err(Failed) => Err(JournalFault::DiskFault),
    }
}
