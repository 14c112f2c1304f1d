// A record is written behind a closed gate, and the gate is opened once the record is on the disk.
ghost use Rattle.std.specs.Prelude.{◌≡◌, ◌≤◌, ◌<◌, ◌+◌, ◌^◌, ◌++◌, [], ◌∷◌, true, false, length, get_or, OnOk, OnErr};
ghost use Rattle.wf_host.specs.Calls.{AtAnyMoment, DiskFailed, DoesNoDeed, NoCountFalls, TellsAsBefore};
ghost use Rattle.wf_host.specs.World.{longest, Told, Only};
ghost use Rattle.wf_journal.specs.Records.{records};
ghost use Rattle.wf_journal.specs.Gates.{AtEnd};
ghost use Rattle.wf_journal.specs.Journal.{RecordsStay, IsBeforeOrAfter, HasNone};

use crate::writing::{put_block, write_synced};
use wf_host::{Failed, Host};

/// How each journal begins: the text `WFJ1`.
pub(crate) const MAGIC: [u8; 4] = [0x57, 0x46, 0x4a, 0x31];

/// Closes a gate whose byte is 1 although it isn't open.
fn close_stale<H: Host>(host: &mut H, gate: u64) -> Result<(), Failed>
    requires most { gate < longest }
    requires ready { Told (H.world host.old) (AtEnd (H.world host.old) gate true) }
    requires one { Told (H.world host.old) (get_or (H.world host.old).seen gate 0 ≡ 1) }
    ensures ready { Told (H.world host.old) (OnOk result (AtEnd (H.world host.new) gate false)) }
    ensures same { Told (H.world host.old)
        (OnOk result (records (H.world host.new).seen ≡ records (H.world host.old).seen)) }
    ensures any_moment { AtAnyMoment H.world host.old host.new (RecordsStay (H.world host.old)) }
    ensures deeds { DoesNoDeed H.world host.old host.new }
    ensures tells { TellsAsBefore H.world host.old host.new }
    ensures counts { NoCountFalls H.faults host.old host.new }
    ensures cause { OnErr result (DiskFailed H.faults host.old host.new) }
{
    write_synced(host, gate, &[0])
}

/// Sees to it that the gate's byte isn't 1.
fn make_ready<H: Host>(host: &mut H, gate: u64, stale: bool) -> Result<(), Failed>
    requires most { gate < longest }
    requires ready { Told (H.world host.old) (AtEnd (H.world host.old) gate stale) }
    requires one { stale ≡ true → Told (H.world host.old) (get_or (H.world host.old).seen gate 0
        ≡ 1) }
    ensures ready { Told (H.world host.old) (OnOk result (AtEnd (H.world host.new) gate false)) }
    ensures same { Told (H.world host.old)
        (OnOk result (records (H.world host.new).seen ≡ records (H.world host.old).seen)) }
    ensures any_moment { AtAnyMoment H.world host.old host.new (RecordsStay (H.world host.old)) }
    ensures deeds { DoesNoDeed H.world host.old host.new }
    ensures tells { TellsAsBefore H.world host.old host.new }
    ensures counts { NoCountFalls H.faults host.old host.new }
    ensures cause { OnErr result (DiskFailed H.faults host.old host.new) }
{
    if stale {
        close_stale(host, gate)
    } else {
        Ok(())
    }
}

/// Writes a record behind a closed gate.
fn put_record<H: Host>(host: &mut H, gate: u64, payload: &[u8]) -> Result<(), Failed>
    requires most { gate < longest }
    requires short { length payload.now < 2 ^ 32 }
    requires ready { Told (H.world host.old) (AtEnd (H.world host.old) gate false) }
    ensures ready { Told (H.world host.old)
        (OnOk result (AtEnd (H.world host.new) (gate + 5 + length payload.now) false)) }
    ensures added { Told (H.world host.old)
        (OnOk result (records (H.world host.new).seen
        ≡ records (H.world host.old).seen ++ payload.now ∷ [])) }
    ensures room { OnOk result (gate + 6 + length payload.now ≤ longest) }
    ensures any_moment { AtAnyMoment H.world host.old host.new
        (IsBeforeOrAfter (H.world host.old) payload.now) }
    ensures deeds { DoesNoDeed H.world host.old host.new }
    ensures tells { TellsAsBefore H.world host.old host.new }
    ensures counts { NoCountFalls H.faults host.old host.new }
    ensures cause { OnErr result (DiskFailed H.faults host.old host.new) }
{
    put_block(host, gate, payload)?;
    host.sync()?;
    write_synced(host, gate, &[1])
}

/// Adds a record at the gate that ends the file.
pub(crate) fn add_record<H: Host>(
    host: &mut H,
    gate: u64,
    stale: bool,
    payload: &[u8],
) -> Result<(), Failed>
    requires most { gate < longest }
    requires short { length payload.now < 2 ^ 32 }
    requires ready { Told (H.world host.old) (AtEnd (H.world host.old) gate stale) }
    requires one { stale ≡ true → Told (H.world host.old) (get_or (H.world host.old).seen gate 0
        ≡ 1) }
    ensures ready { Told (H.world host.old)
        (OnOk result (AtEnd (H.world host.new) (gate + 5 + length payload.now) false)) }
    ensures added { Told (H.world host.old)
        (OnOk result (records (H.world host.new).seen
        ≡ records (H.world host.old).seen ++ payload.now ∷ [])) }
    ensures room { OnOk result (gate + 6 + length payload.now ≤ longest) }
    ensures any_moment { AtAnyMoment H.world host.old host.new
        (IsBeforeOrAfter (H.world host.old) payload.now) }
    ensures deeds { DoesNoDeed H.world host.old host.new }
    ensures tells { TellsAsBefore H.world host.old host.new }
    ensures counts { NoCountFalls H.faults host.old host.new }
    ensures cause { OnErr result (DiskFailed H.faults host.old host.new) }
{
    make_ready(host, gate, stale)?;
    put_record(host, gate, payload)
}

/// Writes the magic and a first gate.
pub(crate) fn write_start<H: Host>(host: &mut H) -> Result<(), Failed>
    requires settled { Told (H.world host.old)
        (Only (H.world host.old).seen (H.world host.old).may_leave) }
    requires fresh { Told (H.world host.old) (length (H.world host.old).seen ≤ 4) }
    ensures ready { Told (H.world host.old) (OnOk result (AtEnd (H.world host.new) 4 false)) }
    ensures none { Told (H.world host.old) (OnOk result (records (H.world host.new).seen ≡ [])) }
    ensures any_moment { AtAnyMoment H.world host.old host.new (HasNone (H.world host.old)) }
    ensures deeds { DoesNoDeed H.world host.old host.new }
    ensures tells { TellsAsBefore H.world host.old host.new }
    ensures counts { NoCountFalls H.faults host.old host.new }
    ensures cause { OnErr result (DiskFailed H.faults host.old host.new) }
{
    write_synced(host, 0, &MAGIC)?;
    write_synced(host, 4, &[0])
}
