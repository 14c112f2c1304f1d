// Journals, in memory and in a real file.
ghost use Rattle.std.specs.Prelude.{◌≡◌, false};
ghost use Rattle.wf_host.specs.Calls.{TellsAsBefore};
ghost use Rattle.wf_host.specs.World.{Told};
ghost use Rattle.wf_journal.specs.Stands.{is_closed, Stands};

use crate::hosts::write_file;
use std::alloc::Global;
use std::fs::{File, Files};
use std::io::Print;
use std::net::Net;
use std::time::Clock;
use wf_cases::{Case, CaseFault, bytes_of};
use wf_file_host::FileHost;
use wf_host::{Host, MemHost};
use wf_host_cases::{host_of, items_of, write_bytes, write_left};
use wf_journal::{Journal, JournalFault};
use wf_value::Value;

/// The next record in hex, or `end`; and how many bytes the room holds, where these are others than the record's.
fn write_next<H: Host>(
    journal: &mut Journal,
    host: &mut H,
    room: &mut Vec<u8>,
    alloc: Global,
    out: &mut String,
) -> Result<(), CaseFault>
    requires kept { is_closed journal.old ≡ false
        → Told (H.world host.old) (Stands journal.old (H.world host.old)) }
    ensures stands { is_closed journal.new ≡ false
        → Told (H.world host.old) (Stands journal.new (H.world host.new)) }
    ensures tells { TellsAsBefore H.world host.old host.new }
{
    let lent = match journal.next(alloc, host, room) {
        Ok(Some(payload)) => {
            write_bytes(out, alloc, payload)?;
            payload.len()
        }
        Ok(None) => return Ok(out.push_str("end")?),
        Err(fault) => return Ok(write!(out, "{fault}")?),
    };
    if room.len() != lent {
        write!(out, " of {}", room.len())?;
    }
    Ok(())
}

/// Begins the journal, where it is new. Says whether it was.
fn begin<H: Host>(journal: &mut Journal, host: &mut H) -> Result<bool, JournalFault>
    requires kept { is_closed journal.old ≡ false
        → Told (H.world host.old) (Stands journal.old (H.world host.old)) }
    ensures stands { is_closed journal.new ≡ false
        → Told (H.world host.old) (Stands journal.new (H.world host.new)) }
    ensures tells { TellsAsBefore H.world host.old host.new }
{
    if !journal.is_new() {
        return Ok(false);
    }
    journal.begin(host)?;
    Ok(true)
}

/// Adds a record, where the journal is begun and read to its end. Says whether it is.
fn append<H: Host>(
    journal: &mut Journal,
    host: &mut H,
    payload: &[u8],
) -> Result<bool, JournalFault>
    requires kept { is_closed journal.old ≡ false
        → Told (H.world host.old) (Stands journal.old (H.world host.old)) }
    ensures stands { is_closed journal.new ≡ false
        → Told (H.world host.old) (Stands journal.new (H.world host.new)) }
    ensures tells { TellsAsBefore H.world host.old host.new }
{
    if journal.is_new() || !journal.at_end() {
        return Ok(false);
    }
    journal.append(host, payload)?;
    Ok(true)
}

/// Writes `+` where a call was made, `no` where it may not be made, or the fault.
fn write_made(out: &mut String, made: Result<bool, JournalFault>) -> Result<(), CaseFault> {
    match made {
        Ok(true) => Ok(out.push('+')?),
        Ok(false) => Ok(out.push_str("no")?),
        Err(fault) => Ok(write!(out, "{fault}")?),
    }
}

/// Makes a call: `"next"`, `"begin"` or `["append", bytes]`; and writes what came.
fn make<H: Host>(
    journal: &mut Journal,
    host: &mut H,
    room: &mut Vec<u8>,
    call: &Value,
    alloc: Global,
    out: &mut String,
) -> Result<(), CaseFault>
    requires kept { is_closed journal.old ≡ false
        → Told (H.world host.old) (Stands journal.old (H.world host.old)) }
    ensures stands { is_closed journal.new ≡ false
        → Told (H.world host.old) (Stands journal.new (H.world host.new)) }
    ensures tells { TellsAsBefore H.world host.old host.new }
{
    out.push_str(", ")?;
    match call {
        Value::Text(name) if name.as_str() == "next" => {
            write_next(journal, host, room, alloc, out)
        }
        Value::Text(name) if name.as_str() == "begin" => write_made(out, begin(journal, host)),
        Value::List(pair) => match pair.items() {
            [Value::Text(name), payload] if name.as_str() == "append" => {
                let payload = bytes_of(alloc, payload)?;
                write_made(out, append(journal, host, &payload))
            }
            _ => Err(CaseFault::NoCase),
        },
        _ => Err(CaseFault::NoCase),
    }
}

/// Opens a journal on a host and makes calls on it, all with one room: whether it is new, or why it isn't opened, and then what each call
/// gave.
fn make_all<H: Host>(
    host: &mut H,
    calls: &[Value],
    alloc: Global,
    out: &mut String,
) -> Result<(), CaseFault> {
    let mut journal = match Journal::open(host) {
        Ok(journal) => journal,
        Err(fault) => return Ok(write!(out, "{fault}")?),
    };
    out.push_str(if journal.is_new() { "new" } else { "old" })?;
    let mut room = Vec::new(alloc);
    for call in calls {
        make(&mut journal, host, &mut room, call, alloc, out)?;
    }
    Ok(())
}

/// What calls on a journal give on a host in memory, and what it leaves.
pub fn calls(alloc: Global, case: &Case<'_>) -> Result<String, CaseFault> {
    let items = items_of(case.item(1)?)?;
    let mut out = String::new(alloc);
    write_host(&mut out, alloc, host_of(alloc, case.item(0)?)?, items)?;
    Ok(out)
}

fn write_host(
    out: &mut String,
    alloc: Global,
    host: MemHost,
    calls: &[Value],
) -> Result<(), CaseFault> {
    let mut host = host;
    make_all(&mut host, calls, alloc, out)?;
    write_left(out, alloc, host)
}

/// The same with the real host, in a file at a path, and the file at the end, which stays for the next case.
pub fn in_a_file<R>(rt: R, case: &Case<'_>) -> Result<String, CaseFault>
where
    R: Files<File = File> + Clock + Print + Net + AllocGlobal + Copy + Drop,
{
    let path = case.text(0)?;
    let items = items_of(case.item(1)?)?;
    let mut out = String::new(rt.alloc());
    make_in_file(rt, path, items, &mut out)?;
    write_file(&mut out, rt, path)?;
    Ok(out)
}

fn make_in_file<R>(rt: R, path: &str, calls: &[Value], out: &mut String) -> Result<(), CaseFault>
where
    R: Files<File = File> + Clock + Print + Net + AllocGlobal + Copy + Drop,
{
    let mut host = FileHost::with_journal(rt.alloc(), rt, path)?;
    make_all(&mut host, calls, rt.alloc(), out)
}

/// What each fault of a journal says.
pub fn fault_texts(alloc: Global) -> Result<String, CaseFault> {
    let mut out = format!(in alloc; "{}", JournalFault::DiskFault)?;
    for fault in [
        JournalFault::NotAJournal,
        JournalFault::TooLong,
        JournalFault::Closed,
        JournalFault::OutOfMemory,
    ] {
        write!(out, "; {fault}")?;
    }
    Ok(out)
}
