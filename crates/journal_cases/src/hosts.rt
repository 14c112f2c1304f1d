// Hosts, sources and prints, in memory and with real files.
ghost use Rattle.std.specs.Prelude.{◌≤◌, length};
ghost use Rattle.wf_host.specs.World.{longest, Told};

use std::alloc::Global;
use std::fs::{self, File, Files};
use std::io::Print;
use std::net::Net;
use std::time::Clock;
use wf_cases::{Case, CaseFault, bytes_of};
use wf_file_host::{FileHost, FileSource};
use wf_host::{Deed, Host, LONGEST, MemHost, MemSource, ReadFault, Source, print_all, read_up_to};
use wf_host_cases::{gap, host_of, items_of, number_of, numbers_of, write_bytes, write_left};
use wf_value::Value;

/// A call of a host.
enum Call {
    Size,
    Read(u64, usize),
    Write(u64, Vec<u8>),
    Sync,
    Now,
    Print(Vec<u8>),
}

// Written, and not derived: it is one call wherever a call is let go.
impl Drop for Call {
    fn drop(self) {
        match self {
            Call::Write(_, _) | Call::Print(_) => {}
            Call::Size | Call::Read(_, _) | Call::Sync | Call::Now => {}
        }
    }
}

/// The call that a value tells: `"size"`, `["read", at, room]`, `["write", at, bytes]`, `"sync"`, `"now"` or `["print", bytes]`.
fn call_of(alloc: Global, value: &Value) -> Result<Call, CaseFault> {
    if let Value::Text(name) = value {
        return call_named(name.as_str());
    }
    let [Value::Text(name), rest @ ..] = items_of(value)? else {
        return Err(CaseFault::NoCase);
    };
    match rest {
        [bytes] => print_of(alloc, name.as_str(), bytes),
        [at, what] => call_at(alloc, name.as_str(), number_of(at)?, what),
        _ => Err(CaseFault::NoCase),
    }
}

/// A call that is a word alone.
fn call_named(name: &str) -> Result<Call, CaseFault> {
    match name {
        "size" => Ok(Call::Size),
        "sync" => Ok(Call::Sync),
        "now" => Ok(Call::Now),
        _ => Err(CaseFault::NoCase),
    }
}

/// A print.
fn print_of(alloc: Global, name: &str, bytes: &Value) -> Result<Call, CaseFault> {
    if name != "print" {
        return Err(CaseFault::NoCase);
    }
    Ok(Call::Print(bytes_of(alloc, bytes)?))
}

/// A read or a write at a place.
fn call_at(alloc: Global, name: &str, at: u64, what: &Value) -> Result<Call, CaseFault> {
    match name {
        "read" => Ok(Call::Read(at, number_of(what)?.min(1_000) as usize)),
        "write" => Ok(Call::Write(at, bytes_of(alloc, what)?)),
        _ => Err(CaseFault::NoCase),
    }
}

/// Makes a call on a host whose file has at least `end` bytes, and writes what came: `-` where it failed, else the number, or the
/// bytes of the room, or `+`. A write past `end` isn't made, and a print of no bytes is no case.
fn make<H: Host>(
    host: &mut H,
    end: u64,
    call: &Call,
    alloc: Global,
    out: &mut String,
) -> Result<(), CaseFault>
    requires { Told (H.world host.old) (end ≤ length (H.world host.old).seen) }
{
    gap(out)?;
    match call {
        Call::Size => write_number(out, host.size().ok()),
        Call::Read(at, room) => read(host, (*at).min(LONGEST), *room, alloc, out),
        Call::Write(at, bytes) => {
            let is_made = *at <= end && *at <= LONGEST && host.write_at(*at, bytes).is_ok();
            write_made(out, is_made)
        }
        Call::Sync => write_made(out, host.sync().is_ok()),
        Call::Now => write_number(out, host.now().ok()),
        Call::Print(bytes) if bytes.is_empty() => Err(CaseFault::NoCase),
        Call::Print(bytes) => match host.print(bytes) {
            Ok(count) => write_number(out, Some(count as u64)),
            Err(_) => write_made(out, false),
        },
    }
}

fn write_made(out: &mut String, is_made: bool) -> Result<(), CaseFault> {
    Ok(out.push_str(if is_made { "+" } else { "-" })?)
}

fn write_number(out: &mut String, number: Option<u64>) -> Result<(), CaseFault> {
    match number {
        Some(number) => Ok(write!(out, "{number}")?),
        None => write_made(out, false),
    }
}

/// Reads from a host, and writes how many bytes came and the room, or `-`.
fn read<H: Host>(
    host: &mut H,
    at: u64,
    room: usize,
    alloc: Global,
    out: &mut String,
) -> Result<(), CaseFault>
    requires { at ≤ longest }
{
    let mut room = vec![in alloc; 0u8; room]?;
    match host.read_at(at, room.as_mut_slice()) {
        Ok(count) => write_room(out, alloc, count, &room),
        Err(_) => write_made(out, false),
    }
}

fn write_room(out: &mut String, alloc: Global, count: usize, room: &[u8]) -> Result<(), CaseFault> {
    write!(out, "{count} ")?;
    write_bytes(out, alloc, room)
}

/// What a host in memory answers to calls, what it has printed, its deeds, how often it ran short, and what it leaves.
pub fn calls(alloc: Global, case: &Case<'_>) -> Result<String, CaseFault> {
    let items = items_of(case.item(1)?)?;
    let mut out = String::new(alloc);
    write_host(&mut out, alloc, host_of(alloc, case.item(0)?)?, items)?;
    Ok(out)
}

fn write_host(
    out: &mut String,
    alloc: Global,
    host: MemHost,
    calls: &[Value],
) -> Result<(), CaseFault> {
    let mut host = host;
    make_all(&mut host, calls, alloc, out)?;
    write_left(out, alloc, host)
}

/// Makes calls on a host in memory, and writes what came of them, what was printed, and the deeds.
fn make_all(
    host: &mut MemHost,
    calls: &[Value],
    alloc: Global,
    out: &mut String,
) -> Result<(), CaseFault> {
    for call in calls {
        let end = host.image().len() as u64;
        make(host, end, &call_of(alloc, call)?, alloc, out)?;
    }
    write_deeds(out, alloc, host)
}

/// What was printed and the deeds.
fn write_deeds(out: &mut String, alloc: Global, host: &MemHost) -> Result<(), CaseFault> {
    out.push_str(" | ")?;
    write_bytes(out, alloc, host.printed())?;
    for deed in host.deeds() {
        match deed {
            Deed::Now(reading) => write!(out, " now {reading}")?,
            Deed::Print(bytes) => {
                out.push_str(" print ")?;
                write_bytes(out, alloc, bytes.as_slice())?;
            }
            _ => out.push_str(" other")?,
        }
    }
    write!(out, " short {}", host.short())?;
    Ok(())
}

/// What reads of a source up to these lengths give, one after another, where the source's reads of these numbers fail.
pub fn reads(alloc: Global, case: &Case<'_>) -> Result<String, CaseFault> {
    let bytes = bytes_of(alloc, case.item(0)?)?;
    let fail = numbers_of(alloc, case.item(1)?)?;
    let mut source = MemSource::new(alloc, &bytes, &fail)?;
    let mut out = String::new(alloc);
    for item in items_of(case.item(2)?)? {
        write_read(&mut out, alloc, &mut source, number_of(item)?)?;
    }
    Ok(out)
}

/// What a read up to this length gives: `-` where it fails.
fn write_read<S: Source>(
    out: &mut String,
    alloc: Global,
    source: &mut S,
    limit: u64,
) -> Result<(), CaseFault> {
    gap(out)?;
    match read_up_to(alloc, source, limit.min(1_000_000) as usize) {
        Ok(bytes) => write_bytes(out, alloc, &bytes),
        Err(ReadFault::Failed) => Ok(out.push('-')?),
        Err(ReadFault::OutOfMemory) => Err(CaseFault::OutOfMemory),
    }
}

/// Whether all bytes of a text are printed by a plan, what was printed, and the deeds.
pub fn print(alloc: Global, case: &Case<'_>) -> Result<String, CaseFault> {
    let text = bytes_of(alloc, case.item(1)?)?;
    let mut out = String::new(alloc);
    let mut host = host_of(alloc, case.item(0)?)?;
    write_print(&mut out, alloc, &mut host, &text)?;
    Ok(out)
}

fn write_print(
    out: &mut String,
    alloc: Global,
    host: &mut MemHost,
    text: &[u8],
) -> Result<(), CaseFault> {
    let whole = print_all(host, text);
    write!(out, "{whole}")?;
    write_deeds(out, alloc, host)
}

/// What the real host answers to calls, with the journal at a path or, where there is none, in memory; and the file then, which goes. Of
/// the clock `later` is told, where it stands past the year 2023 and not behind an earlier reading.
pub fn file_calls<R>(rt: R, case: &Case<'_>) -> Result<String, CaseFault>
where
    R: Files<File = File> + Clock + Print + Net + AllocGlobal + Copy + Drop,
{
    let path = case.text(0)?;
    let items = items_of(case.item(1)?)?;
    let mut out = String::new(rt.alloc());
    call_real(rt, path, items, &mut out)?;
    write_file(&mut out, rt, path)?;
    let _ = fs::remove_file(&rt, path);
    Ok(out)
}

/// Makes calls on the real host, with the journal at a path or in memory.
fn call_real<R>(rt: R, path: &str, calls: &[Value], out: &mut String) -> Result<(), CaseFault>
where
    R: Files<File = File> + Clock + Print + Net + AllocGlobal + Copy + Drop,
{
    let alloc = rt.alloc();
    let mut host = match path {
        "" => FileHost::in_memory(alloc, rt),
        _ => FileHost::with_journal(alloc, rt, path)?,
    };
    make_real(&mut host, calls, alloc, out)
}

fn make_real<R>(
    host: &mut FileHost<R>,
    calls: &[Value],
    alloc: Global,
    out: &mut String,
) -> Result<(), CaseFault>
where
    R: Files<File = File> + Clock + Print + Net + Drop,
{
    let mut last = 1_700_000_000_000;
    for item in calls {
        let call = call_of(alloc, item)?;
        if let Call::Now = &call {
            last = write_later(out, host.now()?, last)?;
        } else {
            make(host, LONGEST, &call, alloc, out)?;
        }
    }
    Ok(())
}

/// Writes whether a reading isn't behind the last one, and gives it.
fn write_later(out: &mut String, reading: u64, last: u64) -> Result<u64, CaseFault> {
    gap(out)?;
    out.push_str(if reading < last { "earlier" } else { "later" })?;
    Ok(reading)
}

/// Writes the file at a path.
pub fn write_file<R>(out: &mut String, rt: R, path: &str) -> Result<(), CaseFault>
where
    R: Files<File = File> + AllocGlobal + Copy + Drop,
{
    out.push_str(" | ")?;
    match fs::read(&rt, path) {
        Ok(bytes) => write_bytes(out, rt.alloc(), &bytes),
        Err(_) => Ok(out.push_str("none")?),
    }
}

/// What a read of a file up to a length gives: of a file with these bytes, and then of none at that path.
pub fn file_reads<R>(rt: R, case: &Case<'_>) -> Result<String, CaseFault>
where
    R: Files<File = File> + AllocGlobal + Copy + Drop,
{
    let limit = number_of(case.item(1)?)?;
    make_file(rt, case.item(0)?)?;
    let mut out = String::new(rt.alloc());
    write_file_read(&mut out, rt, limit)?;
    let _ = fs::remove_file(&rt, "source.bin");
    write_file_read(&mut out, rt, limit)?;
    Ok(out)
}

fn make_file<R>(rt: R, bytes: &Value) -> Result<(), CaseFault>
where
    R: Files<File = File> + AllocGlobal + Copy + Drop,
{
    let bytes = bytes_of(rt.alloc(), bytes)?;
    match fs::write(&rt, "source.bin", &bytes) {
        Ok(()) => Ok(()),
        Err(_) => Err(CaseFault::NoCase),
    }
}

fn write_file_read<R>(out: &mut String, rt: R, limit: u64) -> Result<(), CaseFault>
where
    R: Files<File = File> + AllocGlobal + Copy + Drop,
{
    let mut source = FileSource::at(rt.alloc(), rt, "source.bin")?;
    write_read(out, rt.alloc(), &mut source, limit)
}
