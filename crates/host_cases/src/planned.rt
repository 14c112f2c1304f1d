// Calls of a host in memory to the services of its plan.
use std::alloc::Global;
use wf_cases::{Case, CaseFault, bytes_of};
use wf_host::{Address, Deed, Heard, Host, MemHost, PollError, What};
use wf_host_cases::{address_of, gap, host_of, items_of, number_of, write_bytes};
use wf_value::Value;

/// What a host in memory answers to calls, and its deeds.
pub fn calls(alloc: Global, case: &Case<'_>) -> Result<String, CaseFault> {
    let mut out = String::new(alloc);
    let mut host = host_of(alloc, case.item(0)?)?;
    make_all(&mut host, items_of(case.item(1)?)?, alloc, &mut out)?;
    Ok(out)
}

fn make_all(
    host: &mut MemHost,
    calls: &[Value],
    alloc: Global,
    out: &mut String,
) -> Result<(), CaseFault> {
    for call in calls {
        gap(out)?;
        make(host, call, alloc, out)?;
    }
    out.push_str(" |")?;
    for deed in host.deeds() {
        out.push(' ')?;
        write_deed(out, alloc, deed)?;
    }
    Ok(())
}

/// Makes a call on a host, and writes what came: `"now"`, `"sync"`, `["start", number, name, port, bytes]`, `["poll", until]` or
/// `["drop", number]`.
pub fn make<H: Host>(
    host: &mut H,
    call: &Value,
    alloc: Global,
    out: &mut String,
) -> Result<(), CaseFault> {
    if let Value::Text(name) = call {
        return match name.as_str() {
            "now" => write_now(out, host.now().ok()),
            "sync" => write_made(out, host.sync().is_ok()),
            _ => Err(CaseFault::NoCase),
        };
    }
    let [Value::Text(word), number, rest @ ..] = items_of(call)? else {
        return Err(CaseFault::NoCase);
    };
    let number = number_of(number)?;
    match rest {
        [] => ask(host, word.as_str(), number, alloc, out),
        [name, port, bytes] if word.as_str() == "start" => {
            let to = address_of(name, port)?;
            let bytes = bytes_of(alloc, bytes)?;
            write_made(out, host.start(number, &to, &bytes).is_ok())
        }
        _ => Err(CaseFault::NoCase),
    }
}

/// A poll until a moment, or the drop of a call.
fn ask<H: Host>(
    host: &mut H,
    word: &str,
    number: u64,
    alloc: Global,
    out: &mut String,
) -> Result<(), CaseFault> {
    match word {
        "poll" => write_polled(out, alloc, host.poll(number)),
        "drop" => write_made(out, host.drop_call(number).is_ok()),
        _ => Err(CaseFault::NoCase),
    }
}

fn write_made(out: &mut String, is_made: bool) -> Result<(), CaseFault> {
    Ok(out.push_str(if is_made { "+" } else { "-" })?)
}

fn write_now(out: &mut String, reading: Option<u64>) -> Result<(), CaseFault> {
    match reading {
        Some(reading) => Ok(write!(out, "{reading}")?),
        None => write_made(out, false),
    }
}

fn write_polled(
    out: &mut String,
    alloc: Global,
    heard: Result<Heard, PollError>,
) -> Result<(), CaseFault> {
    match heard {
        Ok(heard) => write_heard(out, alloc, &heard),
        Err(PollError::Failed) => write_made(out, false),
        Err(PollError::OutOfMemory) => Err(CaseFault::OutOfMemory),
    }
}

fn write_heard(out: &mut String, alloc: Global, heard: &Heard) -> Result<(), CaseFault> {
    let reading = heard.reading;
    write!(out, "{reading} ")?;
    write_what(out, alloc, &heard.what)
}

/// Writes what was heard.
pub fn write_what(out: &mut String, alloc: Global, what: &What) -> Result<(), CaseFault> {
    match what {
        What::Nothing => Ok(out.push_str("nothing")?),
        What::Bytes(call, bytes) => {
            write_number(out, "bytes", *call)?;
            out.push(' ')?;
            write_bytes(out, alloc, bytes.as_slice())
        }
        What::End(call) => write_number(out, "end", *call),
        What::Broken(call) => write_number(out, "broken", *call),
        What::Visit(_, _) | What::VisitEnd(_) => Ok(out.push_str("visit")?),
    }
}

fn write_number(out: &mut String, word: &str, number: u64) -> Result<(), CaseFault> {
    Ok(write!(out, "{word} {number}")?)
}

fn write_deed(out: &mut String, alloc: Global, deed: &Deed) -> Result<(), CaseFault> {
    match deed {
        Deed::Start(call, to, bytes) => write_start(out, alloc, *call, to, bytes.as_slice()),
        Deed::Poll(until, heard) => {
            write_number(out, "poll", *until)?;
            out.push(' ')?;
            write_heard(out, alloc, heard)
        }
        Deed::Now(reading) => write_number(out, "now", *reading),
        Deed::Drop(call) => write_number(out, "drop", *call),
        Deed::Reply(_, _) | Deed::Print(_) => Ok(out.push_str("other")?),
    }
}

fn write_start(
    out: &mut String,
    alloc: Global,
    call: u64,
    to: &Address,
    bytes: &[u8],
) -> Result<(), CaseFault> {
    let name = to.name.as_str();
    let port = to.port;
    write!(out, "start {call} {name}:{port} ")?;
    write_bytes(out, alloc, bytes)
}
