// Calls of the real host to a service of this program's own, on one thread.
use crate::planned::write_what;
use crate::service::{CLOSED, Service, Step};
use std::alloc::Global;
use std::fs::{File, Files};
use std::io::Print;
use std::net::{Net, TcpListener, TcpStream};
use std::time::Clock;
use wf_cases::{Case, CaseFault, bytes_of};
use wf_file_host::FileHost;
use wf_host::{Address, Host, PollError, What};
use wf_host_cases::{gap, items_of, number_of, write_bytes};
use wf_value::{Text, Value};

/// How many turns the two sides take at most, until one has what it waits for. A turn of the host ends by itself within a millisecond.
const TURNS: u64 = 20_000;

/// What comes of the steps of a case. Those of the host are `["start", number, name, bytes]`, `["refused", number, name, bytes]` to a port
/// on which nobody listens, `["poll", millis]`, `["late", times]`, which polls so many times at most until a moment that has passed, and
/// `["drop", number]`. Those of the service are `"accept"`, `["hear", connection, count]` for so many bytes or the end,
/// `["say", connection, bytes]`, `["tell", connection, bytes]`, after which the host has heard as many bytes, and `["close", connection]`.
/// While the service waits, the host polls.
pub fn calls<R>(rt: R, case: &Case<'_>) -> Result<String, CaseFault>
where
    R: Files<File = File>
        + Clock
        + Print
        + Net<Listener = TcpListener, Stream = TcpStream>
        + AllocGlobal
        + Copy
        + Drop,
{
    let alloc = rt.alloc();
    let mut out = String::new(alloc);
    let mut service = Service::new(alloc, &rt)?;
    let mut host = FileHost::in_memory(alloc, rt);
    for step in items_of(case.item(0)?)? {
        gap(&mut out)?;
        take(&mut host, &mut service, step, alloc, &mut out)?;
    }
    Ok(out)
}

fn take<H: Host>(
    host: &mut H,
    service: &mut Service,
    step: &Value,
    alloc: Global,
    out: &mut String,
) -> Result<(), CaseFault> {
    if let Value::Text(word) = step {
        return match word.as_str() {
            "accept" => accept(host, service, alloc, out),
            _ => Err(CaseFault::NoCase),
        };
    }
    let [Value::Text(word), number, rest @ ..] = items_of(step)? else {
        return Err(CaseFault::NoCase);
    };
    let (word, number) = (word.as_str(), number_of(number)?);
    match rest {
        [] if word == "close" => close(service, number, out),
        [] => one(host, word, number, alloc, out),
        [what] if word == "hear" => hear(host, service, number, number_of(what)?, alloc, out),
        [what] => said(
            host,
            service,
            word,
            number,
            &bytes_of(alloc, what)?,
            alloc,
            out,
        ),
        [Value::Text(name), bytes] => {
            let port = port_of(service, word)?;
            start(host, number, name, port, &bytes_of(alloc, bytes)?, out)
        }
        _ => Err(CaseFault::NoCase),
    }
}

/// The port of the service, or that on which nobody listens.
fn port_of(service: &Service, word: &str) -> Result<u16, CaseFault> {
    match word {
        "start" => Ok(service.port),
        "refused" => Ok(CLOSED),
        _ => Err(CaseFault::NoCase),
    }
}

/// The service closes a connection.
fn close(service: &mut Service, number: u64, out: &mut String) -> Result<(), CaseFault> {
    service.close(number)?;
    Ok(out.push('+')?)
}

/// The service says bytes, few or many.
fn said<H: Host>(
    host: &mut H,
    service: &mut Service,
    word: &str,
    number: u64,
    bytes: &[u8],
    alloc: Global,
    out: &mut String,
) -> Result<(), CaseFault> {
    match word {
        "say" => say(service, number, bytes, out),
        "tell" => tell(host, service, number, bytes, alloc, out),
        _ => Err(CaseFault::NoCase),
    }
}

/// A step of the host that is a word and a number.
fn one<H: Host>(
    host: &mut H,
    word: &str,
    number: u64,
    alloc: Global,
    out: &mut String,
) -> Result<(), CaseFault> {
    match word {
        "poll" => {
            let heard = poll(host, number)?;
            write_what(out, alloc, &heard)
        }
        "late" => late(host, number, alloc, out),
        "drop" => {
            host.drop_call(number)?;
            Ok(out.push('+')?)
        }
        _ => Err(CaseFault::NoCase),
    }
}

fn start<H: Host>(
    host: &mut H,
    number: u64,
    name: &Text,
    port: u16,
    bytes: &[u8],
    out: &mut String,
) -> Result<(), CaseFault> {
    let to = Address {
        name: name.copy()?,
        port,
    };
    host.start(number, &to, bytes)?;
    Ok(out.push('+')?)
}

/// What is heard until a moment.
fn poll_until<H: Host>(host: &mut H, until: u64) -> Result<What, CaseFault> {
    match host.poll(until) {
        Ok(heard) => Ok(heard.what),
        Err(PollError::Failed) => Err(CaseFault::NoCase),
        Err(PollError::OutOfMemory) => Err(CaseFault::OutOfMemory),
    }
}

/// What is heard within so many milliseconds.
fn poll<H: Host>(host: &mut H, millis: u64) -> Result<What, CaseFault> {
    let now = host.now()?;
    poll_until(host, now.saturating_add(millis))
}

/// Polls until a moment that has passed, so many times at most, until something is heard, and writes that.
fn late<H: Host>(
    host: &mut H,
    times: u64,
    alloc: Global,
    out: &mut String,
) -> Result<(), CaseFault> {
    let mut heard = What::Nothing;
    for _ in 0..times {
        heard = poll_until(host, 0)?;
        if !matches!(heard, What::Nothing) {
            break;
        }
    }
    write_what(out, alloc, &heard)
}

/// The service takes the next connection.
fn accept<H: Host>(
    host: &mut H,
    service: &mut Service,
    alloc: Global,
    out: &mut String,
) -> Result<(), CaseFault> {
    for _ in 0..TURNS {
        if service.accept()? {
            return Ok(out.push('+')?);
        }
        let heard = poll(host, 1)?;
        if !matches!(heard, What::Nothing) {
            return write_what(out, alloc, &heard);
        }
    }
    Ok(out.push('-')?)
}

/// Writes what the service reads, up to so many bytes or the end.
fn hear<H: Host>(
    host: &mut H,
    service: &mut Service,
    number: u64,
    count: u64,
    alloc: Global,
    out: &mut String,
) -> Result<(), CaseFault> {
    let mut bytes: Vec<u8> = Vec::new(alloc);
    let mut room = Vec::from_elem(alloc, 0u8, 65_536)?;
    for _ in 0..TURNS {
        let left = count.saturating_sub(bytes.len() as u64);
        if left == 0 {
            break;
        }
        let most = left.min(room.len() as u64) as usize;
        match service.read(number, &mut room[..most])? {
            Step::Nothing => {
                let heard = poll(host, 1)?;
                if !matches!(heard, What::Nothing) {
                    return write_what(out, alloc, &heard);
                }
            }
            Step::Got(got) => bytes.extend_from_slice(&room[..got.min(most)])?,
            Step::End if bytes.is_empty() => return Ok(out.push_str("end")?),
            Step::End => break,
            Step::Broken => return Ok(out.push_str("broken")?),
        }
    }
    write_bytes(out, alloc, &bytes)
}

/// The service says few bytes, which are taken at once.
fn say(
    service: &mut Service,
    number: u64,
    bytes: &[u8],
    out: &mut String,
) -> Result<(), CaseFault> {
    let is_said = matches!(service.write(number, bytes)?, Step::Got(count) if count == bytes.len());
    Ok(out.push(if is_said { '+' } else { '-' })?)
}

/// The service says many bytes, and how many the host hears of them is written.
fn tell<H: Host>(
    host: &mut H,
    service: &mut Service,
    number: u64,
    bytes: &[u8],
    alloc: Global,
    out: &mut String,
) -> Result<(), CaseFault> {
    let mut rest = bytes;
    let mut heard = 0usize;
    for _ in 0..TURNS {
        if !rest.is_empty() {
            match service.write(number, rest)? {
                Step::Nothing => {}
                Step::Got(count) => rest = &rest[count.min(rest.len())..],
                Step::End | Step::Broken => return Ok(out.push_str("broken")?),
            }
        }
        match poll(host, 1)? {
            What::Nothing => {}
            What::Bytes(_, piece) => heard = heard.saturating_add(piece.as_slice().len()),
            what => return write_what(out, alloc, &what),
        }
        if heard >= bytes.len() {
            break;
        }
    }
    Ok(write!(out, "{heard}")?)
}
