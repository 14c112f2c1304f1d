// What was done outside, as the table `calls` tells it.
//
// Each deed but a print stands there in its order: `now READING`; `start CALL NAME:PORT BYTES`, the bytes as a JSON text; `drop CALL`;
// `poll UNTIL READING` and what was heard: `nothing`, `bytes CALL COUNT`, `end CALL` or `broken CALL`. There is `; ` between them.
use crate::ended::printed;
use std::alloc::Global;
use wf_cases::CaseFault;
use wf_host::{Address, Deed, Heard, What};

/// The deeds that aren't prints.
pub fn all_told(alloc: Global, deeds: &[Deed]) -> Result<String, CaseFault> {
    let mut told = String::new(alloc);
    for deed in deeds {
        if matches!(deed, Deed::Print(_)) {
            continue;
        }
        if !told.is_empty() {
            told.push_str("; ")?;
        }
        push_deed(alloc, &mut told, deed)?;
    }
    Ok(told)
}

fn push_deed(alloc: Global, told: &mut String, deed: &Deed) -> Result<(), CaseFault> {
    match deed {
        Deed::Now(reading) => Ok(write!(told, "now {reading}")?),
        Deed::Start(call, to, bytes) => push_start(alloc, told, *call, to, bytes.as_slice()),
        Deed::Poll(until, heard) => push_poll(told, *until, heard),
        Deed::Drop(call) => Ok(write!(told, "drop {call}")?),
        Deed::Reply(_, _) | Deed::Print(_) => Err(CaseFault::NoCase),
    }
}

fn push_start(
    alloc: Global,
    told: &mut String,
    call: u64,
    to: &Address,
    bytes: &[u8],
) -> Result<(), CaseFault> {
    let bytes = printed(alloc, bytes)?;
    let name = to.name.as_str();
    let port = to.port;
    Ok(write!(told, "start {call} {name}:{port} {}", bytes.as_str())?)
}

fn push_poll(told: &mut String, until: u64, heard: &Heard) -> Result<(), CaseFault> {
    let reading = heard.reading;
    write!(told, "poll {until} {reading} ")?;
    match &heard.what {
        What::Nothing => Ok(told.push_str("nothing")?),
        What::Bytes(call, bytes) => {
            let count = bytes.as_slice().len();
            Ok(write!(told, "bytes {call} {count}")?)
        }
        What::End(call) => Ok(write!(told, "end {call}")?),
        What::Broken(call) => Ok(write!(told, "broken {call}")?),
        What::Visit(_, _) | What::VisitEnd(_) => Err(CaseFault::NoCase),
    }
}
