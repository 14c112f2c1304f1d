// Records, the bytes that spell them, and what other bytes are told.
ghost use Rattle.wf_events.specs.Spelling.{HasSpelling};
ghost use Rattle.wf_events.specs.View.{record_view};

use std::alloc::Global;
use wf_callbacks::Fields;
use wf_cases::{Case, CaseFault, bytes_of, text_of};
use wf_events::{
    Event, Record, RecordFault, Run, Start, Turn, copy_routes, decode, encode, encode_start,
    encode_turn, is_argument,
};
use wf_host::{Address, Routes};
use wf_host_cases::write_bytes;
use wf_record_parts::Reply;
use wf_value::{Bytes, Pairs, Text, Value};

/// A kind of payload.
#[derive(Clone, Copy)]
enum Payload {
    Start,
    /// With so many events.
    Turn(usize),
    None,
}

fn kind_of(alloc: Global, payload: &[u8]) -> Result<Payload, CaseFault> {
    match decode(alloc, payload) {
        Ok(Record::Start(_)) => Ok(Payload::Start),
        Ok(Record::Turn(turn)) => Ok(Payload::Turn(turn.events.count())),
        Err(RecordFault::BadRecord(_)) => Ok(Payload::None),
        Err(RecordFault::OutOfMemory) => Err(CaseFault::OutOfMemory),
    }
}

/// Which kind of record a payload is.
pub fn kind(alloc: Global, case: &Case<'_>) -> Result<String, CaseFault> {
    let bytes = bytes_of(alloc, case.item(0)?)?;
    match kind_of(alloc, &bytes)? {
        Payload::Start => Ok(String::from_str(alloc, "start")?),
        Payload::Turn(count) => Ok(format!(in alloc; "turn {count} events")?),
        Payload::None => Ok(String::from_str(alloc, "none")?),
    }
}

/// A record, and its bytes as all of it and as its part are written again; or the fault.
pub fn spelling(alloc: Global, case: &Case<'_>) -> Result<String, CaseFault> {
    let bytes = bytes_of(alloc, case.item(0)?)?;
    let mut out = String::new(alloc);
    write_decoded(&mut out, alloc, &bytes)?;
    Ok(out)
}

fn write_decoded(out: &mut String, alloc: Global, bytes: &[u8]) -> Result<(), CaseFault> {
    match decode(alloc, bytes) {
        Ok(record) => write_all(out, alloc, &record),
        Err(fault) => Ok(write!(out, "{fault}")?),
    }
}

/// Writes a record, and its bytes as all of it and as its part are written again.
fn write_all(out: &mut String, alloc: Global, found: &Record) -> Result<(), CaseFault>
    requires { HasSpelling (record_view found.now) }
{
    write_record(out, alloc, found)?;
    write_bytes_behind(out, alloc, encode(alloc, found)?)?;
    let part = match found {
        Record::Start(start) => encode_start(alloc, start)?,
        Record::Turn(turn) => encode_turn(alloc, turn)?,
    };
    write_bytes_behind(out, alloc, part)
}

fn write_bytes_behind(out: &mut String, alloc: Global, bytes: Vec<u8>) -> Result<(), CaseFault> {
    out.push(' ')?;
    write_bytes(out, alloc, &bytes)
}

/// Writes what a record says. Its pairs and routes are copied first.
fn write_record(out: &mut String, alloc: Global, record: &Record) -> Result<(), CaseFault> {
    match record {
        Record::Start(start) => write_start(out, alloc, start),
        Record::Turn(turn) => write_turn(out, alloc, turn),
    }
}

/// A start: its id, its source and its argument, then the routes, the environment, the address for callbacks and the reading.
fn write_start(out: &mut String, alloc: Global, start: &Start) -> Result<(), CaseFault> {
    write!(out, "{} ", start.id.as_str())?;
    write_bytes(out, alloc, start.source.as_slice())?;
    out.push(' ')?;
    write_bytes(out, alloc, start.argument.as_slice())?;
    write_route_copies(out, alloc, &start.routes)?;
    write_pair_copies(out, alloc, &start.env)?;
    write!(out, " [{}] {}", start.base.as_str(), start.reading)?;
    Ok(())
}

fn write_route_copies(out: &mut String, alloc: Global, routes: &Routes) -> Result<(), CaseFault> {
    write_routes(out, &copy_routes(alloc, routes)?)
}

fn write_pair_copies(out: &mut String, alloc: Global, pairs: &Pairs) -> Result<(), CaseFault> {
    write_pairs(out, &pairs.copy(alloc)?)
}

fn write_routes(out: &mut String, routes: &Routes) -> Result<(), CaseFault> {
    for (host, to) in routes.items() {
        write!(out, " {}>{}:{}", host.as_str(), to.name.as_str(), to.port)?;
    }
    Ok(())
}

fn write_pairs(out: &mut String, pairs: &Pairs) -> Result<(), CaseFault> {
    for (key, value) in pairs.items() {
        write!(out, " {}={}", key.as_str(), value.as_str())?;
    }
    Ok(())
}

/// A turn: its session and its waits, and then its events.
fn write_turn(out: &mut String, alloc: Global, turn: &Turn) -> Result<(), CaseFault> {
    write!(out, "{} {}", turn.session, turn.waits)?;
    for run in turn.events.runs() {
        write_run(out, alloc, run)?;
    }
    Ok(())
}

/// The events of a run, each behind a blank.
fn write_run(out: &mut String, alloc: Global, run: &Run) -> Result<(), CaseFault> {
    match run {
        Run::Moves(count) => {
            for _ in 0..*count {
                out.push_str(" 0")?;
            }
        }
        Run::One(event) => {
            out.push(' ')?;
            write_event(out, alloc, event)?;
        }
    }
    Ok(())
}

/// The task of a move, with its reading where it has one; of another event what it is, its number,
/// its reading where it has one, and what came.
fn write_event(out: &mut String, alloc: Global, event: &Event) -> Result<(), CaseFault> {
    match event {
        Event::Move(task) => write!(out, "{task}")?,
        Event::MoveAt(task, reading) => write!(out, "{task}@{reading}")?,
        Event::Begin(task) => write!(out, "begin {task}")?,
        Event::Issue(task, reading) => write!(out, "issue {task}@{reading}")?,
        Event::Answer(call, reading, reply) => {
            write!(out, "answer {call}@{reading} ")?;
            write_reply(out, alloc, reply)?;
        }
        Event::Due(task, reading) => write!(out, "due {task}@{reading}")?,
        Event::Arrive(endpoint, reading, visitor) => {
            write!(out, "arrive {endpoint}@{reading} {}", visitor.method.name())?;
            write_content(out, alloc, &visitor.headers, &visitor.body)?;
        }
    }
    Ok(())
}

fn write_reply(out: &mut String, alloc: Global, reply: &Reply) -> Result<(), CaseFault> {
    match reply {
        Reply::Response(response) => {
            write!(out, "{}", response.code)?;
            write_content(out, alloc, &response.headers, &response.body)
        }
        Reply::Broken => Ok(out.push_str("broken")?),
        Reply::TooLong => Ok(out.push_str("too long")?),
    }
}

/// The name and the value of each field, and a body.
fn write_content(
    out: &mut String,
    alloc: Global,
    headers: &Fields,
    body: &Bytes,
) -> Result<(), CaseFault> {
    for (name, value) in headers.items() {
        out.push(' ')?;
        write_bytes(out, alloc, name.as_slice())?;
        out.push('=')?;
        write_bytes(out, alloc, value.as_slice())?;
    }
    out.push(' ')?;
    write_bytes(out, alloc, body.as_slice())
}

/// Where the fault is for each front of these bytes, from the empty one on; `ok` where a front is a record.
pub fn fronts(alloc: Global, case: &Case<'_>) -> Result<String, CaseFault> {
    let bytes = bytes_of(alloc, case.item(0)?)?;
    let mut out = String::new(alloc);
    for end in 0..bytes.len() {
        if end > 0 {
            out.push(' ')?;
        }
        write_front(&mut out, alloc, bytes.split_at(end).0)?;
    }
    Ok(out)
}

fn write_front(out: &mut String, alloc: Global, front: &[u8]) -> Result<(), CaseFault> {
    match fault_of(alloc, front) {
        None => Ok(out.push_str("ok")?),
        Some(RecordFault::BadRecord(at)) => Ok(write!(out, "{at}")?),
        Some(RecordFault::OutOfMemory) => Err(CaseFault::OutOfMemory),
    }
}

/// Why a payload is no record.
fn fault_of(alloc: Global, payload: &[u8]) -> Option<RecordFault> {
    match decode(alloc, payload) {
        Ok(_) => None,
        Err(fault) => Some(fault),
    }
}

/// Whether a text is an argument; and what is told of a start whose source is the byte ff, and whose argument it is.
pub fn argument(alloc: Global, case: &Case<'_>) -> Result<String, CaseFault> {
    let text = text_of(alloc, case.items())?;
    let is_one = is_argument(alloc, text.as_bytes())?;
    match fault_with(alloc, text.as_bytes())? {
        None => Ok(format!(in alloc; "{is_one} taken")?),
        Some(fault) => Ok(format!(in alloc; "{is_one} {fault}")?),
    }
}

/// Why the start with this argument is no record.
fn fault_with(alloc: Global, argument: &[u8]) -> Result<Option<RecordFault>, CaseFault> {
    let Ok(length) = u32::try_from(argument.len()) else {
        return Err(CaseFault::NoCase);
    };
    let mut bytes = Vec::from_slice(alloc, b"\x01\0\0\0\x01x\0\0\0\x01\xff")?;
    bytes.extend_from_slice(&length.to_be_bytes())?;
    bytes.extend_from_slice(argument)?;
    bytes.extend_from_slice(&[0; 20])?;
    Ok(fault_of(alloc, &bytes))
}

/// Routes that are pushed one after another, as they stand then, and as a copy has them.
pub fn routes(alloc: Global, case: &Case<'_>) -> Result<String, CaseFault> {
    let routes = pushed_routes(alloc, case.items())?;
    let mut out = String::new(alloc);
    write_both(&mut out, alloc, &routes)?;
    Ok(out)
}

fn pushed_routes(alloc: Global, items: &[Value]) -> Result<Routes, CaseFault> {
    let mut routes = Routes::new(alloc);
    for item in items {
        push_route(&mut routes, item)?;
    }
    Ok(routes)
}

/// Adds a route: the host's name, the address' name, and its port.
fn push_route(routes: &mut Routes, route: &Value) -> Result<(), CaseFault> {
    let Value::List(route) = route else {
        return Err(CaseFault::NoCase);
    };
    let [Value::Text(host), Value::Text(name), Value::Int(port)] = route.items() else {
        return Err(CaseFault::NoCase);
    };
    let Ok(port) = u16::try_from(*port) else {
        return Err(CaseFault::NoCase);
    };
    let host = host.copy()?;
    let name = name.copy()?;
    Ok(routes.push(host, Address { name, port })?)
}

fn write_both(out: &mut String, alloc: Global, routes: &Routes) -> Result<(), CaseFault> {
    write!(out, "{}", routes.items().len())?;
    write_routes(out, routes)?;
    out.push_str(" and")?;
    write_route_copies(out, alloc, routes)
}

/// What each fault of a record says.
pub fn fault_texts(alloc: Global) -> Result<String, CaseFault> {
    let bad = RecordFault::BadRecord(26);
    Ok(format!(in alloc; "{bad}; {}", RecordFault::OutOfMemory)?)
}
