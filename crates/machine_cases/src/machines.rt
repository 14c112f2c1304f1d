// Machines, event by event.
ghost use Rattle.std.specs.Prelude.{◌≡◌, ◌<◌, false, IfOk};
ghost use Rattle.wf_machine.specs.Seen.{state_of};

use crate::events::event_of;
use crate::records::{start_of, write_event};
use std::alloc::Global;
use std::marker::Brand;
use std::sync::ledger::{Blank, Ledger};
use wf_cases::{Case, CaseFault, json_of, quoted, text_of};
use wf_events::Start;
use wf_host_cases::{items_of, number_of};
use wf_machine::{ApplyFault, Machine, Outcome, Steps};
use wf_source::read_source;
use wf_value::{Text, Value};

/// The text of a source: a text, or a list of its pieces.
fn source_of(alloc: Global, value: &Value) -> Result<String, CaseFault> {
    match value {
        Value::Text(text) => Ok(String::from_str(alloc, text.as_str())?),
        pieces => text_of(alloc, items_of(pieces)?),
    }
}

/// Writes how an execution has ended. A value that JSON can't have, since it nests too deep, is no case.
pub fn write_outcome(
    out: &mut String,
    alloc: Global,
    outcome: Outcome<'_>,
) -> Result<(), CaseFault> {
    let (word, value) = match outcome {
        Outcome::Active => return Ok(out.push_str("active")?),
        Outcome::Returned(value) => ("returned", value),
        Outcome::Raised(error) => ("raised", error),
    };
    let json = json_of(alloc, value)?;
    Ok(write!(out, "{word} {json}")?)
}

/// Writes all that a machine shows, at a reading of the clock.
fn write_state(
    out: &mut String,
    alloc: Global,
    machine: &Machine,
    reading: u64,
) -> Result<(), CaseFault> {
    write!(out, "{} steps, ", machine.program().step_count())?;
    write!(
        out,
        "{} moves, {} calls, ",
        machine.moves(),
        machine.calls()
    )?;
    write!(out, "last {}, ", machine.last_reading())?;
    if machine.is_quiet(reading) {
        out.push_str("quiet, ")?;
    }
    if let Some(due) = machine.least_due() {
        write!(out, "due {due}, ")?;
    }
    write_outcome(out, alloc, machine.outcome())
}

/// Writes whether an event was applied.
fn write_applied(out: &mut String, applied: Result<(), ApplyFault>) -> Result<(), CaseFault> {
    match applied {
        Ok(()) => Ok(out.push('+')?),
        Err(ApplyFault::NotEnabled) => Ok(out.push_str("not enabled")?),
        Err(ApplyFault::OutOfMemory) => Err(CaseFault::OutOfMemory),
    }
}

/// Writes where the request of an open call is sent, and its bytes, as JSON; or `none`.
fn write_request(
    out: &mut String,
    alloc: Global,
    machine: &Machine,
    call: u64,
) -> Result<(), CaseFault> {
    let Some(request) = machine.request(call) else {
        return Ok(out.push_str("none")?);
    };
    let Ok(text) = str::from_utf8(request.bytes.as_slice()) else {
        return Err(CaseFault::NoCase);
    };
    let json = quoted(alloc, text)?;
    let address = &request.address;
    Ok(write!(out, "{}:{} {json}", address.name.as_str(), address.port)?)
}

/// Asks a machine: `["choose", reading]`, `["run", reading]`, which applies what is chosen at the reading until nothing is,
/// `["state", reading]`, `["next_open", number]` or `["request", number]`.
fn ask<L: Ledger>(
    machine: &mut Machine,
    name: &str,
    number: u64,
    alloc: Global,
    out: &mut String,
    steps: &mut Steps<L>,
) -> Result<(), CaseFault> {
    match name {
        "state" => write_state(out, alloc, machine, number),
        "request" => write_request(out, alloc, machine, number),
        "next_open" => match machine.next_open(number) {
            Some(call) => Ok(write!(out, "{call}")?),
            None => Ok(out.push_str("none")?),
        },
        "choose" => match machine.choose(number) {
            Some(event) => write_event(out, &event),
            None => Ok(out.push_str("none")?),
        },
        "run" => {
            out.push_str("ran")?;
            run(machine, number, out, steps)
        }
        _ => Err(CaseFault::NoCase),
    }
}

/// Makes a call on a machine: it applies an event (`event_of`), or asks (`ask`).
fn make<L: Ledger>(
    machine: &mut Machine,
    call: &Value,
    alloc: Global,
    out: &mut String,
    steps: &mut Steps<L>,
) -> Result<(), CaseFault> {
    match items_of(call)? {
        [Value::Text(name), number] if !is_event(name.as_str()) => {
            ask(
                machine,
                name.as_str(),
                number_of(number)?,
                alloc,
                out,
                steps,
            )
        }
        items => {
            let event = event_of(alloc, items)?;
            write_applied(out, machine.apply(&event, steps))
        }
    }
}

/// Whether a word is that of an event without a reading.
fn is_event(name: &str) -> bool {
    name == "move" || name == "begin"
}

/// Applies what is chosen at a reading, until nothing is or there were ten events.
fn run<L: Ledger>(
    machine: &mut Machine,
    reading: u64,
    out: &mut String,
    steps: &mut Steps<L>,
) -> Result<(), CaseFault> {
    for _ in 0..10 {
        let Some(event) = machine.choose(reading) else {
            break;
        };
        out.push(' ')?;
        write_event(out, &event)?;
        if machine.apply(&event, steps).is_err() {
            return Err(CaseFault::OutOfMemory);
        }
    }
    Ok(())
}

/// The machine of a source and of a start, which a payload in hex spells.
pub fn machine_of(alloc: Global, source: &Value, payload: &Value) -> Result<Machine, CaseFault>
    ensures { IfOk result (λ m. (state_of m).broken ≡ false) }
{
    let source = source_of(alloc, source)?;
    let start = start_of(alloc, payload)?;
    started(alloc, source.as_str(), &start)
}

/// The machine of a source and of a start.
pub fn started(alloc: Global, source: &str, start: &Start) -> Result<Machine, CaseFault>
    ensures { IfOk result (λ m. (state_of m).broken ≡ false) }
{
    let Ok(program) = read_source(alloc, source.as_bytes()) else {
        return Err(CaseFault::NoCase);
    };
    match Machine::new(alloc, start, program) {
        Ok(machine) => Ok(machine),
        Err(_) => Err(CaseFault::OutOfMemory),
    }
}

/// What calls on the machine of a source give, which is begun with the start of a payload.
pub fn calls(alloc: Global, case: &Case<'_>) -> Result<String, CaseFault> {
    let calls = items_of(case.item(2)?)?;
    let mut out = String::new(alloc);
    let mut machine = machine_of(alloc, case.item(0)?, case.item(1)?)?;
    make_all::<Brand>(&mut machine, calls, alloc, &mut out, Blank::new(1))?;
    Ok(out)
}

/// Makes the calls, counting the events on a ledger of its own.
fn make_all<L: Ledger>(
    machine: &mut Machine,
    calls: &[Value],
    alloc: Global,
    out: &mut String,
    blank: Blank,
) -> Result<(), CaseFault>
    requires name { blank.name ≡ L.name }
    requires parts { blank.parts ≡ L.parts }
    requires some { 0 < blank.parts }
{
    let mut steps = Steps::<L>::new(blank);
    for (i, call) in calls.iter().enumerate() {
        if i > 0 {
            out.push_str("; ")?;
        }
        make(machine, call, alloc, out, &mut steps)?;
    }
    Ok(())
}
