// The starts and the events of machines.
ghost use Rattle.std.specs.Prelude.{◌≤◌, length, IfOk};
ghost use Rattle.wf_events.specs.Records.{Started};
ghost use Rattle.wf_events.specs.Spelling.{record_bytes, HasSpelling};
ghost use Rattle.wf_events.specs.View.{start_view};

use std::alloc::Global;
use wf_cases::{CaseFault, bytes_of};
use wf_events::{Event, Events, Record, Run, Start, decode};
use wf_value::Value;

/// No record is longer.
const LONGEST: usize = 16_777_215;

/// The start that a payload in hex spells.
pub fn start_of(alloc: Global, payload: &Value) -> Result<Start, CaseFault>
    ensures spelled { IfOk result (λ s. HasSpelling (Started (start_view s))) }
    ensures short { IfOk result (λ s. length (record_bytes (Started (start_view s))) ≤ 16777215) }
{
    let payload = bytes_of(alloc, payload)?;
    start_in(alloc, &payload)
}

fn start_in(alloc: Global, payload: &[u8]) -> Result<Start, CaseFault>
    ensures spelled { IfOk result (λ s. HasSpelling (Started (start_view s))) }
    ensures short { IfOk result (λ s. length (record_bytes (Started (start_view s))) ≤ 16777215) }
{
    if payload.len() > LONGEST {
        return Err(CaseFault::NoCase);
    }
    match decode(alloc, payload) {
        Ok(Record::Start(start)) => Ok(start),
        _ => Err(CaseFault::NoCase),
    }
}

/// The events, each behind a blank.
pub fn write_events(out: &mut String, events: &Events) -> Result<(), CaseFault> {
    for run in events.runs() {
        write_run(out, run)?;
    }
    Ok(())
}

/// The events of a run, each behind a blank.
fn write_run(out: &mut String, run: &Run) -> Result<(), CaseFault> {
    match run {
        Run::Moves(count) => {
            for _ in 0..*count {
                out.push_str(" 0")?;
            }
        }
        Run::One(event) => {
            out.push(' ')?;
            write_event(out, event)?;
        }
    }
    Ok(())
}

/// An event: of a move its task alone, of another one a word before the task, the call or the endpoint; and its reading where it has
/// one. What an answer or a request holds isn't written.
pub fn write_event(out: &mut String, event: &Event) -> Result<(), CaseFault> {
    match event {
        Event::Move(task) => write!(out, "{task}")?,
        Event::MoveAt(task, reading) => write!(out, "{task}@{reading}")?,
        Event::Begin(task) => write!(out, "begin {task}")?,
        Event::Issue(task, reading) => write!(out, "issue {task}@{reading}")?,
        Event::Answer(call, reading, _) => write!(out, "answer {call}@{reading}")?,
        Event::Due(task, reading) => write!(out, "due {task}@{reading}")?,
        Event::Arrive(endpoint, reading, _) => write!(out, "arrive {endpoint}@{reading}")?,
    }
    Ok(())
}
