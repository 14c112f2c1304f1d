// Replays of histories.
ghost use Rattle.std.specs.Prelude.{◌≡◌, ◌<◌, false};
ghost use Rattle.wf_history.specs.Stands.{is_closed, Stands};
ghost use Rattle.wf_host.specs.MemHost.{mem_world};
ghost use Rattle.wf_host.specs.World.{Told};
ghost use Rattle.wf_machine.specs.Seen.{state_of};

use crate::machines::{started, write_outcome};
use std::alloc::Global;
use std::marker::Brand;
use std::sync::ledger::{Blank, Ledger};
use wf_cases::{Case, CaseFault};
use wf_events::{Record, Start};
use wf_history::{History, HistoryFault};
use wf_host::MemHost;
use wf_host_cases::host_of;
use wf_machine::{Machine, Steps};
use wf_replay::{ReplayFault, replay};
use wf_value::Value;

/// Writes what a replay gave: how many moves were made, and the outcome; or the fault.
fn write_replayed(
    out: &mut String,
    alloc: Global,
    replayed: Result<Machine, ReplayFault>,
) -> Result<(), CaseFault> {
    match replayed {
        Ok(machine) => {
            write!(out, "{} moves, ", machine.moves())?;
            write_outcome(out, alloc, machine.outcome())
        }
        Err(fault) => Ok(write!(out, "{fault}")?),
    }
}

/// Replays the history of a host's file on the machine of a source, and then again on the same history, which is at its end or closed.
/// The events are counted on a ledger of its own.
fn replay_twice<L: Ledger>(
    alloc: Global,
    host: &mut MemHost,
    source: &Value,
    out: &mut String,
    blank: Blank,
) -> Result<(), CaseFault>
    requires name { blank.name ≡ L.name }
    requires parts { blank.parts ≡ L.parts }
    requires some { 0 < blank.parts }
{
    let Value::Text(source) = source else {
        return Err(CaseFault::NoCase);
    };
    let mut steps = Steps::<L>::new(blank);
    let mut history = match History::open(host) {
        Ok(history) => history,
        Err(fault) => return write_fault(out, fault),
    };
    match first_start(alloc, &mut history, host)? {
        Ok(start) => replay_both(
            alloc,
            &mut history,
            host,
            source.as_str(),
            &start,
            out,
            &mut steps,
        ),
        Err(fault) => write_fault(out, fault),
    }
}

fn write_fault(out: &mut String, fault: HistoryFault) -> Result<(), CaseFault> {
    Ok(write!(out, "{}", ReplayFault::from(fault))?)
}

/// The start that a history's next record is, or the fault.
fn first_start(
    alloc: Global,
    history: &mut History,
    host: &mut MemHost,
) -> Result<Result<Start, HistoryFault>, CaseFault>
    requires kept { is_closed history.old ≡ false
        → Told (mem_world host.old) (Stands history.old (mem_world host.old)) }
    ensures stands { is_closed history.new ≡ false
        → Told (mem_world host.new) (Stands history.new (mem_world host.new)) }
{
    match history.next(alloc, host) {
        Ok(Some(Record::Start(start))) => Ok(Ok(start)),
        Ok(_) => Err(CaseFault::NoCase),
        Err(fault) => Ok(Err(fault)),
    }
}

/// Replays a history on the machine of a source and a start, and then again.
fn replay_both<L: Ledger>(
    alloc: Global,
    history: &mut History,
    host: &mut MemHost,
    source: &str,
    start: &Start,
    out: &mut String,
    steps: &mut Steps<L>,
) -> Result<(), CaseFault>
    requires kept { is_closed history.old ≡ false
        → Told (mem_world host.old) (Stands history.old (mem_world host.old)) }
{
    let machine = started(alloc, source, start)?;
    write_replay(alloc, history, host, machine, out, steps)?;
    out.push_str("; again ")?;
    let machine = started(alloc, source, start)?;
    write_replay(alloc, history, host, machine, out, steps)
}

/// Replays a history on a machine, and writes what that gave.
fn write_replay<L: Ledger>(
    alloc: Global,
    history: &mut History,
    host: &mut MemHost,
    machine: Machine,
    out: &mut String,
    steps: &mut Steps<L>,
) -> Result<(), CaseFault>
    requires whole { (state_of machine).broken ≡ false }
    requires kept { is_closed history.old ≡ false
        → Told (mem_world host.old) (Stands history.old (mem_world host.old)) }
    ensures stands { is_closed history.new ≡ false
        → Told (mem_world host.new) (Stands history.new (mem_world host.new)) }
{
    let replayed = replay(alloc, history, host, machine, steps);
    write_replayed(out, alloc, replayed)
}

/// What two replays of the history in a host's file give, one after the other.
pub fn twice(alloc: Global, case: &Case<'_>) -> Result<String, CaseFault> {
    let source = case.item(0)?;
    let mut out = String::new(alloc);
    let mut host = host_of(alloc, case.item(1)?)?;
    replay_twice::<Brand>(alloc, &mut host, source, &mut out, Blank::new(1))?;
    Ok(out)
}

/// What each fault of a replay says.
pub fn fault_texts(alloc: Global) -> Result<String, CaseFault> {
    let mut out = format!(in alloc; "{}", ReplayFault::DiskFault)?;
    for fault in [
        ReplayFault::BadEvent(7),
        ReplayFault::Closed,
        ReplayFault::OutOfMemory,
    ] {
        write!(out, "; {fault}")?;
    }
    Ok(out)
}
