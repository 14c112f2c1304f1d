// Histories on hosts in memory.
ghost use Rattle.std.specs.Prelude.{◌≡◌, ◌≢◌, ◌≤◌, [], true, false, length, IfOk, OnOk};
ghost use Rattle.wf_events.specs.Records.{Started, Turned};
ghost use Rattle.wf_events.specs.Spelling.{record_bytes, HasSpelling};
ghost use Rattle.wf_events.specs.View.{start_view, turn_view};
ghost use Rattle.wf_history.specs.Stands.{is_new, at_end, is_closed, Stands};
ghost use Rattle.wf_host.specs.MemHost.{mem_world};
ghost use Rattle.wf_host.specs.World.{Told};
ghost use Rattle.wf_journal.specs.Records.{records};

use std::alloc::Global;
use wf_cases::{Case, CaseFault, bytes_of};
use wf_events::{Record, Start, Turn, decode};
use wf_history::{History, HistoryFault};
use wf_host::MemHost;
use wf_host_cases::{host_of, items_of, number_of, write_left};
use wf_value::Value;

/// No record is longer.
const LONGEST: usize = 16_777_215;

/// The start that a payload spells.
fn start_of(alloc: Global, payload: &[u8]) -> Result<Start, CaseFault>
    ensures spelled { IfOk result (λ s. HasSpelling (Started (start_view s))) }
    ensures short { IfOk result (λ s. length (record_bytes (Started (start_view s))) ≤ 16777215) }
{
    if payload.len() > LONGEST {
        return Err(CaseFault::NoCase);
    }
    match decode(alloc, payload) {
        Ok(Record::Start(start)) => Ok(start),
        _ => Err(CaseFault::NoCase),
    }
}

/// The turn that a payload spells.
fn turn_of(alloc: Global, payload: &[u8]) -> Result<Turn, CaseFault>
    ensures spelled { IfOk result (λ t. HasSpelling (Turned (turn_view t))) }
    ensures short { IfOk result (λ t. length (record_bytes (Turned (turn_view t))) ≤ 16777215) }
{
    if payload.len() > LONGEST {
        return Err(CaseFault::NoCase);
    }
    match decode(alloc, payload) {
        Ok(Record::Turn(turn)) => Ok(turn),
        _ => Err(CaseFault::NoCase),
    }
}

/// Writes the number of the record that comes next, the session and the waits of the last turn, and whether the end was reached.
fn write_place(out: &mut String, history: &History) -> Result<(), CaseFault> {
    write!(out, " at {}", history.place())?;
    if let Some((session, waits)) = history.last() {
        write!(out, " behind {session} {waits}")?;
    }
    if history.at_end() {
        out.push_str(" end")?;
    }
    Ok(())
}

/// What comes next in a history.
#[derive(Clone, Copy)]
enum Found {
    /// A start, with its reading.
    Start(u64),
    /// A turn, with its session, its waits and its count of events.
    Turn(u64, u64, usize),
    /// Nothing, behind the last record.
    None,
}

/// Reads the next record.
fn read_next(
    alloc: Global,
    history: &mut History,
    host: &mut MemHost,
) -> Result<Found, HistoryFault>
    requires kept { is_closed history.old ≡ false
        → Told (mem_world host.old) (Stands history.old (mem_world host.old)) }
    ensures stands { is_closed history.new ≡ false
        → Told (mem_world host.old) (Stands history.new (mem_world host.new)) }
    ensures tells { (mem_world host.new).tells ≡ (mem_world host.old).tells }
{
    match history.next(alloc, host) {
        Ok(Some(Record::Start(start))) => Ok(Found::Start(start.reading)),
        Ok(Some(Record::Turn(turn))) => {
            let count = turn.events.count();
            Ok(Found::Turn(turn.session, turn.waits, count))
        }
        Ok(None) => Ok(Found::None),
        Err(fault) => Err(fault),
    }
}

/// Writes the next record: a start's reading, or a turn's session, waits and count of events; `none` behind the last, or the fault.
fn write_next(
    alloc: Global,
    history: &mut History,
    host: &mut MemHost,
    out: &mut String,
) -> Result<(), CaseFault>
    requires kept { is_closed history.old ≡ false
        → Told (mem_world host.old) (Stands history.old (mem_world host.old)) }
    ensures stands { is_closed history.new ≡ false
        → Told (mem_world host.old) (Stands history.new (mem_world host.new)) }
    ensures tells { (mem_world host.new).tells ≡ (mem_world host.old).tells }
{
    let read = read_next(alloc, history, host);
    write_read(out, read)?;
    write_place(out, history)
}

fn write_read(out: &mut String, read: Result<Found, HistoryFault>) -> Result<(), CaseFault> {
    out.push_str(", ")?;
    match read {
        Ok(Found::Start(reading)) => write!(out, "start {reading}")?,
        Ok(Found::Turn(session, waits, count)) => write!(out, "turn {session} {waits} {count}")?,
        Ok(Found::None) => out.push_str("none")?,
        Err(fault) => write!(out, "{fault}")?,
    }
    Ok(())
}

/// Opens the history of a host's file, and reads so many records.
fn read_all(
    alloc: Global,
    host: &mut MemHost,
    count: u64,
    out: &mut String,
) -> Result<(), CaseFault> {
    let mut history = match History::open(host) {
        Ok(history) => history,
        Err(fault) => return Ok(write!(out, "{fault}")?),
    };
    out.push_str("open")?;
    write_place(out, &history)?;
    for _ in 0..count {
        write_next(alloc, &mut history, host, out)?;
    }
    Ok(())
}

/// Adds the turn of a payload to a history.
fn add(
    alloc: Global,
    history: &mut History,
    host: &mut MemHost,
    payload: &Value,
) -> Result<Result<(), HistoryFault>, CaseFault>
    requires ended { at_end history.old ≡ true }
    requires begun { is_new history.old ≡ false }
    requires started { Told (mem_world host.old) (records (mem_world host.old).seen ≢ []) }
    requires kept { is_closed history.old ≡ false
        → Told (mem_world host.old) (Stands history.old (mem_world host.old)) }
    ensures still_ended { at_end history.new ≡ true }
    ensures still_begun { is_new history.new ≡ false }
    ensures started { IfOk result (λ added. OnOk added
        (Told (mem_world host.old) (records (mem_world host.new).seen ≢ []))) }
    ensures stands { is_closed history.new ≡ false
        → Told (mem_world host.old) (Stands history.new (mem_world host.new)) }
    ensures tells { (mem_world host.new).tells ≡ (mem_world host.old).tells }
{
    let turn = turn_of(alloc, &bytes_of(alloc, payload)?)?;
    Ok(history.add(alloc, host, &turn))
}

/// Begins a history with a start, where the host's file has no record, and adds the turns of payloads until one fails.
fn write_all(
    alloc: Global,
    host: &mut MemHost,
    start: &Start,
    payloads: &[Value],
    out: &mut String,
) -> Result<Result<(), HistoryFault>, CaseFault>
    requires spelled { HasSpelling (Started (start_view start.now)) }
    requires short { length (record_bytes (Started (start_view start.now))) ≤ 16777215 }
{
    let mut history = match History::open(host) {
        Ok(history) => history,
        Err(fault) => return Ok(Err(fault)),
    };
    match history.next(alloc, host) {
        Ok(None) => {}
        Ok(Some(_)) => return Err(CaseFault::NoCase),
        Err(fault) => return Ok(Err(fault)),
    }
    if let Err(fault) = history.begin(alloc, host, start) {
        return Ok(Err(fault));
    }
    out.push_str("begun")?;
    write_place(out, &history)?;
    for payload in payloads {
        out.push_str(", ")?;
        if let Err(fault) = add(alloc, &mut history, host, payload)? {
            return Ok(Err(fault));
        }
        out.push('+')?;
        write_place(out, &history)?;
    }
    Ok(Ok(()))
}

/// What a history gives, and what the host leaves: of a number of records it reads so many, of a start's payload and those of turns it
/// begins with the start and adds the turns until one fails.
pub fn calls(alloc: Global, case: &Case<'_>) -> Result<String, CaseFault> {
    let mut out = String::new(alloc);
    write_history(&mut out, alloc, host_of(alloc, case.item(0)?)?, case)?;
    Ok(out)
}

fn write_history(
    out: &mut String,
    alloc: Global,
    host: MemHost,
    case: &Case<'_>,
) -> Result<(), CaseFault> {
    let mut host = host;
    match case.items() {
        [_, count] => read_all(alloc, &mut host, number_of(count)?, out)?,
        [_, payload, turns] => start_and_add(alloc, &mut host, payload, turns, out)?,
        _ => return Err(CaseFault::NoCase),
    }
    write_left(out, alloc, host)
}

/// Begins a history with the start of a payload, adds the turns of payloads, and writes the fault of what fails.
fn start_and_add(
    alloc: Global,
    host: &mut MemHost,
    payload: &Value,
    turns: &Value,
    out: &mut String,
) -> Result<(), CaseFault> {
    let start = start_of(alloc, &bytes_of(alloc, payload)?)?;
    match write_all(alloc, host, &start, items_of(turns)?, out)? {
        Ok(()) => Ok(()),
        Err(fault) => Ok(write!(out, "{fault}")?),
    }
}
