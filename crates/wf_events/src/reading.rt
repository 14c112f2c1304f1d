// From bytes to records.
ghost use Rattle.std.specs.Prelude.{◌≡◌, IfOk, IfErr, Some, map};
ghost use Rattle.wf_events.specs.Faults.{GivesWhole, IsFaultOf, IsUnspelled};
ghost use Rattle.wf_events.specs.Reading.{argument_at, pair_at, route_at, start_at, timed_at, numbered_at, event_at, events_at, turn_at, record_at, whole_at, taken_as, meaning};
ghost use Rattle.wf_events.specs.Spelling.{Spells};
ghost use Rattle.wf_events.specs.View.{route_view, start_view, event_view, events_view, turn_view, record_view};
ghost use Rattle.wf_record_parts.specs.Faults.{ReadsOff};
ghost use Rattle.wf_record_parts.specs.Reading.{list_at, reply_at, visitor_at};
ghost use Rattle.wf_value.specs.Events.{Answer, Arrive};

use crate::argument::is_argument;
use crate::data::{Event, Record, Start, Turn};
use crate::fault::RecordFault;
use crate::runs::Events;
use std::alloc::Global;
use wf_host::{Address, Routes};
use wf_record_parts::{ReadFault, Reader};
use wf_value::{Bytes, Pairs, Text};

#[tactic(auto, unfolding(crate::specs::Reading::argument_at))]
fn argument(reader: &mut Reader<'_>, alloc: Global) -> Result<Bytes, ReadFault>
    ensures { ReadsOff (λ s. s) result reader.new (argument_at reader.old) }
{
    let left = reader.left();
    let text = reader.string()?;
    if !is_argument(alloc, text)? {
        return Err(ReadFault::NoPart(left));
    }
    Ok(Bytes::new(alloc, text)?)
}

#[tactic(auto, unfolding(crate::specs::Reading::route_at))]
fn route(reader: &mut Reader<'_>, alloc: Global) -> Result<(Text, Address), ReadFault>
    ensures { ReadsOff (λ r. route_view r) result reader.new (route_at reader.old) }
{
    let host = reader.text(alloc)?;
    let name = reader.text(alloc)?;
    let port = reader.u16()?;
    Ok((host, Address { name, port }))
}

#[tactic(auto, unfolding(wf_record_parts::specs::Reading::list_at))]
fn routes(reader: &mut Reader<'_>, alloc: Global) -> Result<Routes, ReadFault>
    ensures { ReadsOff (λ rs. map route_view rs) result reader.new (list_at route_at reader.old) }
{
    let count = reader.u32()?;
    let mut routes = Routes::new(alloc);
    for _ in 0..count {
        let (host, to) = route(reader, alloc)?;
        routes.push(host, to)?;
    }
    Ok(routes)
}

#[tactic(auto, unfolding(crate::specs::Reading::pair_at))]
fn pair(reader: &mut Reader<'_>, alloc: Global) -> Result<(Text, Text), ReadFault>
    ensures { ReadsOff (λ p. p) result reader.new (pair_at reader.old) }
{
    let key = reader.text(alloc)?;
    let value = reader.text(alloc)?;
    Ok((key, value))
}

#[tactic(auto, unfolding(wf_record_parts::specs::Reading::list_at))]
fn pairs(reader: &mut Reader<'_>, alloc: Global) -> Result<Pairs, ReadFault>
    ensures { ReadsOff (λ ps. ps) result reader.new (list_at pair_at reader.old) }
{
    let count = reader.u32()?;
    let mut pairs = Pairs::new(alloc);
    for _ in 0..count {
        let (key, value) = pair(reader, alloc)?;
        pairs.push(key, value)?;
    }
    Ok(pairs)
}

#[tactic(auto, unfolding(crate::specs::Reading::start_at))]
fn start(reader: &mut Reader<'_>, alloc: Global) -> Result<Start, ReadFault>
    ensures { ReadsOff start_view result reader.new (start_at reader.old) }
{
    Ok(Start {
        id: reader.text(alloc)?,
        source: reader.bytes(alloc)?,
        argument: argument(reader, alloc)?,
        routes: routes(reader, alloc)?,
        env: pairs(reader, alloc)?,
        base: reader.text(alloc)?,
        reading: reader.u64()?,
    })
}

/// A task and a reading.
#[tactic(auto, unfolding(crate::specs::Reading::timed_at))]
fn timed(reader: &mut Reader<'_>) -> Result<(u32, u64), ReadFault>
    ensures { ReadsOff (λ p. p) result reader.new (timed_at reader.old) }
{
    let task = reader.u32()?;
    let reading = reader.u64()?;
    Ok((task, reading))
}

/// The answer to a call, behind its code.
#[tactic(auto, unfolding(crate::specs::Reading::numbered_at))]
fn answer(reader: &mut Reader<'_>, alloc: Global) -> Result<Event, ReadFault>
    ensures { ReadsOff event_view result reader.new
        (taken_as (λ p. Answer p.0 p.1 p.2) (numbered_at reply_at reader.old)) }
{
    let call = reader.u64()?;
    let reading = reader.u64()?;
    let Ok(reply) = Box::new(alloc, reader.reply(alloc)?) else {
        return Err(ReadFault::OutOfMemory);
    };
    Ok(Event::Answer(call, reading, reply))
}

/// The arrival of a request, behind its code.
#[tactic(auto, unfolding(crate::specs::Reading::numbered_at))]
fn arrival(reader: &mut Reader<'_>, alloc: Global) -> Result<Event, ReadFault>
    ensures { ReadsOff event_view result reader.new
        (taken_as (λ p. Arrive p.0 p.1 p.2) (numbered_at visitor_at reader.old)) }
{
    let endpoint = reader.u64()?;
    let reading = reader.u64()?;
    let Ok(visitor) = Box::new(alloc, reader.visitor(alloc)?) else {
        return Err(ReadFault::OutOfMemory);
    };
    Ok(Event::Arrive(endpoint, reading, visitor))
}

#[tactic(auto, unfolding(crate::specs::Reading::event_at))]
fn event(reader: &mut Reader<'_>, alloc: Global) -> Result<Event, ReadFault>
    ensures { ReadsOff event_view result reader.new (event_at reader.old) }
{
    let left = reader.left();
    match reader.byte()? {
        1 => Ok(Event::Move(reader.u32()?)),
        2 => {
            let (task, reading) = timed(reader)?;
            Ok(Event::MoveAt(task, reading))
        }
        3 => Ok(Event::Begin(reader.u32()?)),
        4 => {
            let (task, reading) = timed(reader)?;
            Ok(Event::Issue(task, reading))
        }
        5 => answer(reader, alloc),
        6 => {
            let (task, reading) = timed(reader)?;
            Ok(Event::Due(task, reading))
        }
        7 => arrival(reader, alloc),
        _ => Err(ReadFault::NoPart(left)),
    }
}

#[tactic(auto, unfolding(crate::specs::Reading::events_at))]
fn events(reader: &mut Reader<'_>, alloc: Global) -> Result<Events, ReadFault>
    ensures { ReadsOff events_view result reader.new (events_at reader.old) }
{
    let left = reader.left();
    let count = reader.u32()?;
    if count == 0 {
        return Err(ReadFault::NoPart(left));
    }
    let mut events = Events::new(alloc);
    for _ in 0..count {
        events.push(event(reader, alloc)?)?;
    }
    Ok(events)
}

#[tactic(auto, unfolding(crate::specs::Reading::turn_at))]
fn turn(reader: &mut Reader<'_>, alloc: Global) -> Result<Turn, ReadFault>
    ensures { ReadsOff turn_view result reader.new (turn_at reader.old) }
{
    Ok(Turn {
        session: reader.u64()?,
        waits: reader.u64()?,
        events: events(reader, alloc)?,
    })
}

#[tactic(auto, unfolding(crate::specs::Reading::record_at))]
fn record(reader: &mut Reader<'_>, alloc: Global) -> Result<Record, ReadFault>
    ensures { ReadsOff record_view result reader.new (record_at reader.old) }
{
    let left = reader.left();
    match reader.byte()? {
        1 => Ok(Record::Start(start(reader, alloc)?)),
        2 => Ok(Record::Turn(turn(reader, alloc)?)),
        _ => Err(ReadFault::NoPart(left)),
    }
}

/// A record, and nothing behind it.
#[tactic(auto, unfolding(crate::specs::Reading::whole_at))]
fn whole(alloc: Global, bytes: &[u8]) -> Result<Record, ReadFault>
    ensures { GivesWhole result (whole_at bytes.now) }
{
    let mut reader = Reader::new(bytes);
    let found = record(&mut reader, alloc)?;
    match reader.left() {
        0 => Ok(found),
        left => Err(ReadFault::NoPart(left)),
    }
}

/// The record that these bytes spell, all of them. By now the first format is read: a start under
/// the first rules, and a turn of any events but a cancelling. `BadRecord` comes exactly where the
/// bytes spell no such record, memory aside; `OutOfMemory` where there is no memory for the record,
/// or to read its argument.
pub fn decode(alloc: Global, bytes: &[u8]) -> Result<Record, RecordFault>
    ensures found { IfOk result (λ r. Spells bytes.now (record_view r)) }
    ensures record { IfOk result (λ r. meaning bytes.now ≡ Some (record_view r)) }
    ensures bad_record { IfErr result (IsFaultOf bytes.now) }
    ensures no_record { IfErr result (IsUnspelled bytes.now) }
{
    match whole(alloc, bytes) {
        Ok(record) => Ok(record),
        Err(ReadFault::OutOfMemory) => Err(RecordFault::OutOfMemory),
        Err(ReadFault::NoPart(left)) => {
            let offset = bytes.len().saturating_sub(left);
            Err(RecordFault::BadRecord(u32::try_from(offset).unwrap_or(u32::MAX)))
        }
    }
}
