// The events of one turn.
ghost use Rattle.std.specs.Prelude.{◌≡◌, ◌≤◌, ◌<◌, ◌+◌, ◌-◌, ◌++◌, List, false, length, Some, IfOk, OnOk};
ghost use Rattle.wf_engine.specs.Taken.{AreTakable, IsTakable, taken_event};
ghost use Rattle.wf_engine.specs.Turn.{AreChosen, IsBrought, IsTurn};
ghost use Rattle.wf_events.specs.Spelling.{IsOld};
ghost use Rattle.wf_events.specs.View.{event_view, events_view};
ghost use Rattle.wf_machine.specs.Seen.{state_of};
ghost use Rattle.wf_model.specs.ReadingLaws.{IsFromInside};
ghost use Rattle.wf_value.specs.Events.{Event as Plain};

use crate::taken::Taken;
use std::alloc::Global;
use std::marker::Brand;
use std::sync::ledger::{Blank, Ledger};
use wf_events::{Event, Events};
use wf_machine::{ApplyFault, Machine, Steps, answers_lead, is_sound};
use wf_model::{laws_of_choice, laws_of_counts, laws_of_readings};
use wf_value::OutOfMemory;

/// A turn has no more events.
const MOST_EVENTS: usize = 4096;

/// Applies what was taken, if anything, and then what the machine chooses at a reading of the clock, in milliseconds since 1970, until
/// nothing can move, there is an outcome, or there are 4,096 events. Gives the events, in order: fewer only where there is an outcome or
/// nothing can move. Nothing but what was taken has to be brought from outside. Each has a spelling, and takes the reading where that isn't
/// below the machine's last one; each that is chosen takes something of what may still come. Without memory the machine isn't to be used
/// further.
pub fn choose_turn(
    alloc: Global,
    machine: &mut Machine,
    reading: u64,
    taken: Option<Taken>,
) -> Result<Events, OutOfMemory>
    requires whole { (state_of machine.old).broken ≡ false }
    requires takable { AreTakable (state_of machine.old).config taken }
    requires last { (state_of machine.old).config.last ≤ reading }
    ensures { IfOk result (λ events. IsTurn (state_of machine.old) (state_of machine.new) reading
        (taken_event reading taken) (events_view events)) }
{
    choose_from_blank::<Brand>(alloc, machine, reading, taken, Blank::new(1))
}

/// The same, counting the events on a ledger of its own.
fn choose_from_blank<L: Ledger>(
    alloc: Global,
    machine: &mut Machine,
    reading: u64,
    taken: Option<Taken>,
    blank: Blank,
) -> Result<Events, OutOfMemory>
    requires whole { (state_of machine.old).broken ≡ false }
    requires takable { AreTakable (state_of machine.old).config taken }
    requires last { (state_of machine.old).config.last ≤ reading }
    requires name { blank.name ≡ L.name }
    requires parts { blank.parts ≡ L.parts }
    requires some { 0 < blank.parts }
    ensures { IfOk result (λ events. IsTurn (state_of machine.old) (state_of machine.new) reading
        (taken_event reading taken) (events_view events)) }
{
    choose_counted(alloc, machine, reading, taken, &mut Steps::<L>::new(blank))
}

/// The same, counting as many events as the turn has.
fn choose_counted<L: Ledger>(
    alloc: Global,
    machine: &mut Machine,
    reading: u64,
    taken: Option<Taken>,
    steps: &mut Steps<L>,
) -> Result<Events, OutOfMemory>
    requires whole { (state_of machine.old).broken ≡ false }
    requires takable { AreTakable (state_of machine.old).config taken }
    requires last { (state_of machine.old).config.last ≤ reading }
    ensures turn { IfOk result (λ events. IsTurn (state_of machine.old) (state_of machine.new)
        reading (taken_event reading taken) (events_view events)) }
    ensures steps { IfOk result (λ events. steps.new ≡ steps.old + length (events_view events)) }
{
    match taken {
        None => choose_rest(machine, reading, Events::new(alloc), steps),
        Some(taken) => choose_behind(alloc, machine, reading, taken, steps),
    }
}

/// The same, where something was taken.
fn choose_behind<L: Ledger>(
    alloc: Global,
    machine: &mut Machine,
    reading: u64,
    taken: Taken,
    steps: &mut Steps<L>,
) -> Result<Events, OutOfMemory>
    requires whole { (state_of machine.old).broken ≡ false }
    requires takable { IsTakable (state_of machine.old).config taken }
    requires last { (state_of machine.old).config.last ≤ reading }
    ensures turn { IfOk result (λ events. IsTurn (state_of machine.old) (state_of machine.new)
        reading (taken_event reading (Some taken)) (events_view events)) }
    ensures steps { IfOk result (λ events. steps.new ≡ steps.old + length (events_view events)) }
{
    // laws that the proof uses
    laws_of_counts();
    is_sound(machine);
    let event = bring(machine, reading, taken, steps)?;
    let mut events = Events::new(alloc);
    events.push(event)?;
    choose_rest(machine, reading, events, steps)
}

/// Applies what was taken, and gives its event.
fn bring<L: Ledger>(
    machine: &mut Machine,
    reading: u64,
    taken: Taken,
    steps: &mut Steps<L>,
) -> Result<Event, OutOfMemory>
    requires whole { (state_of machine.old).broken ≡ false }
    requires takable { IsTakable (state_of machine.old).config taken }
    requires last { (state_of machine.old).config.last ≤ reading }
    ensures brought { IfOk result (λ event. IsBrought (state_of machine.old)
        (state_of machine.new) reading taken (event_view event)) }
    ensures steps { OnOk result (steps.new ≡ steps.old + 1) }
{
    // laws that the proof uses
    answers_lead(machine);
    let event = taken.event(reading);
    match machine.apply(&event, steps) {
        Ok(()) => Ok(event),
        Err(ApplyFault::OutOfMemory) => Err(OutOfMemory),
        Err(ApplyFault::NotEnabled) => unreachable!(),
    }
}

/// Applies what is chosen until nothing can move, there is an outcome, or there are 4,096 events with those that came before, and adds
/// these events behind them.
fn choose_rest<L: Ledger>(
    machine: &mut Machine,
    reading: u64,
    mut events: Events,
    steps: &mut Steps<L>,
) -> Result<Events, OutOfMemory>
    requires whole { (state_of machine.old).broken ≡ false }
    requires room { length (events_view events) ≤ 4096 }
    ensures chosen { IfOk result (λ all. (es : List Plain)
        × (events_view all ≡ events_view events ++ es)
        × AreChosen (4096 - length (events_view events)) (state_of machine.old)
        (state_of machine.new) reading es) }
    ensures steps { IfOk result (λ all. steps.new + length (events_view events)
        ≡ steps.old + length (events_view all)) }
{
    // laws that the proof uses
    laws_of_choice();
    laws_of_counts();
    laws_of_readings();
    is_sound(machine);
    while events.count() < MOST_EVENTS {
        let room = MOST_EVENTS - events.count();
        let moves = machine.apply_moves(room, reading, steps)?;
        if moves > 0 {
            events.push_moves(moves)?;
        } else {
            let Some(event) = machine.apply_next(reading, steps)? else {
                return Ok(events);
            };
            events.push(spelled(event))?;
        }
    }
    Ok(events)
}

/// The same event, whose numbers fit its spelling.
fn spelled(event: Event) -> Event
    requires inside { IsFromInside (event_view event) }
    ensures same { event_view result ≡ event_view event }
    ensures old { IsOld (event_view event) }
{
    match event {
        Event::Move(task) => Event::Move(task),
        Event::MoveAt(task, reading) => Event::MoveAt(task, reading),
        Event::Begin(task) => Event::Begin(task),
        Event::Issue(task, reading) => Event::Issue(task, reading),
        Event::Due(task, reading) => Event::Due(task, reading),
        Event::Answer(..) | Event::Arrive(..) => unreachable!(),
    }
}
