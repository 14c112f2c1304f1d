// Events that are applied.
ghost use Rattle.std.specs.Prelude.{◌≡◌, ◌<◌, ◌≤◌, ◌+◌, true, false, Err, IfNone, IfOk, IfSome, IsErrOf, OnErr, OnOk, Ok, Some, option_map};
ghost use Rattle.wf_events.specs.View.{event_view};
ghost use Rattle.wf_machine.specs.Applied.{Applied};
ghost use Rattle.wf_machine.specs.Promises.{AppliesAnEvent};
ghost use Rattle.wf_machine.specs.Runs.{AppliesMoves, NoMoreMoves};
ghost use Rattle.wf_machine.specs.Seen.{state_of};
ghost use Rattle.wf_model.specs.Choose.{choose};
ghost use Rattle.wf_value.specs.Events.{Move};

use crate::choosing::step_event;
use crate::machine::Machine;
use crate::steps::Steps;
use std::sync::ledger::Ledger;
use wf_events::Event;
use wf_frames::Kind;
use wf_never_wrong::laws_of_places;
use wf_value::OutOfMemory;

/// An event that wasn't applied.
#[derive(Debug, Clone, Copy, PartialEq, Eq)]
pub enum ApplyFault {
    /// The event can't come now: it isn't `main`'s next step, nor an answer to an open call, nor has its due moment come; or its reading
    /// is below the last one, or the execution has ended. The machine stays as it was.
    NotEnabled,
    /// There was no memory. The machine is broken from then on: each later `apply` answers this too, and what it shows is of no use.
    OutOfMemory,
}

impl From<OutOfMemory> for ApplyFault {
    ghost use Rattle.wf_machine.specs.declared.events.ApplyFault.TheVariants.{OutOfMemory};
    ghost use Rattle.std.specs.Prelude.{◌≡◌};

    ghost from_gives = { λ _ e. e ≡ OutOfMemory };

    fn from(_refused: OutOfMemory) -> ApplyFault {
        ApplyFault::OutOfMemory
    }
}

/// Counts an event that was carried out as one step.
fn count<L: Ledger>(did: Result<(), ApplyFault>, steps: &mut Steps<L>) -> Result<(), OutOfMemory>
    requires { ¬ IsErrOf did ApplyFault.NotEnabled }
    ensures done { OnOk result (did ≡ Ok tt) }
    ensures steps { OnOk result (steps.new ≡ steps.old + 1) }
    ensures refused { OnErr result (did ≡ Err ApplyFault.OutOfMemory) }
{
    match did {
        Ok(()) => {
            steps.tick();
            Ok(())
        }
        Err(ApplyFault::OutOfMemory) => Err(OutOfMemory),
        Err(ApplyFault::NotEnabled) => unreachable!(),
    }
}

impl Machine {
    /// Applies the event, if it can come now, and counts it as a step. A move or an issue also counts against the limit: the one with
    /// the number 100,000 ends the execution with a `ResourceLimitError` and isn't carried out. So does an answer whose body would lift
    /// the sum of all bodies past 67,108,864 bytes, and its call stays open. Raising an error of the program is no fault: it is an
    /// outcome.
    ///
    /// It answers `NotEnabled` where the event can't come, and the machine stays as it was. It answers `OutOfMemory` where memory ran
    /// out, now or earlier: the machine is broken then, and can't be used further. Neither is a step.
    pub fn apply<L: Ledger>(
        &mut self,
        event: &Event,
        steps: &mut Steps<L>,
    ) -> Result<(), ApplyFault>
        ensures { AppliesAnEvent (state_of self.old) (state_of self.new) (event_view event.now)
            steps.old steps.new result }
    {
        // laws that the proof uses
        laws_of_places();
        if self.broken {
            return Err(ApplyFault::OutOfMemory);
        }
        match self.carry_out(event) {
            Ok(()) => {
                steps.tick();
                Ok(())
            }
            Err(fault) => Err(fault),
        }
    }

    /// Applies the event that comes next at a reading of the clock, in milliseconds since 1970, as `choose` gives it, and gives it: that is
    /// one step. Where none comes nothing changes. Without memory the machine is broken.
    #[inline(always)]
    pub fn apply_next<L: Ledger>(
        &mut self,
        reading: u64,
        steps: &mut Steps<L>,
    ) -> Result<Option<Event>, OutOfMemory>
        requires { (state_of self.old).broken ≡ false }
        ensures choice { IfOk result (λ e. option_map event_view e
            ≡ choose (state_of self.old).program (state_of self.old).config reading) }
        ensures applied { IfOk result (λ e. IfSome e (λ e. AppliesAnEvent (state_of self.old)
            (state_of self.new) (event_view e) steps.old steps.new (Ok tt))) }
        ensures idle { IfOk result (λ e. IfNone e
            ((state_of self.new ≡ state_of self.old) × (steps.new ≡ steps.old))) }
        ensures broken { OnErr result ((state_of self.new).broken ≡ true) }
    {
        // laws that the proof uses
        laws_of_places();
        if !self.ending.is_running() {
            return Ok(None);
        }
        let last = reading.max(self.tally.last);
        match self.first_due(reading) {
            Some(task) => {
                count(self.apply_due(task, last), steps)?;
                Ok(Some(Event::Due(task, last)))
            }
            None => match self.next_ready() {
                Some(ready) => {
                    count(
                        self.take_step(ready.place, ready.task, ready.kind, last),
                        steps,
                    )?;
                    Ok(Some(step_event(ready.kind, ready.task, last)))
                }
                None => Ok(None),
            },
        }
    }

    /// Applies moves of `main` that read no clock and come next at a reading of the clock, in milliseconds since 1970, one after another, at
    /// most so many, and gives how many it has applied. Each is an event `Move(0)`, and one step. Where they are fewer than that, no such
    /// move comes next while `main` is the only task, or it is the move at which the limit on counted events ends the execution; that one
    /// is left to `apply_next`. Without memory the machine is broken.
    #[inline(always)]
    pub fn apply_moves<L: Ledger>(
        &mut self,
        most: usize,
        reading: u64,
        steps: &mut Steps<L>,
    ) -> Result<usize, OutOfMemory>
        requires { (state_of self.old).broken ≡ false }
        ensures moves { IfOk result (λ count. AppliesMoves (state_of self.old)
            (state_of self.new) reading count steps.old steps.new) }
        ensures most { IfOk result (λ count. count ≤ most) }
        ensures goes_on { IfOk result (λ count. count < most → NoMoreMoves (state_of self.new) reading) }
        ensures broken { OnErr result ((state_of self.new).broken ≡ true) }
    {
        if !self.set_out() {
            return Ok(0);
        }
        let mut count = 0;
        while count < most {
            if !self.is_plain() {
                self.come_back();
                return Ok(count);
            }
            let goes = self.move_on()?;
            steps.tick();
            count += 1;
            if !goes {
                return Ok(count);
            }
        }
        self.come_back();
        Ok(count)
    }

    /// Carries the event out, by its kind.
    fn carry_out(&mut self, event: &Event) -> Result<(), ApplyFault>
        requires { self.old.broken ≡ false }
        ensures { Applied (state_of self.old) (state_of self.new) (event_view event.now) result }
    {
        match event {
            Event::Move(task) => self.apply_step(Kind::Plain, *task, 0),
            Event::MoveAt(task, reading) => self.apply_step(Kind::Clock, *task, *reading),
            Event::Issue(task, reading) => self.apply_step(Kind::Call, *task, *reading),
            Event::Answer(call, reading, reply) => self.apply_answer(*call, *reading, reply),
            Event::Due(task, reading) => self.apply_due(*task, *reading),
            // no branch begins
            Event::Begin(_) => Err(ApplyFault::NotEnabled),
            // and no endpoint takes requests
            Event::Arrive(_, _, _) => Err(ApplyFault::NotEnabled),
        }
    }
}
