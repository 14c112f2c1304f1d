// Steps that `main` takes.
ghost use Rattle.std.specs.Prelude.{◌≡◌, ◌<◌, ◌≤◌, ℕ, true, false, IfOk, IfSome, IsFalse, IsNone, IsTrue, Ok, OnOk, length};
ghost use Rattle.wf_check.specs.Seen.{program_of};
ghost use Rattle.wf_machine.specs.Applied.{Applied};
ghost use Rattle.wf_frames.specs.Owned.{Around};
ghost use Rattle.wf_machine.specs.Causes.{Comes, Stops, around_at};
ghost use Rattle.wf_machine.specs.Seen.{IsAwakeAt, StepsBy, WantsAt, WantsNot, state_of};
ghost use Rattle.wf_machine.specs.declared.ending.Ending.TheVariants.{Running};
ghost use Rattle.wf_model.specs.Choose.{wanted};
ghost use Rattle.wf_value.specs.Events.{Event as AnyEvent};
ghost use Rattle.wf_frames.specs.Kinds.{kind_view};
ghost use Rattle.wf_together.specs.Steps.{last_by, seen_by};

use crate::ending::{Ending, ending_of};
use crate::events::ApplyFault;
use crate::machine::{Machine, Tally};
use crate::task::{Cause, go_on, kind_of};
use wf_frames::Kind;
use wf_model::laws_of_waits;
use wf_never_wrong::laws_of_places;
use wf_value::{Tag, error_map};

/// The counted event with this number isn't carried out: it ends the execution with a `ResourceLimitError`.
pub(crate) const MOVE_LIMIT: u64 = 100_000;

/// The reading of the clock that a step sees, and the last reading behind it, both in milliseconds since 1970.
#[derive(Clone, Copy)]
struct Readings {
    now: u64,
    last: u64,
}

/// What a step of this kind sees at a reading, where `last` is the last one. One that reads no clock sees 0, which it doesn't look at.
fn readings_of(kind: Kind, reading: u64, last: u64) -> Readings
    ensures now { result.now ≡ seen_by (kind_view kind) reading }
    ensures last { result.last ≡ last_by (kind_view kind) reading last }
{
    match kind {
        Kind::Plain => Readings { now: 0, last },
        Kind::Clock | Kind::Call => Readings {
            now: reading,
            last: reading,
        },
    }
}

impl Machine {
    /// The kind of event that the next step of the task at a place wants, which is awake.
    #[inline(always)]
    pub(crate) fn kind_at(&self, place: usize) -> Kind
        requires whole { self.now.broken ≡ false }
        requires running { self.now.ending ≡ Running }
        requires within { place < length self.now.moving.items }
        requires awake { IsAwakeAt self.now place }
        ensures { WantsAt self.now place (kind_view result) }
    {
        kind_of(&self.program, self.wants.as_slice(), &self.moving[place])
    }

    /// The place of a task whose next step wants an event of this kind; none where it isn't live, waits, or wants another one.
    fn wants(&self, task: u32, kind: Kind) -> Option<usize>
        requires { self.now.broken ≡ false }
        ensures some { IfSome result (λ i. StepsBy self.now i task (kind_view kind)) }
        ensures none { IsNone result → WantsNot self.now task (kind_view kind) }
    {
        if !self.ending.is_running() {
            return None;
        }
        let place = self.tasks.place(task)?;
        if !self.moving[place].is_awake() {
            return None;
        }
        if self.kind_at(place) == kind {
            Some(place)
        } else {
            None
        }
    }

    /// Takes a step of a task, where that is live and wants an event of this kind.
    pub(crate) fn apply_step(
        &mut self,
        kind: Kind,
        task: u32,
        reading: u64,
    ) -> Result<(), ApplyFault>
        requires { self.old.broken ≡ false }
        ensures { Applied (state_of self.old) (state_of self.new)
            (wanted (kind_view kind) task reading) result }
    {
        let readings = readings_of(kind, reading, self.tally.last);
        if readings.last < self.tally.last {
            return Err(ApplyFault::NotEnabled);
        }
        match self.wants(task, kind) {
            Some(place) => self.take_step(place, task, kind, reading),
            None => Err(ApplyFault::NotEnabled),
        }
    }

    /// Takes the next step of the task at a place, which wants an event of this kind. It counts: the one with the number 100,000 isn't
    /// carried out, and ends the execution.
    #[inline(always)]
    pub(crate) fn take_step(
        &mut self,
        place: usize,
        task: u32,
        kind: Kind,
        reading: u64,
    ) -> Result<(), ApplyFault>
        requires whole { self.old.broken ≡ false }
        requires wanted { StepsBy self.old place task (kind_view kind) }
        requires rises { self.old.tally.last
            ≤ last_by (kind_view kind) reading self.old.tally.last }
        ensures { Applied (state_of self.old) (state_of self.new)
            (wanted (kind_view kind) task reading) result }
    {
        let readings = readings_of(kind, reading, self.tally.last);
        let tally = Tally {
            last: readings.last,
            moves: self.tally.moves + 1,
            bodies: self.tally.bodies,
        };
        if tally.moves < MOVE_LIMIT {
            self.carry_on(place, task, Cause::Step, readings.now, tally)
        } else {
            self.stop(tally)
        }
    }

    /// The task at a place goes on for this cause, and the rest stands so behind it. Without memory the machine is broken.
    #[inline(always)]
    pub(crate) fn carry_on(
        &mut self,
        place: usize,
        task: u32,
        cause: Cause,
        now: u64,
        tally: Tally,
    ) -> Result<(), ApplyFault>
        ghost around: { Around }
        requires around { around ≡ around_at self.old place task }
        requires whole { self.old.broken ≡ false }
        requires comes { (e : AnyEvent) × Comes self.old place task cause now tally e }
        requires below { tally.moves < 100000 }
        requires bounded { tally.bodies ≤ 67108864 }
        ensures { (e : AnyEvent) → Comes self.old place task cause now tally e
            → Applied (state_of self.old) (state_of self.new) e result }
    {
        // laws that the proof uses
        laws_of_places();
        laws_of_waits();
        // until it has gone on
        self.broken = true;
        self.facts.of_step.now = now;
        self.facts.of_step.last = tally.last;
        self.facts.of_step.deeper = true;
        self.facts.sending.calls = self.calls.count();
        self.facts.sending.logged = self.log.size();
        let did = go_on(
            &self.program,
            self.targets.as_slice(),
            &self.facts,
            &mut self.moving[place],
            &mut self.scopes,
            &mut self.calls,
            cause,
        )?;
        let ended = ending_of(task, did, tally.last, &mut self.calls, &mut self.log)?;
        self.tally = tally;
        match ended {
            None => {
                let awake = self.moving[place].is_awake();
                self.tasks.mark(task, !awake);
                self.broken = false;
                Ok(())
            }
            Some(ending) => {
                self.tasks.clear();
                self.moving.truncate(0);
                self.ending = ending;
                self.broken = false;
                Ok(())
            }
        }
    }

    /// The end at a limit: nothing of the event is carried out. Without memory the machine is broken.
    pub(crate) fn stop(&mut self, tally: Tally) -> Result<(), ApplyFault>
        requires whole { self.old.broken ≡ false }
        requires comes { (e : AnyEvent) × Stops self.old tally e }
        requires most { tally.moves ≤ 100000 }
        requires bounded { tally.bodies ≤ 67108864 }
        ensures { (e : AnyEvent) → Stops self.old tally e
            → Applied (state_of self.old) (state_of self.new) e result }
    {
        // laws that the proof uses
        laws_of_places();
        laws_of_waits();
        match error_map(self.alloc, Tag::ResourceLimitError) {
            Ok(error) => {
                self.tally = tally;
                self.ending = Ending::Raised(error);
                Ok(())
            }
            Err(_) => self.break_off(),
        }
    }

    /// There was no memory for an event: the machine is broken.
    pub(crate) fn break_off(&mut self) -> Result<(), ApplyFault>
        ensures { (e : AnyEvent) → Applied (state_of self.old) (state_of self.new) e result }
    {
        self.broken = true;
        Err(ApplyFault::OutOfMemory)
    }
}
