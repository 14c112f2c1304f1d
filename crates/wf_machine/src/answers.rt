// Answers to calls, and due moments.
ghost use Rattle.std.specs.Prelude.{◌≡◌, ◌≤◌, ℕ, IfSome, IsNone, Option, Some, false};
ghost use Rattle.wf_machine.specs.Applied.{Applied};
ghost use Rattle.wf_machine.specs.Seen.{DuesBy, DuesNot, shown, state_of, wait_by};
ghost use Rattle.wf_model.specs.Ready.{due_of, is_by};
ghost use Rattle.wf_model.specs.Choose.{first_due};
ghost use Rattle.wf_record_parts.specs.View.{reply_view};
ghost use Rattle.wf_value.specs.Events.{Event as AnyEvent};

use crate::events::ApplyFault;
use crate::machine::{Machine, Tally};
use crate::reply::{reply_length, reply_result};
use crate::task::{Cause, Heard};
use wf_calls::{Closed, numbers_are_those_of_steps};
use wf_model::laws_of_waits;
use wf_moves::Task;
use wf_record_parts::Reply;
use wf_value::{Tag, error_map};

/// What the bodies of all answers may come to, in bytes.
const BODY_LIMIT: u64 = 67_108_864;

/// Whether a moment is there, and is at or before the reading.
fn is_by(reading: u64, moment: Option<u64>) -> bool
    ensures { result ≡ is_by reading moment }
{
    match moment {
        Some(moment) => moment <= reading,
        None => false,
    }
}

impl Machine {
    /// The moment at which a task's wait ends: that of its sleep or of its next try, or that of the call for whose answer it waits.
    pub(crate) fn due_of(&self, task: &Task) -> Option<u64>
        ensures { result ≡ due_of (shown self.now) (wait_by self.now task.now) }
    {
        // laws that the proof uses
        numbers_are_those_of_steps();
        match task.call() {
            Some(call) => self.calls.due(call),
            None => task.due(),
        }
    }

    /// The least live task whose wait ends at or before the reading.
    pub(crate) fn first_due(&self, reading: u64) -> Option<u32>
        requires { self.now.broken ≡ false }
        ensures { result ≡ first_due (shown self.now) reading (shown self.now).tasks }
    {
        for place in 0..self.moving.len() {
            if is_by(reading, self.due_of(&self.moving[place])) {
                return Some(self.tasks.number(place));
            }
        }
        None
    }

    /// The place of a task that waits for what is due at or before the reading; none where it isn't live, or waits for nothing that is.
    fn due_place(&self, task: u32, reading: u64) -> Option<usize>
        requires { self.now.broken ≡ false }
        ensures some { IfSome result (λ i. (o : Option ℕ) × DuesBy self.now i task o reading) }
        ensures none { IsNone result → DuesNot self.now task reading }
    {
        if !self.ending.is_running() {
            return None;
        }
        let place = self.tasks.place(task)?;
        if is_by(reading, self.due_of(&self.moving[place])) {
            Some(place)
        } else {
            None
        }
    }

    /// Takes an answer to a call that is open. The call is closed, and `main` goes on with what the answer gives or raises; but where the
    /// answer's body would lift the sum of bodies past the limit, the execution ends, and the call stays open.
    pub(crate) fn apply_answer(
        &mut self,
        call: u64,
        reading: u64,
        reply: &Reply,
    ) -> Result<(), ApplyFault>
        requires { self.old.broken ≡ false }
        ensures { Applied (state_of self.old) (state_of self.new)
            (AnyEvent.Answer call reading (reply_view reply.now)) result }
    {
        // laws that the proof uses
        laws_of_waits();
        numbers_are_those_of_steps();
        if !self.ending.is_running() {
            return Err(ApplyFault::NotEnabled);
        }
        if reading < self.tally.last {
            return Err(ApplyFault::NotEnabled);
        }
        let Some(task) = self.calls.task(call) else {
            return Err(ApplyFault::NotEnabled);
        };
        let Some(place) = self.tasks.place(task) else {
            unreachable!()
        };
        let mut tally = self.tally;
        tally.last = reading;
        let length = reply_length(reply);
        if length > BODY_LIMIT - tally.bodies {
            return self.stop(tally);
        }
        tally.bodies += length;
        let Ok(with) = reply_result(self.alloc, reply) else {
            return self.break_off();
        };
        let heard = Heard {
            call,
            how: Closed::Answered,
            with,
        };
        self.carry_on(place, task, Cause::Heard(heard), 0, tally)
    }

    /// Ends the wait of a task at its due moment, where it is live and that has come: a sleep ends, the body of a `try` is tried again, or
    /// a call is closed, and the task raises a `TimeoutError`.
    pub(crate) fn apply_due(&mut self, task: u32, reading: u64) -> Result<(), ApplyFault>
        requires { self.old.broken ≡ false }
        ensures { Applied (state_of self.old) (state_of self.new) (AnyEvent.Due task reading)
            result }
    {
        if reading < self.tally.last {
            return Err(ApplyFault::NotEnabled);
        }
        let Some(place) = self.due_place(task, reading) else {
            return Err(ApplyFault::NotEnabled);
        };
        let mut tally = self.tally;
        tally.last = reading;
        match self.moving[place].call() {
            None => self.carry_on(place, task, Cause::Due, reading, tally),
            Some(call) => self.time_out(place, task, call, reading, tally),
        }
    }

    /// A call is closed whose due moment has come, and its task raises a `TimeoutError`.
    fn time_out(
        &mut self,
        place: usize,
        task: u32,
        call: u64,
        reading: u64,
        tally: Tally,
    ) -> Result<(), ApplyFault>
        requires whole { self.old.broken ≡ false }
        requires waits { DuesBy self.old place task (Some call) reading }
        requires last { self.old.tally.last ≤ reading }
        requires tally { tally ≡ record self.old.tally { last = reading } }
        ensures { Applied (state_of self.old) (state_of self.new) (AnyEvent.Due task reading)
            result }
    {
        let Ok(error) = error_map(self.alloc, Tag::TimeoutError) else {
            return self.break_off();
        };
        let heard = Heard {
            call,
            how: Closed::TimedOut,
            with: Err(error),
        };
        self.carry_on(place, task, Cause::Heard(heard), reading, tally)
    }
}
