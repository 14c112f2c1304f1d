// The event that comes next.
ghost use Rattle.std.specs.Prelude.{◌≡◌, IfSome, false, option_map};
ghost use Rattle.wf_events.specs.View.{event_view};
ghost use Rattle.wf_machine.specs.declared.ending.Ending.TheVariants.{Running};
ghost use Rattle.wf_model.specs.Choose.{choose, wanted};
ghost use Rattle.wf_model.specs.Config.{Config, To};
ghost use Rattle.wf_model.specs.Step.{next};
ghost use Rattle.wf_frames.specs.Kinds.{kind_view};

use crate::machine::Machine;
use wf_events::Event;
use wf_frames::Kind;
use wf_never_wrong::laws_of_places;

/// The event of a task's step of this kind, at a reading where it takes one.
pub(crate) fn step_event(kind: Kind, task: u32, reading: u64) -> Event
    ensures { event_view result ≡ wanted (kind_view kind) task reading }
{
    match kind {
        Kind::Plain => Event::Move(task),
        Kind::Clock => Event::MoveAt(task, reading),
        Kind::Call => Event::Issue(task, reading),
    }
}

/// A ready task at its place, and the kind of event that its next step wants.
#[derive(Clone, Copy)]
pub(crate) struct Ready {
    pub(crate) place: usize,
    pub(crate) task: u32,
    pub(crate) kind: Kind,
}

impl Machine {
    ghost use Rattle.wf_machine.specs.Ready.{IsChosen};
    ghost use Rattle.wf_machine.specs.Seen.{StepsBy, state_of};

    /// The ready task whose step is chosen among those that are ready; none where none is.
    pub(crate) fn next_ready(&self) -> Option<Ready>
        requires whole { self.now.broken ≡ false }
        requires running { self.now.ending ≡ Running }
        ensures steps { IfSome result (λ n. StepsBy self.now n.place n.task (kind_view n.kind)) }
        ensures chosen { IsChosen (state_of self.now).program (state_of self.now).config result }
    {
        let from = (self.tally.moves % u64::from(self.tasks.made())) as u32;
        let task = self.tasks.ready(from)?;
        let Some(place) = self.tasks.place(task) else {
            unreachable!()
        };
        Some(Ready {
            place,
            task,
            kind: self.kind_at(place),
        })
    }

    /// The event that comes next at a reading of the clock, in milliseconds since 1970. It can be applied, and takes this reading or the
    /// last one, whichever is greater, where it takes one. There is none once the execution has ended, and none while it is quiet at the
    /// reading.
    pub fn choose(&self, reading: u64) -> Option<Event>
        ensures choice { option_map event_view result
            ≡ choose (state_of self.now).program (state_of self.now).config reading }
        ensures enabled { IfSome result (λ e. (d : Config)
            × (next (state_of self.now).program (state_of self.now).config (event_view e) ≡ To d)) }
    {
        // laws that the proof uses
        laws_of_places();
        if self.broken {
            return None;
        }
        if !self.ending.is_running() {
            return None;
        }
        let last = reading.max(self.tally.last);
        match self.first_due(reading) {
            Some(task) => Some(Event::Due(task, last)),
            None => {
                let ready = self.next_ready()?;
                Some(step_event(ready.kind, ready.task, last))
            }
        }
    }
}
