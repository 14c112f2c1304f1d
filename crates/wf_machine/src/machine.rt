// The machine: an execution of a program, as it stands between two events.
ghost use Rattle.std.specs.Prelude.{◌≡◌, ◌≤◌, ◌<◌, true, false, is_some, IfOk};
ghost use Rattle.std.specs.Coded.{→_prop};
ghost use Rattle.wf_branches.specs.Seen.{table_of};
ghost use Rattle.wf_several.specs.Several.{AreAlike};
ghost use Rattle.wf_several.specs.Standing.{AreAlike-prop, IsStanding, IsStanding-prop};
ghost use Rattle.wf_ast.specs.View.{program_view};
ghost use Rattle.wf_check.specs.Seen.{nodes_of, program_of};
ghost use Rattle.wf_machine.specs.Dues.{sooner};
ghost use Rattle.wf_machine.specs.Main.{Aims, Aims-prop, HasStood, config_of, is_lone};
ghost use Rattle.wf_machine.specs.State.{outcome_by, outcome_depth};
ghost use Rattle.wf_machine.specs.declared.ending.Ending.TheVariants.{Running};
ghost use Rattle.wf_frames.specs.Built.{is_table_built};
ghost use Rattle.wf_frames.specs.Kinds.{AreWants, AreWants-prop};
ghost use Rattle.wf_model.specs.Spots.{spots};

use crate::beginning::{Beginning, beginning_of, live_of};
use crate::ending::{Ending, Outcome};
use crate::facts::Facts;
use crate::log::Log;
use std::alloc::Global;
use wf_ast::Program;
use wf_branches::Tasks;
use wf_calls::{Calls, numbers_are_those_of_steps};
use wf_check::Checked;
use wf_events::Start;
use wf_frames::{Target, Wants};
use wf_http_ask::Request;
use wf_model::laws_of_waits;
use wf_moves::Task;
use wf_never_wrong::laws_of_places;
use wf_scope::Scopes;
use wf_together::laws_of_joins;
use wf_value::{OutOfMemory, Severity, Value};

/// What events count: the last reading of the clock, in milliseconds since 1970; the counted events; and the bytes of the bodies of all
/// answers.
#[derive(Clone, Copy)]
pub(crate) struct Tally {
    pub(crate) last: u64,
    pub(crate) moves: u64,
    pub(crate) bodies: u64,
}

/// An execution of a program, as it stands between two events.
///
/// It holds the program with its table, what it was started with, its live tasks with what they have still to do and what they wait for, the layers of
/// their variables, the calls, what was logged, the count of events, the sum of bodies, the last reading, and its outcome. It never counts more than 100,000
/// events and 67,108,864 bytes of bodies, and its outcome nests at most 100 deep.
pub struct Machine {
    pub(crate) alloc: Global,
    pub(crate) program: Checked,
    /// What a call names, at the call's own number, and the workflow of a predicate, at that of its `try`.
    pub(crate) targets: Vec<Target>,
    /// Which event each node wants.
    pub(crate) wants: Vec<Wants>,
    pub(crate) facts: Facts,
    pub(crate) tally: Tally,
    /// The live tasks by rising number, and what they wait for; none once `main` has ended.
    pub(crate) tasks: Tasks,
    /// Their frames, in the same order.
    pub(crate) moving: Vec<Task>,
    pub(crate) scopes: Scopes,
    pub(crate) calls: Calls,
    pub(crate) log: Log,
    pub(crate) ending: Ending,
    pub(crate) broken: bool,
    ghost built: { is_table_built (nodes_of program) ≡ true },
    ghost aims: { Aims (program_of program) (nodes_of program) targets.items } by { Aims-prop _ _ _ },
    ghost wanted: { AreWants (program_of program) (spots (program_of program).flows) (nodes_of program) wants.items } by { AreWants-prop _ _ _ _ },
    ghost alike: { broken ≡ false → AreAlike (program_of program) (table_of tasks).live moving.items } by { →_prop (AreAlike-prop _ _ _) },
    ghost standing: { broken ≡ false → ending ≡ Running → IsStanding (program_of program) (nodes_of program)
        (table_of tasks).live moving.items scopes } by { →_prop (→_prop (IsStanding-prop _ _ _ _ _)) },
    ghost stood: { ∥ (broken ≡ false → ending ≡ Running → HasStood (program_of program)
        (config_of false (program_of program) facts tally (table_of tasks) moving.items scopes calls log ending)) ∥₁ },
    ghost lone: { broken ≡ false → is_lone (table_of tasks).live ≡ true },
    ghost running: { broken ≡ false → ending ≡ Running → tally.moves < 100000 },
    ghost shallow: { outcome_depth (outcome_by ending) ≤ 100 },
    ghost most: { tally.moves ≤ 100000 },
    ghost bounded: { tally.bodies ≤ 67108864 },
}

// Written, and not derived: it is one call wherever a machine is let go.
impl Drop for Machine {
    fn drop(self) {
        let Machine {
            alloc: _,
            program: _,
            targets: _,
            wants: _,
            facts: _,
            tally: _,
            tasks: _,
            moving: _,
            scopes: _,
            calls: _,
            log: _,
            ending: _,
            broken: _,
        } = self;
    }
}

/// The earlier of two moments that may be there.
fn earlier(one: Option<u64>, other: Option<u64>) -> Option<u64>
    ensures { result ≡ sooner one other }
{
    match (one, other) {
        (Some(one), Some(other)) => Some(one.min(other)),
        (Some(one), None) => Some(one),
        (None, other) => other,
    }
}

impl Machine {
    ghost use Rattle.std.specs.Option.{option_copied};
    ghost use Rattle.std.specs.Prelude.{ℕ, ◌↔◌, IfNone, IfSome, IsSome, IsTrue, length, option_map, slice_get};
    ghost use Rattle.wf_calls.specs.NextOpen.{IsNextOpen, NoneOpen, next_open};
    ghost use Rattle.wf_events.specs.View.{start_view};
    ghost use Rattle.wf_http_ask.specs.View.{request_view};
    ghost use Rattle.wf_machine.specs.Lent.{outcome_view};
    ghost use Rattle.wf_machine.specs.Log.{entry_by};
    ghost use Rattle.wf_machine.specs.Outcome.{IsShallow};
    ghost use Rattle.wf_machine.specs.Seen.{state_of};
    ghost use Rattle.wf_model.specs.Config.{Active, TimedOut, To};
    ghost use Rattle.wf_model.specs.Ready.{call as call_of, least_due, quiet, request_of};
    ghost use Rattle.wf_model.specs.Run.{initial};
    ghost use Rattle.wf_value.specs.Data.{depth};
    ghost use Rattle.wf_value.specs.Plain.{plain};

    /// Begins an execution: it stands before the first step of `main`, or has returned null where `main` has no steps. The parameter of
    /// `main`, if it has one, is bound to the start's argument. Nothing is counted yet. Without memory there is no machine.
    pub fn new(alloc: Global, start: &Start, program: Checked) -> Result<Machine, OutOfMemory>
        ensures program { IfOk result (λ m. (state_of m).program ≡ program_of program) }
        ensures initial { IfOk result (λ m. initial (program_of program) (start_view start.now)
            ≡ To (state_of m).config) }
        ensures whole { IfOk result (λ m. (state_of m).broken ≡ false) }
    {
        // laws that the proof uses
        laws_of_places();
        laws_of_waits();
        let begun = beginning_of(alloc, start, &program)?;
        let Beginning {
            targets,
            wants,
            facts,
            task,
            scopes,
        } = begun;
        let live = live_of(alloc, task)?;
        Ok(Machine {
            alloc,
            program,
            targets,
            wants,
            facts,
            tally: Tally {
                last: start.reading,
                moves: 0,
                bodies: 0,
            },
            tasks: live.tasks,
            moving: live.moving,
            scopes,
            calls: Calls::new(alloc),
            log: Log::new(alloc),
            ending: live.ending,
            broken: false,
        })
    }

    /// The program that is executed.
    pub fn program(&self) -> &Program
        ensures { program_view result.now ≡ (state_of self.now).program }
    {
        self.program.program()
    }

    /// Whether no task can go on at the reading, in milliseconds since 1970: the execution has ended, or all wait for what is due later.
    pub fn is_quiet(&self, reading: u64) -> bool
        ensures { result ≡ quiet (state_of self.now).config reading }
    {
        if self.broken {
            return true;
        }
        if self.tasks.ready(0).is_some() {
            return false;
        }
        self.first_due(reading).is_none()
    }

    /// The least moment at which something is due, in milliseconds since 1970: that at which what a task waits for ends.
    pub fn least_due(&self) -> Option<u64>
        ensures due { result ≡ least_due (state_of self.now).config }
        // Where nothing can move something is due.
        ensures waits { (state_of self.now).broken ≡ false
            → (state_of self.now).config.outcome ≡ Active
            → (r : ℕ) → IsTrue (quiet (state_of self.now).config r) → IsSome result }
    {
        // laws that the proof uses
        laws_of_waits();
        laws_of_joins();
        if self.broken {
            return None;
        }
        let mut least = None;
        for place in 0..self.moving.len() {
            least = earlier(least, self.due_of(&self.moving[place]));
        }
        least
    }

    /// The last reading of the clock, in milliseconds since 1970: that of the start, until an event takes another.
    pub fn last_reading(&self) -> u64
        ensures { result ≡ (state_of self.now).config.last }
    {
        self.tally.last
    }

    /// How the execution has ended, if it has. Its value or error nests at most 100 deep.
    pub fn outcome(&self) -> Outcome<'_>
        ensures outcome { outcome_view result ≡ (state_of self.now).config.outcome }
        ensures shallow { IsShallow (state_of self.now).config.outcome }
    {
        match &self.ending {
            Ending::Running => Outcome::Active,
            Ending::Returned(value) => Outcome::Returned(value),
            Ending::Raised(error) => Outcome::Raised(error),
        }
    }

    /// How many events were counted, at most 100,000. The one that is too many counts too.
    pub fn moves(&self) -> u64
        ensures moves { result ≡ (state_of self.now).config.moves }
        ensures most { result ≤ 100000 }
    {
        self.tally.moves
    }

    /// How many calls were made, open and closed. It is the number of the last one.
    pub fn calls(&self) -> u64
        ensures { result ≡ length (state_of self.now).config.calls }
    {
        self.calls.count()
    }

    /// The execution's id, as it was started with it.
    pub fn id(&self) -> &str
        ensures { result.now ≡ (state_of self.now).config.facts.id }
    {
        self.facts.of_step.id.as_str()
    }

    /// The logged value with this index: the last reading when it was logged, in milliseconds since 1970, how grave it is, and the value,
    /// which nests at most 100 deep. None past the last one.
    pub fn log(&self, index: usize) -> Option<(u64, Severity, &Value)>
        ensures entry { option_map (λ e. entry_by e.0 e.1 (plain e.2.now)) result
            ≡ slice_get (state_of self.now).config.log index }
        ensures shallow { IfSome result (λ e. depth (plain e.2.now) ≤ 100) }
    {
        self.log.get(index)
    }

    /// The least number above `after` of an open call; none where there is none.
    pub fn next_open(&self, after: u64) -> Option<u64>
        ensures number { result ≡ next_open (state_of self.now).config.calls after }
        ensures least { IfSome result (IsNextOpen (state_of self.now).config.calls after) }
        ensures none { IfNone result (NoneOpen (state_of self.now).config.calls after) }
    {
        self.calls.next_open(after)
    }

    /// What is sent for a call, while it is open; none where no open call has this number.
    pub fn request(&self, call: u64) -> Option<&Request>
        ensures { option_map request_view (option_copied result)
            ≡ request_of (state_of self.now).config call }
    {
        // laws that the proof uses
        numbers_are_those_of_steps();
        self.calls.request(call)
    }

    /// Whether a call was closed since its due moment came before its answer.
    pub fn has_timed_out(&self, call: u64) -> bool
        ensures { IsTrue result ↔ (call_of (state_of self.now).config call ≡ TimedOut) }
    {
        // laws that the proof uses
        numbers_are_those_of_steps();
        self.calls.has_timed_out(call)
    }
}
