// The engine: an execution over a journal.
ghost use Rattle.std.specs.Prelude.{◌≡◌, ◌<◌, ◌^◌, false};
ghost use Rattle.std.specs.Coded.{→_prop};
ghost use Rattle.wf_engine.specs.Done.{AreDone, AreDone-prop};
ghost use Rattle.wf_engine.specs.Ready.{IsReady, IsReady-prop};
ghost use Rattle.wf_machine.specs.Seen.{state_of};

use crate::choose_turn;
use crate::opening::{empty_history, session_reading};
use crate::taken::Taken;
use std::alloc::Global;
use std::sync::ledger::Ledger;
use wf_check::Checked;
use wf_connections::Connections;
use wf_deeds::{laws_of_histories, laws_of_moments, laws_of_rules, laws_of_steps};
use wf_events::{Start, Turn, one_spelling};
use wf_history::History;
use wf_host::Host;
use wf_machine::{Machine, Outcome, Steps};
use wf_model::{laws_of_calls, laws_of_runs};
use wf_replay::{EngineFault, last_machine};
use wf_source::each_source_is_one;

/// Carries that the numbers of a turn have a spelling.
fn numbers_fit(session: u64, waits: u64)
    ensures session { session < 2 ^ 64 }
    ensures waits { waits < 2 ^ 64 }
{
    let _ = (session, waits);
}

/// An execution over a journal: what stands in the file, the machine that it leads to, and the session that goes on from there.
///
/// Each turn is synced before anything of it is seen outside. After a fault of any call the engine is closed, and what stands in the file
/// can be opened again.
#[derive(Drop)]
pub struct Engine {
    pub(crate) alloc: Global,
    pub(crate) history: History,
    pub(crate) machine: Machine,
    /// The number of the session, from 1 on.
    pub(crate) session: u64,
    /// The session's greatest reading of the clock, in milliseconds since 1970.
    pub(crate) reading: u64,
    /// How often it has polled, or was handed something.
    pub(crate) waits: u64,
    /// The calls that it has started.
    pub(crate) connections: Connections,
    /// The calls up to this number are closed, and none of them has still to be dropped: no wait looks at them again.
    pub(crate) done: u64,
    /// An answer that waits for its turn.
    pub(crate) taken: Option<Taken>,
    pub(crate) closed: bool,
    ghost ready: { closed ≡ false → IsReady history machine reading connections taken } by { →_prop (IsReady-prop _ _ _ _ _) },
    ghost through: { closed ≡ false → AreDone (state_of machine).config connections done } by { →_prop (AreDone-prop _ _ _) },
}

impl Engine {
    ghost use Rattle.std.specs.Prelude.{◌↔◌, ◌≤◌, ◌<◌, true, length, IsTrue};
    ghost use Rattle.wf_check.specs.Seen.{program_of};
    ghost use Rattle.wf_deeds.specs.Memory.{IsSettled};
    ghost use Rattle.wf_engine.specs.Engine.{memory, is_closed, Holds};
    ghost use Rattle.wf_engine.specs.Promises.{BeginsAnExecution, OpensAnExecution, TakesATurn};
    ghost use Rattle.wf_events.specs.Spelling.{record_bytes, HasSpelling};
    ghost use Rattle.wf_events.specs.View.{start_view};
    ghost use Rattle.wf_history.specs.Kinds.{first_record};
    ghost use Rattle.wf_host.specs.World.{Told};
    ghost use Rattle.wf_machine.specs.Seen.{state_of};
    ghost use Rattle.wf_source.specs.Programs.{IsSourceOf};

    /// Begins an execution on a file without a record, with its start, whose source has this program. The start's reading is that of the
    /// session, which is the first.
    ///
    /// The error is `DiskFault` where a disk call failed; `NotAJournal` exactly where the file has at least 5 bytes and another magic, and
    /// `AlreadyStarted` exactly where it has a first record: then nothing was written; or `OutOfMemory`. A fault of the disk leaves no
    /// record, or the start alone.
    pub fn begin<H: Host>(
        alloc: Global,
        host: &mut H,
        start: &Start,
        program: Checked,
    ) -> Result<Engine, EngineFault>
        requires accepted { IsSourceOf (start_view start.now).source (program_of program) }
        requires spelled { HasSpelling (first_record (start_view start.now)) }
        requires short { length (record_bytes (first_record (start_view start.now))) ≤ 16777215 }
        ensures { BeginsAnExecution H.world H.faults (start_view start.now) host.old host.new
            result }
    {
        // laws that the proof uses
        each_source_is_one();
        laws_of_histories();
        laws_of_rules();
        laws_of_runs();
        laws_of_steps();
        one_spelling();
        let machine = Machine::new(alloc, start, program)?;
        let mut history = empty_history(alloc, host)?;
        history.begin(alloc, host, start)?;
        let reading = machine.last_reading();
        let connections = Connections::new(alloc);
        Ok(Engine {
            alloc,
            history,
            machine,
            session: 1,
            reading,
            waits: 0,
            connections,
            done: 0,
            taken: None,
            closed: false,
        })
    }

    /// Goes on from what stands in a file: replays its history, and reads the clock once where that has no outcome. Nothing is written.
    /// Each event of the history is applied once, and is a step.
    ///
    /// The error is `DiskFault` where a disk call failed; `NotAJournal` exactly where the file has at least 5 bytes and another magic;
    /// `NotStarted` exactly where it has no record; `NotAHistory` exactly where its records are no history, with the number of the first
    /// one against it; or `OutOfMemory`.
    pub fn open<H: Host, L: Ledger>(
        alloc: Global,
        host: &mut H,
        steps: &mut Steps<L>,
    ) -> Result<Engine, EngineFault>
        ensures { OpensAnExecution H.world H.faults steps.old steps.new host.old host.new result }
    {
        // laws that the proof uses
        laws_of_moments();
        laws_of_rules();
        laws_of_steps();
        let mut history = History::open(host)?;
        if history.at_end() {
            return Err(EngineFault::NotStarted);
        }
        let machine = last_machine(alloc, &mut history, host, steps)?;
        let (last, _) = history.last().unwrap_or((0, 0));
        let reading = session_reading(&machine, host)?;
        let connections = Connections::new(alloc);
        Ok(Engine {
            alloc,
            history,
            machine,
            session: last.saturating_add(1),
            reading,
            waits: 0,
            connections,
            done: 0,
            taken: None,
            closed: false,
        })
    }

    /// Whether it is settled: nothing that was taken waits for a turn, and nothing can move at the session's reading, or there is an outcome.
    /// A closed engine does nothing more, and counts as settled.
    pub fn is_settled(&self) -> bool
        ensures closed { is_closed self.now ≡ true → result ≡ true }
        ensures settled { is_closed self.now ≡ false
            → IsTrue result ↔ IsSettled (memory self.now) }
    {
        self.closed
            || (self.taken.is_none()
                && (self.machine.is_quiet(self.reading)
                    || !matches!(self.machine.outcome(), Outcome::Active)))
    }

    /// How often the session has polled, or was handed something.
    pub fn waited(&self) -> u64
        ensures { result ≡ (memory self.now).waits }
    {
        self.waits
    }

    /// Applies what was taken, and then what is chosen at the session's reading until nothing can move, there is an outcome, or there are
    /// 4,096 events; and adds the turn, if it has an event.
    ///
    /// The error is `DiskFault` where a disk call failed; `OutOfMemory`; or `Closed` exactly where an earlier call has failed. After an
    /// error the engine is closed, and the file has the records before, or these and the turn.
    pub fn turn<H: Host>(&mut self, host: &mut H) -> Result<(), EngineFault>
        requires kept { is_closed self.old ≡ false
            → Told (H.world host.old) (Holds self.old (H.world host.old)) }
        ensures { TakesATurn H.world H.faults self.old self.new host.old host.new result }
    {
        if self.closed {
            return Err(EngineFault::Closed);
        }
        // laws that the proof uses
        laws_of_calls();
        laws_of_steps();
        one_spelling();
        numbers_fit(self.session, self.waits);
        // until the turn has succeeded
        self.closed = true;
        let taken = self.taken.take();
        let events = choose_turn(self.alloc, &mut self.machine, self.reading, taken)?;
        if events.count() == 0 {
            self.closed = false;
            return Ok(());
        }
        let turn = Turn {
            session: self.session,
            waits: self.waits,
            events,
        };
        self.history.add(self.alloc, host, &turn)?;
        self.closed = false;
        Ok(())
    }

    /// The machine, as it stands behind the last turn. After an error of a call it is of no use.
    pub fn machine(&self) -> &Machine
        ensures program { (state_of result.now).program ≡ (memory self.now).program }
        ensures config { (state_of result.now).config ≡ (memory self.now).config }
        ensures whole { is_closed self.now ≡ false → (state_of result.now).broken ≡ false }
    {
        &self.machine
    }
}
