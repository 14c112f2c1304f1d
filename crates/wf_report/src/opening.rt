// Reading a journal for a report.
ghost use Rattle.std.specs.Prelude.{◌≡◌, ◌≢◌, ◌+◌, [], false, ℕ, Err, None, OnOk, IfOk, IfErr, IsErrOf, string_bytes, ◌∷◌};
ghost use Rattle.wf_history.specs.Stands.{ahead, is_closed, is_new, last, place, Stands};
ghost use Rattle.wf_host.specs.Calls.{AtAnyMoment, DiskFailed, DoesNoDeed, NoCountFalls, OnlyErrorsOr, ReadsAsBefore, TellsAsBefore};
ghost use Rattle.wf_host.specs.World.{Told};
ghost use Rattle.wf_journal.specs.Journal.{Stays};
ghost use Rattle.wf_deeds.specs.At.{applied_by};
ghost use Rattle.wf_deeds.specs.History.{history as history_of};
ghost use Rattle.wf_replay.specs.TheLanguage.{the_language};
ghost use Rattle.wf_report.specs.Journals.{Shows};
ghost use Rattle.wf_report.specs.Promises.{ReadsAnEarlierState, ReadsTheLastState};

use crate::showing::show;
use std::alloc::Global;
use std::sync::ledger::Ledger;
use wf_deeds::laws_of_histories;
use wf_history::History;
use wf_host::Host;
use wf_machine::{Machine, Steps};
use wf_replay::{EngineFault, first_machine, last_machine, replay, replay_turns};

/// The machine to which the records of a file lead. Each of their events is applied once, and is a step. Nothing is written.
///
/// The error is `DiskFault` where a disk call failed; `NotAJournal` exactly where the file has at least 5 bytes and another magic;
/// `NotStarted` exactly where it has no record; `NotAHistory` exactly where its records are no history, with the number of the first one
/// against it; or `OutOfMemory`.
pub fn last_state<H: Host, L: Ledger>(
    alloc: Global,
    host: &mut H,
    steps: &mut Steps<L>,
) -> Result<Machine, EngineFault>
    ensures { ReadsTheLastState H.world H.faults steps.old steps.new host.old host.new result }
{
    let mut history = History::open(host)?;
    last_machine(alloc, &mut history, host, steps)
}

/// What an execution had come to after so many of its turns, or after all where there are fewer: the lines of [`show`]. All records are
/// looked at, and each of their events is applied once, and is a step. Nothing is written. The errors are those of [`last_state`].
pub fn state_at<H: Host, L: Ledger>(
    alloc: Global,
    host: &mut H,
    turns: u64,
    steps: &mut Steps<L>,
) -> Result<String, EngineFault>
    ensures { ReadsAnEarlierState H.world H.faults steps.old steps.new host.old host.new turns
        result }
{
    let mut history = History::open(host)?;
    front_state(alloc, &mut history, host, turns, steps)
}

/// The same of a history of which nothing was read yet. It is read to its end.
fn front_state<H: Host, L: Ledger>(
    alloc: Global,
    history: &mut History,
    host: &mut H,
    turns: u64,
    steps: &mut Steps<L>,
) -> Result<String, EngineFault>
    requires open { is_closed history.old ≡ false }
    requires first { place history.old ≡ 0 }
    requires none_read { last history.old ≡ None }
    requires kept { Told (H.world host.old) (Stands history.old (H.world host.old)) }
    ensures stands { Told (H.world host.old) (OnOk result (Stands history.new (H.world host.new))) }
    ensures shows { Told (H.world host.old)
        (IfOk result (λ text. Shows the_language (ahead history.old (H.world host.old).seen) turns
        (string_bytes text))) }
    ensures steps { Told (H.world host.old)
        (OnOk result (steps.new
        ≡ steps.old + applied_by (ahead history.old (H.world host.old).seen))) }
    ensures some { Told (H.world host.old)
        (OnOk result (ahead history.old (H.world host.old).seen ≢ [])) }
    ensures new { is_new history.new ≡ is_new history.old }
    ensures seen { ReadsAsBefore H.world host.old host.new }
    ensures any_moment { AtAnyMoment H.world host.old host.new (Stays (H.world host.old)) }
    ensures disk_fault { IsErrOf result EngineFault.DiskFault
        → DiskFailed H.faults host.old host.new }
    ensures not_started { Told (H.world host.old) (IsErrOf result EngineFault.NotStarted
        → ahead history.old (H.world host.old).seen ≡ []) }
    ensures not_a_history { Told (H.world host.old)
        (IfErr result (λ e. (n : ℕ) → e ≡ EngineFault.NotAHistory n
        → (history_of the_language (ahead history.old (H.world host.old).seen) ≡ Err n)
        × (ahead history.old (H.world host.old).seen ≢ []))) }
    ensures only { OnlyErrorsOr EngineFault.NotAHistory result (EngineFault.DiskFault ∷
        EngineFault.NotStarted ∷ EngineFault.OutOfMemory ∷ []) }
    ensures deeds { DoesNoDeed H.world host.old host.new }
    ensures tells { TellsAsBefore H.world host.old host.new }
    ensures counts { NoCountFalls H.faults host.old host.new }
{
    // laws that the proof uses
    laws_of_histories();
    let machine = first_machine(alloc, history, host)?;
    let stood = replay_turns(alloc, history, host, machine, turns, steps)?;
    let text = show(alloc, stood.id(), &stood)?;
    replay(alloc, history, host, stood, steps)?;
    Ok(text)
}
