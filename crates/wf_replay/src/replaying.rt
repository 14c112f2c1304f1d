// Replaying a history.
ghost use Rattle.std.specs.Prelude.{◌≡◌, ◌⊎◌, ◌↔◌, ◌&&◌, ◌<◌, ◌≤◌, ◌+◌, [], true, false, ℕ, suc, length, Some, None, Ok, Err, IfOk, IfErr, OnOk, IsErrOf, ◌∷◌, replicate};
ghost use Rattle.wf_events.specs.View.{events_view, record_view, run_view, turn_view};
ghost use Rattle.wf_history.specs.Stands.{ahead, at_end, is_closed, is_new, last_after, unread, Stands};
ghost use Rattle.wf_host.specs.Calls.{AtAnyMoment, DiskFailed, DoesNoDeed, NoCountFalls, OnlyErrors, ReadsAsBefore, TellsAsBefore};
ghost use Rattle.wf_host.specs.World.{Told};
ghost use Rattle.wf_journal.specs.Journal.{Stays};
ghost use Rattle.wf_machine.specs.Seen.{state_of};
ghost use Rattle.wf_model.specs.Config.{Config, To};
ghost use Rattle.wf_model.specs.Step.{next};
ghost use Rattle.wf_deeds.specs.At.{applied_by, events_of};
ghost use Rattle.wf_deeds.specs.History.{goes_on, goes_on_at, goes_to, is_numbered, told};
ghost use Rattle.wf_replay.specs.Applying.{AppliesEvents};
ghost use Rattle.wf_replay.specs.Promises.{Replays, ReplaysTurns};
ghost use Rattle.wf_replay.specs.Standing.{Passes, session_of, standing, stands_at, waits_of};
ghost use Rattle.wf_replay.specs.TheLanguage.{the_language};
ghost use Rattle.wf_value.specs.Events.{Move};

use crate::ReplayFault;
use std::alloc::Global;
use std::sync::ledger::Ledger;
use wf_events::{Event, Record, Run, Turn};
use wf_history::History;
use wf_host::Host;
use wf_machine::{ApplyFault, Machine, Steps};

/// Applies the turns that a history has left to the machine, which stands where the records that were read so far lead. Then the
/// history is at its end, and the machine stands where all of its records lead. Each event of these turns is applied once, and counts
/// one step.
///
/// `BadEvent` tells the number of the first record that doesn't go on: one that is no turn, a session that is 0 or over the record's
/// number, a session or waits below those of the turn before, or an event that can't come. `DiskFault` comes only where the count of
/// disk faults rose, and closes the history; `Closed` where it was closed before. On each fault the machine is gone. The file isn't
/// written, and nothing is done outside.
pub fn replay<H: Host, L: Ledger>(
    alloc: Global,
    history: &mut History,
    host: &mut H,
    machine: Machine,
    steps: &mut Steps<L>,
) -> Result<Machine, ReplayFault>
    requires whole { (state_of machine).broken ≡ false }
    requires kept { is_closed history.old ≡ false
        → Told (H.world host.old) (Stands history.old (H.world host.old)) }
    ensures { Replays H.world H.faults history.old history.new host.old host.new machine
        steps.old steps.new result }
{
    let mut machine = machine;
    while replay_next(alloc, history, host, &mut machine, steps)? {}
    Ok(machine)
}

/// Applies so many of the turns that a history has left to the machine, which stands where the records that were read so far lead, or all
/// of them where there are fewer. Then the machine stands where the records lead that were read, and the other turns come next. Each event
/// of the turns that were applied counts one step. The faults are those of [`replay`]: a `BadEvent` tells the first of all records left
/// that doesn't go on, as there.
#[tactic(auto, using(crate::proofs::Fronts::all_gone))]
pub fn replay_turns<H: Host, L: Ledger>(
    alloc: Global,
    history: &mut History,
    host: &mut H,
    machine: Machine,
    turns: u64,
    steps: &mut Steps<L>,
) -> Result<Machine, ReplayFault>
    requires whole { (state_of machine).broken ≡ false }
    requires kept { is_closed history.old ≡ false
        → Told (H.world host.old) (Stands history.old (H.world host.old)) }
    ensures { ReplaysTurns H.world H.faults history.old history.new host.old host.new machine
        turns steps.old steps.new result }
{
    if history.is_closed() {
        return Err(ReplayFault::Closed);
    }
    let mut machine = machine;
    let mut left = turns;
    while left > 0 {
        if !replay_next(alloc, history, host, &mut machine, steps)? {
            return Ok(machine);
        }
        left -= 1;
    }
    Ok(machine)
}

/// Applies the next turn, if there is one.
fn replay_next<H: Host, L: Ledger>(
    alloc: Global,
    history: &mut History,
    host: &mut H,
    machine: &mut Machine,
    steps: &mut Steps<L>,
) -> Result<bool, ReplayFault>
    requires whole { (state_of machine.old).broken ≡ false }
    requires kept { is_closed history.old ≡ false
        → Told (H.world host.old) (Stands history.old (H.world host.old)) }
    ensures stands { is_closed history.new ≡ false
        → Told (H.world host.old) (Stands history.new (H.world host.new)) }
    ensures leads { Told (H.world host.old)
        (OnOk result (goes_to the_language (standing history.old machine.old)
        (ahead history.old (H.world host.old).seen)
        ≡ goes_to the_language (standing history.new machine.new)
        (ahead history.new (H.world host.old).seen))) }
    ensures steps { Told (H.world host.old)
        (OnOk result (steps.new + applied_by (ahead history.new (H.world host.old).seen)
        ≡ steps.old + applied_by (ahead history.old (H.world host.old).seen))) }
    ensures last { Told (H.world host.old)
        (IfOk result (λ more. more ≡ false → ahead history.new (H.world host.old).seen ≡ [])) }
    ensures one { Told (H.world host.old)
        (IfOk result (λ more. more ≡ true
        → Passes (standing history.old machine.old) (standing history.new machine.new)
        (ahead history.old (H.world host.old).seen) (ahead history.new (H.world host.old).seen))) }
    ensures none_more { Told (H.world host.old)
        (IfOk result (λ more. more ≡ false → (ahead history.old (H.world host.old).seen ≡ [])
        × (standing history.new machine.new ≡ standing history.old machine.old))) }
    ensures whole { OnOk result ((state_of machine.new).broken ≡ false) }
    ensures ended { IfOk result (λ more. more ≡ false → at_end history.new ≡ true) }
    ensures shorter { IfOk result (λ more. more ≡ true → unread history.new < unread history.old) }
    ensures bad_event { Told (H.world host.old)
        (IfErr result (λ e. (n : ℕ) → e ≡ ReplayFault.BadEvent n
        → goes_to the_language (standing history.old machine.old)
        (ahead history.old (H.world host.old).seen) ≡ Err n)) }
    ensures new { is_new history.new ≡ is_new history.old }
    ensures seen { ReadsAsBefore H.world host.old host.new }
    ensures any_moment { is_closed history.old ≡ false
        → AtAnyMoment H.world host.old host.new (Stays (H.world host.old)) }
    ensures disk_fault { IsErrOf result ReplayFault.DiskFault
        → DiskFailed H.faults host.old host.new }
    ensures closed { IsErrOf result ReplayFault.Closed ↔ (is_closed history.old ≡ true) }
    ensures closes { (is_closed history.new ≡ true)
        ↔ ((is_closed history.old ≡ true) ⊎ IsErrOf result ReplayFault.DiskFault) }
    ensures idle { IsErrOf result ReplayFault.Closed
        → (history.new ≡ history.old) × (host.new ≡ host.old) }
    ensures deeds { DoesNoDeed H.world host.old host.new }
    ensures tells { TellsAsBefore H.world host.old host.new }
    ensures counts { NoCountFalls H.faults host.old host.new }
{
    let number = history.place();
    let last = history.last();
    let Some(record) = history.next(alloc, host)? else {
        return Ok(false);
    };
    replay_record(number, last, &record, machine, steps)?;
    Ok(true)
}

/// Applies the record with this number, if it is a turn that goes on behind the last one.
#[tactic(auto, unfolding(crate::specs::Standing::stands_at))]
fn replay_record<L: Ledger>(
    number: u64,
    last: Option<(u64, u64)>,
    next: &Record,
    machine: &mut Machine,
    steps: &mut Steps<L>,
) -> Result<(), ReplayFault>
    requires whole { (state_of machine.old).broken ≡ false }
    ensures goes_on { OnOk result (goes_on the_language (stands_at number last machine.old)
        (Some (record_view next.now))
        ≡ Some (stands_at (suc number) (last_after last (record_view next.now)) machine.new)) }
    ensures steps { OnOk result (steps.new
        ≡ steps.old + length (events_of (record_view next.now))) }
    ensures whole { OnOk result ((state_of machine.new).broken ≡ false) }
    ensures bad_event { IfErr result (λ e. (n : ℕ) → e ≡ ReplayFault.BadEvent n
        → (goes_on the_language (stands_at number last machine.old)
        (Some (record_view next.now)) ≡ None)
        × (n ≡ told number)) }
    ensures only { OnlyErrors result (ReplayFault.OutOfMemory ∷
        (ReplayFault.BadEvent (told number)) ∷ []) }
{
    let Record::Turn(turn) = next else {
        return Err(bad_event(number));
    };
    if !is_in_place(number, last, turn) {
        return Err(bad_event(number));
    }
    match apply_turn(machine, turn, steps) {
        Ok(()) => Ok(()),
        Err(ApplyFault::NotEnabled) => Err(bad_event(number)),
        Err(ApplyFault::OutOfMemory) => Err(ReplayFault::OutOfMemory),
    }
}

/// Whether a turn with this number is numbered, and doesn't fall behind the last one.
fn is_in_place(number: u64, last: Option<(u64, u64)>, turn: &Turn) -> bool
    ensures { result ≡ (is_numbered number (turn_view turn.now) && goes_on_at (session_of last)
        (waits_of last) (turn_view turn.now)) }
{
    let (session, waits) = last.unwrap_or((0, 0));
    let goes_on = session < turn.session || session == turn.session && waits <= turn.waits;
    1 <= turn.session && turn.session <= number && goes_on
}

/// Applies the events of a turn. It answers `NotEnabled` where one of them can't come: then they lead nowhere.
fn apply_turn<L: Ledger>(
    machine: &mut Machine,
    turn: &Turn,
    steps: &mut Steps<L>,
) -> Result<(), ApplyFault>
    requires whole { (state_of machine.old).broken ≡ false }
    ensures { AppliesEvents (state_of machine.old) (state_of machine.new)
        (events_view turn.now.events) steps.old steps.new result }
{
    let runs = turn.events.runs();
    for run in runs {
        apply_run(machine, run, steps)?;
    }
    Ok(())
}

/// Applies the events of a run, as `apply_turn` does.
fn apply_run<L: Ledger>(
    machine: &mut Machine,
    run: &Run,
    steps: &mut Steps<L>,
) -> Result<(), ApplyFault>
    requires whole { (state_of machine.old).broken ≡ false }
    ensures { AppliesEvents (state_of machine.old) (state_of machine.new) (run_view run.now)
        steps.old steps.new result }
{
    match run {
        Run::Moves(count) => apply_moves(machine, *count, steps),
        Run::One(event) => machine.apply(event, steps),
    }
}

/// Applies so many moves of `main` which read no clock, as `apply_turn` does.
fn apply_moves<L: Ledger>(
    machine: &mut Machine,
    count: usize,
    steps: &mut Steps<L>,
) -> Result<(), ApplyFault>
    requires whole { (state_of machine.old).broken ≡ false }
    ensures { AppliesEvents (state_of machine.old) (state_of machine.new)
        (replicate count (Move 0)) steps.old steps.new result }
{
    let mut left = count;
    while left > 0 {
        let moves = apply_some(machine, left, steps)?;
        left -= moves;
    }
    Ok(())
}

/// Applies one such move or more, but at most so many, and tells how many. It answers `NotEnabled` where none can come.
fn apply_some<L: Ledger>(
    machine: &mut Machine,
    most: usize,
    steps: &mut Steps<L>,
) -> Result<usize, ApplyFault>
    requires whole { (state_of machine.old).broken ≡ false }
    requires some { 0 < most }
    ensures applied { IfOk result (λ n. (0 < n) × (n ≤ most) × AppliesEvents (state_of machine.old)
        (state_of machine.new) (replicate n (Move 0)) steps.old steps.new (Ok tt)) }
    ensures not_enabled { IsErrOf result ApplyFault.NotEnabled → (c : Config)
        → next (state_of machine.old).program (state_of machine.old).config (Move 0) ≡ To c → ⊥ }
{
    let reading = machine.last_reading();
    let Ok(moves) = machine.apply_moves(most, reading, steps) else {
        return Err(ApplyFault::OutOfMemory);
    };
    if moves > 0 {
        return Ok(moves);
    }
    machine.apply(&Event::Move(0), steps)?;
    Ok(1)
}

/// The fault of the record with this number.
fn bad_event(number: u64) -> ReplayFault
    ensures { result ≡ ReplayFault.BadEvent (told number) }
{
    ReplayFault::BadEvent(u32::try_from(number).unwrap_or(u32::MAX))
}
