// The machine of a history: of its first record, and of all of them.
ghost use Rattle.std.specs.Prelude.{◌≡◌, [], ◌∷◌, false, option_map, Some, None, IfOk, IsErrOf};
ghost use Rattle.wf_check.specs.Seen.{program_of};
ghost use Rattle.wf_events.specs.View.{record_view};
ghost use Rattle.wf_history.specs.Stands.{is_closed, last, place, Stands};
ghost use Rattle.wf_host.specs.Calls.{OnlyErrors};
ghost use Rattle.wf_host.specs.World.{Told};
ghost use Rattle.wf_deeds.specs.History.{first_standing};
ghost use Rattle.wf_machine.specs.Seen.{state_of};
ghost use Rattle.wf_replay.specs.Openings.{Accepts};
ghost use Rattle.wf_replay.specs.Promises.{MakesFirst, MakesLast};
ghost use Rattle.wf_replay.specs.Standing.{stands_at};
ghost use Rattle.wf_replay.specs.TheLanguage.{the_language};

use crate::engine_fault::EngineFault;
use crate::replaying::replay;
use std::alloc::Global;
use std::sync::ledger::Ledger;
use wf_check::Checked;
use wf_events::Record;
use wf_history::History;
use wf_host::Host;
use wf_machine::{Machine, Steps};
use wf_source::{SourceFault, each_source_is_one, read_source};
use wf_value::OutOfMemory;

/// The machine to which all records of a history lead. The history is read to its end, and each of its events is a step.
pub fn last_machine<H: Host, L: Ledger>(
    alloc: Global,
    history: &mut History,
    host: &mut H,
    steps: &mut Steps<L>,
) -> Result<Machine, EngineFault>
    requires open { is_closed history.old ≡ false }
    requires first { place history.old ≡ 0 }
    requires none_read { last history.old ≡ None }
    requires kept { Told (H.world host.old) (Stands history.old (H.world host.old)) }
    ensures { MakesLast H.world H.faults history.old history.new host.old host.new steps.old
        steps.new result }
{
    let machine = first_machine(alloc, history, host)?;
    Ok(replay(alloc, history, host, machine, steps)?)
}

/// The machine of a history's first record, which is read.
pub fn first_machine<H: Host>(
    alloc: Global,
    history: &mut History,
    host: &mut H,
) -> Result<Machine, EngineFault>
    requires open { is_closed history.old ≡ false }
    requires first { place history.old ≡ 0 }
    requires none_read { last history.old ≡ None }
    requires kept { Told (H.world host.old) (Stands history.old (H.world host.old)) }
    ensures { MakesFirst H.world H.faults history.old history.new host.old host.new result }
{
    let Some(record) = history.next(alloc, host)? else {
        return Err(EngineFault::NotStarted);
    };
    machine_of(alloc, &record)
}

/// The program of a source, none where it is refused.
fn accepted_program(alloc: Global, source: &[u8]) -> Result<Option<Checked>, OutOfMemory>
    ensures { IfOk result (λ o. Accepts source.now (option_map program_of o)) }
{
    match read_source(alloc, source) {
        Ok(program) => Ok(Some(program)),
        Err(SourceFault::Refused(_)) => Ok(None),
        Err(SourceFault::OutOfMemory) => Err(OutOfMemory),
    }
}

/// The machine of a first record: `NotAHistory` where it is no start whose source is accepted.
fn machine_of(alloc: Global, first: &Record) -> Result<Machine, EngineFault>
    ensures starts { IfOk result (λ m. first_standing the_language (Some (record_view first.now))
        ≡ Some (stands_at 1 None m)) }
    ensures whole { IfOk result (λ m. (state_of m).broken ≡ false) }
    ensures none { IsErrOf result (EngineFault.NotAHistory 0)
        → first_standing the_language (Some (record_view first.now)) ≡ None }
    ensures only { OnlyErrors result ((EngineFault.NotAHistory 0) ∷ EngineFault.OutOfMemory ∷ []) }
{
    // laws that the proof uses
    each_source_is_one();
    let Record::Start(start) = first else {
        return Err(EngineFault::NotAHistory(0));
    };
    let Some(program) = accepted_program(alloc, start.source.as_slice())? else {
        return Err(EngineFault::NotAHistory(0));
    };
    Ok(Machine::new(alloc, start, program)?)
}
