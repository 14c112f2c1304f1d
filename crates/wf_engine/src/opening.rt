// What stands in a file before a session goes on from it.
ghost use Rattle.std.specs.Prelude.{◌≡◌, ◌≢◌, ◌⊎◌, ◌≤◌, ◌++◌, [], ◌∷◌, true, false, ℕ, length, take, OnOk, IfOk, IsErrOf};
ghost use Rattle.wf_engine.specs.Engine.{OpeningMoment};
ghost use Rattle.wf_engine.specs.Openings.{ReadsClock};
ghost use Rattle.wf_history.specs.Stands.{at_end, is_closed, Stands};
ghost use Rattle.wf_host.specs.Calls.{AtAnyMoment, DiskFailed, DoesNoDeed, NoCountFalls, OnlyErrors, ReadsAsBefore, TellsAsBefore};
ghost use Rattle.wf_host.specs.World.{Told, Only};
ghost use Rattle.wf_host.specs.declared.data.Deed.TheVariants.{Now};
ghost use Rattle.wf_journal.specs.Journal.{IsJournal};
ghost use Rattle.wf_journal.specs.Records.{magic, records};
ghost use Rattle.wf_machine.specs.Seen.{state_of};
ghost use Rattle.wf_model.specs.Config.{Active};

use std::alloc::Global;
use wf_history::{History, HistoryFault};
use wf_host::Host;
use wf_machine::{Machine, Outcome};
use wf_replay::EngineFault;
use wf_value::OutOfMemory;

/// Opens a history without a record. Nothing is written.
pub(crate) fn empty_history<H: Host>(alloc: Global, host: &mut H) -> Result<History, EngineFault>
    ensures stands { Told (H.world host.old) (IfOk result (λ h. Stands h (H.world host.new))) }
    ensures open { IfOk result (λ h. is_closed h ≡ false) }
    ensures ended { IfOk result (λ h. at_end h ≡ true) }
    ensures none { Told (H.world host.old) (OnOk result (records (H.world host.old).seen ≡ [])) }
    ensures seen { ReadsAsBefore H.world host.old host.new }
    ensures any_moment { AtAnyMoment H.world host.old host.new
        (λ c d. (H.world host.old).may_leave c × (d ≡ (H.world host.old).deeds)) }
    ensures disk_fault { IsErrOf result EngineFault.DiskFault
        → DiskFailed H.faults host.old host.new }
    ensures not_a_journal { Told (H.world host.old) (IsErrOf result EngineFault.NotAJournal
        → (5 ≤ length (H.world host.old).seen) × (take 4 (H.world host.old).seen ≢ magic)) }
    ensures a_journal { Told (H.world host.old) (OnOk result (IsJournal (H.world host.old).seen)) }
    ensures already_started { Told (H.world host.old) (IsErrOf result EngineFault.AlreadyStarted
        → (records (H.world host.old).seen ≢ []) × IsJournal (H.world host.old).seen) }
    ensures settled { Told (H.world host.old) (IsErrOf result EngineFault.AlreadyStarted
        → Only (H.world host.new).seen (H.world host.new).may_leave) }
    ensures only { OnlyErrors result (EngineFault.DiskFault ∷ EngineFault.NotAJournal ∷
        EngineFault.AlreadyStarted ∷ EngineFault.OutOfMemory ∷ []) }
    ensures deeds { DoesNoDeed H.world host.old host.new }
    ensures tells { TellsAsBefore H.world host.old host.new }
    ensures counts { NoCountFalls H.faults host.old host.new }
{
    let mut history = History::open(host)?;
    match history.next(alloc, host) {
        Ok(None) => Ok(history),
        Ok(Some(_)) => Err(EngineFault::AlreadyStarted),
        Err(HistoryFault::BadRecord(_)) => Err(EngineFault::AlreadyStarted),
        Err(fault) => Err(fault.into()),
    }
}

/// The greatest reading of a session that goes on from a machine: the clock is read once where there is no outcome.
pub(crate) fn session_reading<H: Host>(machine: &Machine, host: &mut H) -> Result<u64, OutOfMemory>
    ensures clock { Told (H.world host.old)
        (IfOk result (λ reading. ReadsClock (state_of machine.now).config reading (H.world host.old)
        (H.world host.new))) }
    ensures last { IfOk result (λ reading. (state_of machine.now).config.last ≤ reading) }
    ensures settled { Told (H.world host.old)
        (Only (H.world host.old).seen (H.world host.old).may_leave
        → Only (H.world host.new).seen (H.world host.new).may_leave) }
    ensures seen { ReadsAsBefore H.world host.old host.new }
    ensures any_moment { AtAnyMoment H.world host.old host.new (OpeningMoment (H.world host.old)) }
    ensures deeds { Told (H.world host.old) (((H.world host.new).deeds ≡ (H.world host.old).deeds)
        ⊎ ((t : ℕ) × ((H.world host.new).deeds ≡ (H.world host.old).deeds ++ Now t ∷ []))) }
    ensures finished { (state_of machine.now).config.outcome ≢ Active → host.new ≡ host.old }
    ensures tells { TellsAsBefore H.world host.old host.new }
    ensures counts { NoCountFalls H.faults host.old host.new }
{
    match machine.outcome() {
        Outcome::Active => Ok(host.now()?.max(machine.last_reading())),
        _ => Ok(machine.last_reading()),
    }
}
