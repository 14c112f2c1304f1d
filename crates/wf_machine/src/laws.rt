// Laws of machines. The functions do nothing; their clauses are the laws.
ghost use Rattle.std.specs.Prelude.{◌≡◌, false};
ghost use Rattle.wf_machine.specs.Laws.{AnswersLead, IsSound};
ghost use Rattle.wf_machine.specs.Seen.{state_of};

use crate::machine::Machine;
use wf_model::laws_of_waits;
use wf_never_wrong::laws_of_places;

/// Carries that an answer can come. Until the execution has ended, each answer to an open call can be applied, whatever it says, at each
/// reading that isn't below the last one.
pub fn answers_lead(machine: &Machine)
    requires { (state_of machine.now).broken ≡ false }
    ensures { AnswersLead (state_of machine.now) }
{
    // laws that the proof uses
    laws_of_waits();
    laws_of_places();
    let _ = machine;
}

/// Carries that calls are awaited. Until the execution has ended, an open call is one for whose answer `main` waits, and `main` waits
/// for none but an open call.
pub fn is_sound(machine: &Machine)
    requires { (state_of machine.now).broken ≡ false }
    ensures { IsSound (state_of machine.now) }
{
    let _ = machine;
}
