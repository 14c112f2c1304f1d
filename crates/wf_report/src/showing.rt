// What an execution has come to.
ghost use Rattle.std.specs.Prelude.{◌≡◌, IfOk, string_bytes};
ghost use Rattle.wf_machine.specs.Lent.{outcome_view};
ghost use Rattle.wf_machine.specs.Seen.{state_of};
ghost use Rattle.wf_report.specs.Texts.{shown_as, state_word};

use std::alloc::Global;
use wf_machine::{Machine, Outcome};
use wf_value::OutOfMemory;

/// The word for how an execution has ended, or that it hasn't.
fn state_word(outcome: Outcome<'_>) -> &'static str
    ensures { result.now ≡ state_word (outcome_view outcome.entry) }
{
    match outcome {
        Outcome::Active => "active",
        Outcome::Returned(_) => "succeeded",
        Outcome::Raised(_) => "failed",
    }
}

/// Four lines: the id, whether the execution is active, has succeeded or has failed, how many events were counted, and how many calls were
/// made.
#[tactic(auto, unfolding(crate::specs::Texts::shown_as))]
pub fn show(alloc: Global, id: &str, machine: &Machine) -> Result<String, OutOfMemory>
    ensures { IfOk result (λ text. string_bytes text
        ≡ shown_as id.now (state_of machine.now).config) }
{
    let state = state_word(machine.outcome());
    let moves = machine.moves();
    let calls = machine.calls();
    Ok(format!(in alloc; "id {id}\nstate {state}\nmoves {moves}\ncalls {calls}\n")?)
}
