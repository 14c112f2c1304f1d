//! States: what is kept of a configuration, as parts with places, and the one spelling of each.
#![tactic(auto)]

mod values;

ghost use Rattle.wf_states.specs.Laws.{OneConfiguration, OneState, ReadsAsSpelled};
ghost use Rattle.wf_states.specs.Rows.{ArmsAreNotTold};

pub use values::state_value;

/// Each state that fits its numbers has one spelling, a spelling is one state's, and a state is one configuration's.
pub fn states_are_read_as_spelled()
    ensures one { OneState }
    ensures read { ReadsAsSpelled }
    ensures configuration { OneConfiguration }
{}

/// A configuration doesn't tell in which of two equal arms a task stands, and its states do.
pub fn arms_are_not_told()
    ensures { ArmsAreNotTold }
{}
