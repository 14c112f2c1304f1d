//! States that an independent program wrote, as worked rows.
#![tactic(auto)]

ghost use Rattle.wf_states_rows.specs.Rows.{AgreeOnPlaces, AgreeOnSpelling};

/// They are read, and bytes that it calls misspelled aren't; they have their places in the programs of their sources, and those with a
/// place changed haven't.
pub fn worked_states()
    ensures spelling { AgreeOnSpelling }
    ensures places { AgreeOnPlaces }
{}
