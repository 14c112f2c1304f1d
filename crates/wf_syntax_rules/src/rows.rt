// Worked examples of the rules.
ghost use Rattle.wf_syntax_rules.specs.Rows.{WorkedFaults};

/// Twenty-six sources, each with its first fault and its place. It does nothing: its contract is the examples.
#[tactic(auto, using(crate::proofs::RowsHold::worked_faults))]
pub fn worked_faults()
    ensures { WorkedFaults }
{}
