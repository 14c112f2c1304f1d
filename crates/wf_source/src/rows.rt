// Worked examples.
ghost use Rattle.wf_source.specs.Rows.{WorkedSources};

/// Nine sources, each with its program or its refusal. It does nothing: its contract is the examples, which compute from the bytes.
#[tactic(auto, using(crate::proofs::RowsHold::worked_sources))]
pub fn worked_sources()
    ensures { WorkedSources }
{}
