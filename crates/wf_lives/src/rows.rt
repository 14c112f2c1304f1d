// Worked examples.
ghost use Rattle.wf_lives.specs.Rows.{WorkedHistories};

/// Five journals, each with the outcome to which its records lead, or the first record that doesn't go on. It does nothing: its
/// contract is the examples, which compute from the bytes of the records and of the source in them.
#[tactic(auto, using(crate::proofs::RowsHold::worked_histories))]
pub fn worked_histories()
    ensures { WorkedHistories }
{}
