//! Worked rows of the language's meaning.
ghost use Rattle.wf_ast.specs.Rows.{WorkedRows};

/// Twenty-one expressions and templates, and what each gives. It does nothing: its contract is the rows.
#[tactic(auto, using(crate::proofs::RowsHold::rows_hold))]
pub fn worked_rows()
    ensures { WorkedRows }
{}
