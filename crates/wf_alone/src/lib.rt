//! How an execution begins: with `main` as its only task, before its first step, or ended where `main` has no steps.
//!
//! The law is about the definitions of wf_model; the function here does nothing and carries it as its clause. The machine above stands
//! on the lemmas in proofs/.
#![tactic(auto)]

ghost use Rattle.wf_alone.specs.Laws.{EachProgramStarts};

/// Each program starts, whatever its start tells.
pub fn laws_of_main()
    ensures { EachProgramStarts }
{}
