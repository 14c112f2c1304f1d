//! Lemmas on std's notions alone, for the proofs of the crates above. No code.
#![tactic(auto)]
