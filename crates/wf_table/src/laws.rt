//! A law: it does nothing, and its contract is the law.
ghost use Rattle.wf_table.specs.Preorder.{InPreorder};

/// The parts of a program are the nodes of the checker's rules, in the same order.
#[tactic(auto, using(crate::proofs::InOrder::in_preorder))]
pub fn preorder()
    ensures { InPreorder }
{}
