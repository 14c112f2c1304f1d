//! Laws of the rules.
ghost use Rattle.wf_syntax_rules.specs.Built.{BuiltIsIt};
ghost use Rattle.wf_syntax_rules.specs.First.{FirstFaultIsIt};
ghost use Rattle.wf_syntax_rules.specs.Laws.{FirstIsAFault, NodeIsSound, NotBothBuilt, OneFault, OneProgram, SmallBackoffs};

use wf_expr::{one_target, one_template};

/// A tree is one program at most, and it is not both a program and refused.
pub fn one_program()
    ensures one { OneProgram }
    ensures apart { NotBothBuilt }
{
    one_template();
    one_target();
}

/// The first fault of a tree is a fault of it, and a node has none where neither it nor a part of it has one.
pub fn first_fault_is_a_fault()
    ensures first { FirstIsAFault }
    ensures nodes { NodeIsSound }
{}

/// A tree is refused in one way at most: its first fault is one, at one place.
pub fn one_fault()
    ensures { OneFault }
{}

/// Each tree has no fault or a first one, and the definitions' function gives it.
pub fn first_fault_is_it()
    ensures { FirstFaultIsIt }
{}

/// Each tree is a program or has a first fault, and the definitions' function gives it.
pub fn each_tree_is_one()
    ensures { BuiltIsIt }
{}

/// No number of a backoff in a tree's program is over a year in milliseconds.
pub fn small_backoffs()
    ensures { SmallBackoffs }
{}
