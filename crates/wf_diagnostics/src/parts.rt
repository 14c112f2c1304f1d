// What a node is.
ghost use Rattle.std.specs.Prelude.{◌≡◌, option_map};
ghost use Rattle.wf_ast.specs.Blocks as rules;
ghost use Rattle.wf_diagnostics.specs.Parts.{part_view};

use wf_ast::{Arm, Body, Branch, Entry, Flow, Step};
use wf_value::Text;

/// What a node is.
#[derive(Clone, Copy)]
pub enum Part<'a> {
    Flow(&'a Flow),
    Step(&'a Step),
    /// An arm's condition and `next`; its body is the next node.
    Arm(&'a Arm),
    /// The body of an arm, and the call or the steps under a `try`.
    Body(&'a Body),
    Entry(&'a Entry),
    /// With the branches before it.
    Branch(&'a [Branch], &'a Branch),
}

/// Where a node goes on, if it says so.
pub fn next_of<'a>(part: &Part<'a>) -> Option<&'a Text>
    ensures { option_map (λ x. x.now) result ≡ rules.part_next (part_view part.now) }
{
    match part {
        Part::Step(step) => step.next.as_ref(),
        Part::Arm(arm) => arm.next.as_ref(),
        _ => None,
    }
}
