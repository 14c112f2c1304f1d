// What is said of a node.
ghost use Rattle.std.specs.Prelude.{◌<◌, OnOk, map};
ghost use Rattle.wf_ast.specs.Nodes.{node};
ghost use Rattle.wf_ast.specs.View.{flow_view};
ghost use Rattle.wf_diagnostics.specs.Answers.{IsRuleFault};
ghost use Rattle.wf_symbols.specs.Around.{around_view};
ghost use Rattle.wf_symbols.specs.Names.{names_of};
ghost use Rattle.wf_diagnostics.specs.Parts.{part_view};
ghost use Rattle.wf_check.specs.Said.{said};

use crate::progress::Progress;
use std::alloc::Global;
use wf_ast::Flow;
use wf_check_expressions::{bad_argument, not_yet, unknown_call, unknown_name};
use wf_check_scopes::{
    double, empty, out_of_scope, outside_loop, return_in_branch, too_many, undeclared_write,
    unknown_shared, unknown_step,
};
use wf_diagnostics::{Part, Stop};
use wf_symbols::Here;

/// The rule of the lowest number that speaks at a node; a form that isn't built yet comes last.
pub(crate) fn fault(
    alloc: Global,
    flows: &[Flow],
    progress: &Progress,
    here: Here,
    part: &Part,
) -> Result<(), Stop>
    ensures first { IsRuleFault result (λ path. said (map flow_view flows.now) progress.now.number
        (names_of progress.now.seen)
        (node (part_view part.now) (around_view progress.now.scopes here) path)) }
    ensures few { OnOk result (progress.now.number < 1000000) }
{
    let scopes = &progress.scopes;
    empty(alloc, part)?;
    double(alloc, part, &progress.seen)?;
    unknown_step(alloc, part, scopes)?;
    out_of_scope(alloc, part, scopes)?;
    outside_loop(alloc, part, here.inside)?;
    return_in_branch(alloc, part, here.in_branch)?;
    undeclared_write(alloc, part, scopes, here)?;
    unknown_shared(alloc, part, scopes, here)?;
    unknown_name(alloc, part, scopes, here)?;
    unknown_call(alloc, part, flows)?;
    bad_argument(alloc, part, flows)?;
    too_many(alloc, part, progress.number)?;
    not_yet(alloc, part, flows)
}
