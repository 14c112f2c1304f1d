// The walk over workflows.
ghost use Rattle.std.specs.Prelude.{false, map, IfOk};
ghost use Rattle.wf_ast.specs.Nodes.{flow_around, flow_nodes, nodes};
ghost use Rattle.wf_ast.specs.View.{flow_view};
ghost use Rattle.wf_symbols.specs.Around.{Stands};
ghost use Rattle.wf_symbols.specs.declared.around.Inside.TheVariants.{NoLoop};
ghost use Rattle.wf_check.specs.Walks.{Counts};

use crate::ones::one;
use crate::progress::Progress;
use crate::walk::steps;
use std::alloc::Global;
use wf_ast::Flow;
use wf_diagnostics::{Part, Stop, keyed};
use wf_symbols::{Here, Inside, Names, Scopes, add_step_names, layer_of, param_names};
use wf_value::OutOfMemory;

/// The scopes around the steps of a workflow.
fn scopes_of(alloc: Global, flow: &Flow) -> Result<Scopes, OutOfMemory>
    ensures { IfOk result (λ s. Stands s (record { inside = NoLoop; in_branch = false })
        (flow_around (flow_view flow.now))) }
{
    let mut workflow = Names::new(alloc);
    add_step_names(&mut workflow, &flow.steps)?;
    let binds = param_names(alloc, &flow.params)?;
    let layer = layer_of(alloc, binds, &flow.steps, None)?;
    let blocks = Vec::new(alloc);
    let layers = Vec::new(alloc);
    let mut scopes = Scopes {
        workflow,
        blocks,
        layers,
    };
    scopes.bind(layer)?;
    scopes.open(alloc, &flow.steps, true)?;
    Ok(scopes)
}

/// The nodes of a workflow, from a number on; the number behind them.
fn flow(alloc: Global, flows: &[Flow], number: u64, flow: &Flow) -> Result<u64, Stop>
    ensures { Counts (map flow_view flows.now) number result (flow_nodes (flow_view flow.now)) }
{
    let here = Here {
        inside: Inside::NoLoop,
        in_branch: false,
    };
    let scopes = scopes_of(alloc, flow)?;
    let mut progress = Progress {
        number,
        seen: Names::new(alloc),
        scopes,
    };
    let name = flow.name.as_str();
    let own = one(alloc, flows, &mut progress, here, &Part::Flow(flow));
    match keyed(alloc, name, own) {
        Ok(()) => {}
        Err(stop) => return Err(stop),
    }
    let held = steps(alloc, flows, &mut progress, here, flow.steps.items());
    let held = keyed(alloc, "steps", held);
    match keyed(alloc, name, held) {
        Ok(()) => {}
        Err(stop) => return Err(stop),
    }
    Ok(progress.number)
}

/// The nodes of all workflows.
pub(crate) fn program(alloc: Global, flows: &[Flow]) -> Result<u64, Stop>
    ensures { Counts (map flow_view flows.now) 0 result (nodes (map flow_view flows.now)) }
{
    let mut number = 0;
    'each: for item in flows {
        match flow(alloc, flows, number, item) {
            Ok(next) => number = next,
            Err(stop) => return Err(stop),
        }
    }
    Ok(number)
}
