// The layer in which a workflow begins.
ghost use Rattle.std.specs.Prelude.{◌≡◌, ◌∷◌, List, [], false, map, IfOk, OnOk};
ghost use Rattle.wf_ast.specs.View.{param_view};
ghost use Rattle.wf_frames.specs.Frames.{own};
ghost use Rattle.wf_frames.specs.Held.{standing};
ghost use Rattle.wf_frames.specs.Owned.{Around, IsLinked, held_of};
ghost use Rattle.wf_frames.specs.Built.{IsTableOf};
ghost use Rattle.wf_moves.specs.Tasks.{IsFirst, IsFlow, argued, begun, part_params};
ghost use Rattle.wf_model.specs.Spots.{Spot, part_at};
ghost use Rattle.wf_scope.specs.Layers.{IsLive};
ghost use Rattle.wf_scope.specs.Store.{layers_of};
ghost use Rattle.wf_value.specs.Plain.{plain};

use wf_ast::Param;
use wf_model::{Node, NodeKind};
use wf_name::Name;
use wf_scope::{Chain, Scopes};
use wf_value::{OutOfMemory, Value};

/// The parameters of a workflow.
pub(crate) fn params(nodes: &[Node], flow: u32) -> &[Param]
    ghost ns: { List Spot }
    requires tells { IsTableOf ns nodes.now }
    requires start { IsFlow nodes.now flow }
    ensures { map param_view result.now ≡ part_params (part_at ns flow) }
{
    let node = &nodes[flow as usize];
    match &node.kind {
        NodeKind::Flow(flow) => flow.params.items(),
        _ => unreachable!(),
    }
}

/// The first parameter is bound to the argument. Without one the argument is ignored.
fn bind_argument(
    scopes: &mut Scopes,
    layer: Chain,
    params: &[Param],
    argument: Value,
) -> Result<(), OutOfMemory>
    requires { IsLive layer.number (layers_of scopes.old) }
    ensures bound { OnOk result (layers_of scopes.new
        ≡ argued layer.number (map param_view params.now) (plain argument) (layers_of scopes.old)) }
    ensures limit { scopes.new.limit ≡ scopes.old.limit }
{
    match params {
        [] => Ok(()),
        [first, ..] => {
            let name = Name::of(first.name.copy()?);
            match scopes.bind(layer, &name, argument) {
                Ok(()) => Ok(()),
                Err(_) => Err(OutOfMemory),
            }
        }
    }
}

/// The first layer of all, with the argument.
pub(crate) fn first_layer(
    scopes: &mut Scopes,
    params: &[Param],
    argument: Value,
) -> Result<Chain, OutOfMemory>
    ghost around: { Around }
    requires { IsFirst around scopes.old }
    ensures begins { IfOk result (λ c. begun (map param_view params.now) (plain argument)
        ≡ standing [] (held_of around.keys (own c.number false ∷ []) (layers_of scopes.new))) }
    ensures linked { IfOk result (λ c. IsLinked around (own c.number false ∷ []) scopes.new) }
{
    let layer = scopes.root()?;
    bind_argument(scopes, layer, params, argument)?;
    Ok(layer)
}
