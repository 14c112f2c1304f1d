// The layer of a branch.
ghost use Rattle.std.specs.Prelude.{◌≡◌, ◌<◌, IfOk, option_map, pos};
ghost use Rattle.wf_frames.specs.Forks.{OpensFor};
ghost use Rattle.wf_frames.specs.Turns.{names_of};
ghost use Rattle.wf_scope.specs.Layers.{IsLive};
ghost use Rattle.wf_scope.specs.Store.{layers_of};
ghost use Rattle.wf_value.specs.Plain.{plain};

use crate::entering::{bind_names, refuse};
use wf_name::Name;
use wf_scope::{Chain, Scopes};
use wf_value::{OutOfMemory, Value};

/// A layer of an iteration begins inside this one, with the names of its loop; none where the variables would pass their limit. Other layers
/// may stand inside that one already.
pub fn enter_branch(
    scopes: &mut Scopes,
    outer: Chain,
    name: &Name,
    value: Value,
    index: &Option<Name>,
    at: u64,
) -> Result<Option<Chain>, OutOfMemory>
    requires live { IsLive outer.number (layers_of scopes.old) }
    requires at { at < 9223372036854775808 }
    ensures opens { IfOk result (λ o. OpensFor (option_map (λ c. c.number) o) scopes.old.limit
        outer.number (names_of name.now (plain value) index.now (pos at))
        (layers_of scopes.old) (layers_of scopes.new)) }
    ensures limit { IfOk result (λ o. scopes.new.limit ≡ scopes.old.limit) }
{
    let layer = scopes.inner(outer)?;
    match bind_names(scopes, layer, name, value, index, at) {
        Ok(()) => Ok(Some(layer)),
        Err(fault) => {
            refuse(scopes, layer, fault)?;
            Ok(None)
        }
    }
}
