// Layers of names.
ghost use Rattle.std.specs.Prelude.{◌≡◌, ◌<◌, false, pos, true, IfOk, OnErr, OnOk};
ghost use Rattle.wf_frames.specs.Owned.{Around, IsLinked, held_by, held_of, own_of};
ghost use Rattle.wf_frames.specs.Bound.{bindings_of};
ghost use Rattle.wf_frames.specs.Turns.{EntersAll, bound_all, names_of, with_own};
ghost use Rattle.wf_scope.specs.Changes.{Answers};
ghost use Rattle.wf_scope.specs.Layers.{IsInnermost, IsLive, closed};
ghost use Rattle.wf_scope.specs.Store.{layers_of};
ghost use Rattle.wf_scope.specs.declared.fault.AssignFault.TheVariants as faults;
ghost use Rattle.wf_value.specs.Plain.{plain};

use crate::bindings::Bindings;
use crate::frames::Frames;
use wf_name::Name;
use wf_scope::{AssignFault, Chain, Scopes};
use wf_value::{OutOfMemory, Value};

/// A layer of a loop's names begins inside the task's own, and its number is given; none where the variables would pass their limit. The
/// names are the value's and, if there is one, that of the index, which is at most the greatest whole number.
#[inline(always)]
pub fn enter(
    frames: &Frames,
    scopes: &mut Scopes,
    name: &Name,
    value: Value,
    index: &Option<Name>,
    at: u64,
) -> Result<Option<u64>, OutOfMemory>
    ghost around: { Around }
    requires linked { IsLinked around (own_of frames.now) scopes.old }
    requires at { at < 9223372036854775808 }
    ensures entered { IfOk result (λ o. EntersAll false around o
        (held_by around frames.now scopes.old)
        (names_of name.now (plain value) index.now (pos at))
        (held_of around.keys (with_own false o (own_of frames.now)) (layers_of scopes.new))) }
    ensures linked { IfOk result (λ o. IsLinked around (with_own false o (own_of frames.now))
        scopes.new) }
{
    let layer = scopes.inner(frames.layer())?;
    match bind_names(scopes, layer, name, value, index, at) {
        Ok(()) => Ok(Some(layer.number)),
        Err(fault) => {
            refuse(scopes, layer, fault)?;
            Ok(None)
        }
    }
}

/// A layer of a call's parameters begins, from which nothing outside is seen, and its number is given; none where the variables would pass
/// their limit.
pub fn enter_call(
    frames: &Frames,
    scopes: &mut Scopes,
    bindings: Bindings,
) -> Result<Option<u64>, OutOfMemory>
    ghost around: { Around }
    requires { IsLinked around (own_of frames.now) scopes.old }
    ensures entered { IfOk result (λ o. EntersAll true around o
        (held_by around frames.now scopes.old) (bindings_of bindings)
        (held_of around.keys (with_own true o (own_of frames.now)) (layers_of scopes.new))) }
    ensures linked { IfOk result (λ o. IsLinked around (with_own true o (own_of frames.now))
        scopes.new) }
{
    let _ = frames;
    let layer = scopes.root()?;
    match bind_all(scopes, layer, bindings) {
        Ok(()) => Ok(Some(layer.number)),
        Err(fault) => {
            refuse(scopes, layer, fault)?;
            Ok(None)
        }
    }
}

/// Names are bound one after another in a layer.
fn bind_all(scopes: &mut Scopes, layer: Chain, bindings: Bindings) -> Result<(), AssignFault>
    requires live { IsLive layer.number (layers_of scopes.old) }
    requires innermost { IsInnermost layer.number (layers_of scopes.old) }
    ensures outcome { Answers result (layers_of scopes.new) (bound_all scopes.old.limit layer.number
        (bindings_of bindings) (layers_of scopes.old)) }
    ensures rest { OnErr result (closed layer.number (layers_of scopes.new)
        ≡ closed layer.number (layers_of scopes.old)) }
    ensures limit { scopes.new.limit ≡ scopes.old.limit }
    ensures live { IsLive layer.number (layers_of scopes.new) }
    ensures innermost { IsInnermost layer.number (layers_of scopes.new) }
{
    let mut bindings = bindings;
    while let Some(both) = bindings.take_first() {
        let (name, value) = both;
        scopes.bind(layer, &name, value)?;
    }
    Ok(())
}

/// The layer ends again where the variables would pass their limit. No value nests too deep here.
pub(crate) fn refuse(
    scopes: &mut Scopes,
    layer: Chain,
    fault: AssignFault,
) -> Result<(), OutOfMemory>
    requires live { IsLive layer.number (layers_of scopes.old) }
    requires innermost { IsInnermost layer.number (layers_of scopes.old) }
    ensures fault { OnOk result (fault ≡ faults.TooLarge) }
    ensures closed { OnOk result (layers_of scopes.new ≡ closed layer.number (layers_of scopes.old)) }
    ensures limit { scopes.new.limit ≡ scopes.old.limit }
{
    match fault {
        AssignFault::TooLarge => {
            scopes.close(layer);
            Ok(())
        }
        _ => Err(OutOfMemory),
    }
}

/// The names of a loop are bound in a layer.
#[inline(always)]
pub(crate) fn bind_names(
    scopes: &mut Scopes,
    layer: Chain,
    name: &Name,
    value: Value,
    index: &Option<Name>,
    at: u64,
) -> Result<(), AssignFault>
    requires live { IsLive layer.number (layers_of scopes.old) }
    requires innermost { IsInnermost layer.number (layers_of scopes.old) }
    requires at { at < 9223372036854775808 }
    ensures outcome { Answers result (layers_of scopes.new) (bound_all scopes.old.limit layer.number
        (names_of name.now (plain value) index.now (pos at)) (layers_of scopes.old)) }
    ensures rest { OnErr result (closed layer.number (layers_of scopes.new)
        ≡ closed layer.number (layers_of scopes.old)) }
    ensures limit { scopes.new.limit ≡ scopes.old.limit }
    ensures live { IsLive layer.number (layers_of scopes.new) }
    ensures innermost { IsInnermost layer.number (layers_of scopes.new) }
{
    scopes.bind(layer, name, value)?;
    match index {
        Some(index) => scopes.bind(layer, index, Value::Int(at as i64)),
        None => Ok(()),
    }
}
