// Assignments.
ghost use Rattle.std.specs.Prelude.{[], IfOk, map};
ghost use Rattle.wf_frames.specs.Owned.{Around, IsLinked, held_by, own_of};
ghost use Rattle.wf_frames.specs.Turns.{Agrees, Writes};
ghost use Rattle.wf_model.specs.Local.{Scene};
ghost use Rattle.wf_scope.specs.Places.{key_data};
ghost use Rattle.wf_value.specs.Plain.{plain, plain_items};

use crate::frames::Frames;
use crate::places::{fault_of, keys_of};
use std::alloc::Global;
use wf_name::Name;
use wf_scope::{Key, Scopes};
use wf_value::{OutOfMemory, Raise, Tag, Value};

/// A value is assigned to a name, or to the places below it, each of which is a key of a map or an index of a list: where the task sees
/// the name, and else in its innermost layer. It gives the tag of the error where the assignment is refused, and then all stays.
#[inline(always)]
pub fn assign(
    alloc: Global,
    frames: &Frames,
    scopes: &mut Scopes,
    name: &Name,
    places: &[Value],
    value: Value,
) -> Result<Option<Tag>, OutOfMemory>
    ghost around: { Around }
    requires { IsLinked around (own_of frames.now) scopes.old }
    ensures written { IfOk result (λ o. (s : Scene) → Agrees s around
        → Writes s o (held_by around frames.now scopes.old) name.now (plain_items places.now)
        (plain value) (held_by around frames.now scopes.new)) }
    ensures linked { IfOk result (λ o. IsLinked around (own_of frames.now) scopes.new) }
{
    if places.is_empty() {
        return put(frames, scopes, name, &[], value);
    }
    match keys_of(alloc, places)? {
        Some(keys) => put(frames, scopes, name, keys.as_slice(), value),
        None => Ok(Some(fault_of(scopes.look(frames.layer(), name), places))),
    }
}

/// A value is assigned to a name alone.
#[inline(always)]
pub fn assign_name(
    frames: &Frames,
    scopes: &mut Scopes,
    name: &Name,
    value: Value,
) -> Result<Option<Tag>, OutOfMemory>
    ghost around: { Around }
    requires { IsLinked around (own_of frames.now) scopes.old }
    ensures written { IfOk result (λ o. (s : Scene) → Agrees s around
        → Writes s o (held_by around frames.now scopes.old) name.now [] (plain value)
        (held_by around frames.now scopes.new)) }
    ensures linked { IfOk result (λ o. IsLinked around (own_of frames.now) scopes.new) }
{
    put(frames, scopes, name, &[], value)
}

/// The same with keys for places.
#[inline(always)]
fn put(
    frames: &Frames,
    scopes: &mut Scopes,
    name: &Name,
    path: &[Key],
    value: Value,
) -> Result<Option<Tag>, OutOfMemory>
    ghost around: { Around }
    requires { IsLinked around (own_of frames.now) scopes.old }
    ensures written { IfOk result (λ o. (s : Scene) → Agrees s around
        → Writes s o (held_by around frames.now scopes.old) name.now (map key_data path.now)
        (plain value) (held_by around frames.now scopes.new)) }
    ensures linked { IfOk result (λ o. IsLinked around (own_of frames.now) scopes.new) }
{
    match scopes.assign(frames.layer(), name, path, value) {
        Ok(()) => Ok(None),
        Err(fault) => match fault.raise() {
            Raise::Error(tag) => Ok(Some(tag)),
            Raise::OutOfMemory => Err(OutOfMemory),
        },
    }
}
