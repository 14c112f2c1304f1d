// Assignments.
ghost use Rattle.std.specs.Prelude.{◌≡◌, ◌<◌, [], IfOk, OnOk, length};
ghost use Rattle.wf_frames.specs.Owned.{Around, control_of, held_by};
ghost use Rattle.wf_frames.specs.Stands.{Stands};
ghost use Rattle.wf_model.specs.Layers as layers;
ghost use Rattle.wf_model.specs.Leave as leave;
ghost use Rattle.wf_model.specs.Move as move;
ghost use Rattle.wf_frames.specs.Assigned.{values_of};
ghost use Rattle.wf_frames.specs.Built.{IsTableOf};
ghost use Rattle.wf_moves.specs.Moved.{IsLeft, MovesBy, SeesBy};
ghost use Rattle.wf_model.specs.NodeKinds.{entry_by};
ghost use Rattle.wf_model.specs.Spots.{part_at, part_entry};
ghost use Rattle.wf_value.specs.Plain.{plain};

use crate::finish::{Went, goes};
use crate::raising::{fails, raises_tag};
use std::alloc::Global;
use wf_ast::Postfix;
use wf_frames::{
    Assigned, Facts, Frames, assign as put, assign_name as put_name, evaluate, evaluate_value, seen,
};
use wf_model::{EntryNode, Node, NodeKind};
use wf_name::Name;
use wf_scope::Scopes;
use wf_value::{OutOfMemory, Value};

/// The task goes on behind an assignment to a name alone, or its error goes outward.
#[inline(always)]
pub(crate) fn store_value(
    alloc: Global,
    nodes: &[Node],
    name: &Name,
    value: Value,
    frames: &mut Frames,
    scopes: &mut Scopes,
) -> Result<Went, OutOfMemory>
    ghost around: { Around }
    requires tells { IsTableOf around.spots nodes.now }
    requires stands { Stands around nodes.now frames.old scopes.old }
    ensures moved { IfOk result (λ w. MovesBy around
        (λ s l. leave.on_assigned s (control_of around frames.old) l
        (layers.assign s name.now [] (plain value) l))
        (held_by around frames.old scopes.old) w frames.new scopes.new) }
    ensures stands { OnOk result (Stands around nodes.now frames.new scopes.new) }
    ensures left { IfOk result (λ w. IsLeft nodes.now w frames.new) }
{
    match put_name(frames, scopes, name, value)? {
        None => Ok(goes(frames, nodes, scopes)),
        Some(tag) => raises_tag(alloc, tag),
    }
}

/// The task goes on behind an assignment, or its error goes outward.
#[inline(always)]
fn store(
    alloc: Global,
    nodes: &[Node],
    name: &Name,
    assigned: Assigned,
    frames: &mut Frames,
    scopes: &mut Scopes,
) -> Result<Went, OutOfMemory>
    ghost around: { Around }
    requires tells { IsTableOf around.spots nodes.now }
    requires stands { Stands around nodes.now frames.old scopes.old }
    ensures moved { IfOk result (λ w. MovesBy around
        (λ s l. leave.on_assigned s (control_of around frames.old) l
        (layers.assign s name.now (values_of assigned).1 (values_of assigned).0 l))
        (held_by around frames.old scopes.old) w frames.new scopes.new) }
    ensures stands { OnOk result (Stands around nodes.now frames.new scopes.new) }
    ensures left { IfOk result (λ w. IsLeft nodes.now w frames.new) }
{
    let Assigned { value, places } = assigned;
    match put(alloc, frames, scopes, name, places.as_slice(), value)? {
        None => Ok(goes(frames, nodes, scopes)),
        Some(tag) => raises_tag(alloc, tag),
    }
}

/// The assignment of an entry without places.
#[inline(never)]
fn assign_name(
    alloc: Global,
    nodes: &[Node],
    entry: &EntryNode,
    codes: &[Postfix],
    frames: &mut Frames,
    scopes: &mut Scopes,
    facts: &Facts,
) -> Result<Went, OutOfMemory>
    ghost around: { Around }
    requires tells { IsTableOf around.spots nodes.now }
    requires stands { Stands around nodes.now frames.old scopes.old }
    requires places { entry.now.places ≡ 0 }
    ensures moved { IfOk result (λ w. SeesBy around facts.entry.now
        (λ s l. move.assigns s (entry_by codes.now entry.now) (control_of around frames.old) l)
        (held_by around frames.old scopes.old) w frames.new scopes.new) }
    ensures stands { OnOk result (Stands around nodes.now frames.new scopes.new) }
    ensures left { IfOk result (λ w. IsLeft nodes.now w frames.new) }
{
    let look = seen(frames, scopes, facts);
    match evaluate_value(alloc, entry, codes, &look, facts.now) {
        Ok(value) => store_value(alloc, nodes, &entry.name, value, frames, scopes),
        Err(raise) => fails(alloc, raise),
    }
}

/// The assignment of an entry with places. It stands apart from what nearly every assignment runs.
#[inline(never)]
fn assign_places(
    alloc: Global,
    nodes: &[Node],
    entry: &EntryNode,
    codes: &[Postfix],
    frames: &mut Frames,
    scopes: &mut Scopes,
    facts: &Facts,
) -> Result<Went, OutOfMemory>
    ghost around: { Around }
    requires tells { IsTableOf around.spots nodes.now }
    requires stands { Stands around nodes.now frames.old scopes.old }
    ensures moved { IfOk result (λ w. SeesBy around facts.entry.now
        (λ s l. move.assigns s (entry_by codes.now entry.now) (control_of around frames.old) l)
        (held_by around frames.old scopes.old) w frames.new scopes.new) }
    ensures stands { OnOk result (Stands around nodes.now frames.new scopes.new) }
    ensures left { IfOk result (λ w. IsLeft nodes.now w frames.new) }
{
    let look = seen(frames, scopes, facts);
    match evaluate(alloc, entry, codes, &look, facts.now) {
        Ok(assigned) => store(alloc, nodes, &entry.name, assigned, frames, scopes),
        Err(raise) => fails(alloc, raise),
    }
}

/// The assignment of an entry.
#[inline(always)]
pub(crate) fn assign(
    alloc: Global,
    nodes: &[Node],
    n: u32,
    frames: &mut Frames,
    scopes: &mut Scopes,
    facts: &Facts,
) -> Result<Went, OutOfMemory>
    ghost around: { Around }
    requires tells { IsTableOf around.spots nodes.now }
    requires stands { Stands around nodes.now frames.old scopes.old }
    requires within { n < length nodes.now }
    ensures moved { IfOk result (λ w. SeesBy around facts.entry.now
        (λ s l. move.assigns s (part_entry (part_at around.spots n)) (control_of around frames.old)
        l)
        (held_by around frames.old scopes.old) w frames.new scopes.new) }
    ensures stands { OnOk result (Stands around nodes.now frames.new scopes.new) }
    ensures left { IfOk result (λ w. IsLeft nodes.now w frames.new) }
{
    let node = &nodes[n as usize];
    let NodeKind::Entry(entry) = &node.kind else {
        return Err(OutOfMemory);
    };
    let codes = node.codes.items();
    if entry.places == 0 {
        return assign_name(alloc, nodes, entry, codes, frames, scopes, facts);
    }
    assign_places(alloc, nodes, entry, codes, frames, scopes, facts)
}
