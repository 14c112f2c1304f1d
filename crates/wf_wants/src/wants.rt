// Which event a node wants.
ghost use Rattle.std.specs.Prelude.{◌≡◌, ◌<◌, ℕ, IfOk, List, length, slice_get};
ghost use Rattle.wf_ast.specs.Flows.{flow};
ghost use Rattle.wf_ast.specs.Tree.{Body, Flow, Program};
ghost use Rattle.wf_frames.specs.Built.{AreTargets, IsTarget, IsTableOf};
ghost use Rattle.wf_frames.specs.Kinds.{AreWants, kind_view};
ghost use Rattle.wf_model.specs.Kinds.{arms_now, body_kind, by_clock, call_kind, entry_now, is_now, over_now, template_now};
ghost use Rattle.wf_model.specs.NodeKinds.{entry_by, over_by};
ghost use Rattle.wf_model.specs.Spots.{Spot, arms_by, entries_by, part_at, part_body, part_condition, part_entry};
ghost use Rattle.wf_model.specs.Table.{AreBelow, ArmsStandIn};
ghost use Rattle.wf_value.specs.Pairs.{Text};

use crate::clock::{is_clock_among, is_clock_in, is_clock_named, is_now};
use std::alloc::Global;
use wf_ast::Postfix;
use wf_frames::{Kind, Target, Wants, first_of};
use wf_model::{EntryNode, Node, NodeKind, OverShape, WorkNode};
use wf_value::OutOfMemory;

/// With a reading, or without.
fn by_clock(clock: bool) -> Kind
    ensures { kind_view result ≡ by_clock clock }
{
    if clock { Kind::Clock } else { Kind::Plain }
}

/// Whether an entry of an assign names the clock: its value, or the places of its target.
fn is_entry_clock(entry: &EntryNode, codes: &[Postfix]) -> bool
    ensures { result ≡ entry_now (entry_by codes.now entry.now) }
{
    is_clock_in(&entry.value, codes) || is_clock_among(first_of(codes, entry.places))
}

/// Whether the entry of this number does.
fn is_entry_at(nodes: &[Node], n: usize) -> bool
    ghost ns: { List Spot }
    requires tells { IsTableOf ns nodes.now }
    requires within { n < length nodes.now }
    ensures { result ≡ entry_now (part_entry (part_at ns n)) }
{
    let node = &nodes[n];
    match &node.kind {
        NodeKind::Entry(entry) => is_entry_clock(entry, node.codes.items()),
        _ => false,
    }
}

/// Whether what a loop goes over does.
fn is_over(over: &OverShape, codes: &[Postfix]) -> bool
    ensures { result ≡ over_now (over_by codes.now over.now) }
{
    match over {
        OverShape::List(shape) => is_clock_in(shape, codes),
        OverShape::Range(first, last) => is_clock_in(first, codes) || is_clock_in(last, codes),
    }
}

/// Whether the condition of this number does.
fn is_condition(nodes: &[Node], n: u32) -> bool
    ghost ns: { List Spot }
    requires tells { IsTableOf ns nodes.now }
    requires within { n < length nodes.now }
    ensures { result ≡ template_now (part_condition (part_at ns n)) }
{
    let node = &nodes[n as usize];
    match &node.kind {
        NodeKind::Arm(condition) => is_clock_in(condition, node.codes.items()),
        _ => false,
    }
}

/// Whether the condition of one of some arms does.
fn are_arms(nodes: &[Node], arms: &[u32]) -> bool
    ghost ns: { List Spot }
    requires tells { IsTableOf ns nodes.now }
    requires arms { (owners : List ℕ) × ArmsStandIn ns (length nodes.now) owners arms.now }
    ensures { result ≡ arms_now (arms_by ns arms.now) }
{
    for arm in arms {
        if is_condition(nodes, *arm) {
            return true;
        }
    }
    false
}

/// Of the first entry of an assign.
fn first_kind(nodes: &[Node], numbers: &[u32]) -> Kind
    ghost ns: { List Spot }
    requires tells { IsTableOf ns nodes.now }
    requires entries { AreBelow (length nodes.now) numbers.now }
    ensures { (p : Program) → kind_view result
        ≡ body_kind p (Body.Assign (entries_by ns numbers.now)) }
{
    match numbers {
        [] => Kind::Plain,
        [first, ..] => by_clock(is_entry_at(nodes, *first as usize)),
    }
}

/// Of the call at a number, where an argument names the clock, or none does.
fn call_kind(targets: &[Target], n: usize, clock: bool) -> Kind
    ensures { (fs : List Flow) (ns : List Spot) (x : Text)
        → IsTarget fs ns (slice_get targets.now n) x
        → kind_view result ≡ call_kind (flow fs x) x clock }
{
    let Some(target) = targets.get(n) else {
        return by_clock(clock);
    };
    match target {
        Target::Flow(_) => by_clock(clock),
        Target::Function(function) => by_clock(is_now(function.func) || clock),
        Target::Http(_) => Kind::Call,
        Target::Sleeps(_) => Kind::Clock,
        Target::Log => by_clock(clock),
    }
}

/// Of the body of a node.
fn node_kind(nodes: &[Node], targets: &[Target], n: usize) -> Kind
    ghost ns: { List Spot }
    requires tells { IsTableOf ns nodes.now }
    requires within { n < length nodes.now }
    ensures { (p : Program) → AreTargets p.flows ns nodes.now targets.now
        → kind_view result ≡ body_kind p (part_body (part_at ns n)) }
{
    let node = &nodes[n];
    let codes = node.codes.items();
    match &node.kind {
        NodeKind::Assign(numbers) => first_kind(nodes, numbers.as_slice()),
        NodeKind::Switch(arms) => by_clock(are_arms(nodes, arms.as_slice())),
        NodeKind::For(body) => by_clock(is_over(&body.over, codes)),
        NodeKind::Raise(shape) => by_clock(is_clock_in(shape, codes)),
        NodeKind::Return(shape) => by_clock(is_clock_in(shape, codes)),
        NodeKind::Call(call) => call_kind(targets, n, is_clock_named(&call.args, codes)),
        NodeKind::Block(_) => Kind::Plain,
        NodeKind::Try(_) => Kind::Plain,
        NodeKind::Parallel(body) => match &body.work {
            WorkNode::Branches(_) => Kind::Plain,
            WorkNode::Loop(repeated) => by_clock(is_over(&repeated.over, codes)),
        },
        _ => Kind::Plain,
    }
}

/// What each node wants, by its number. `targets` has what a call names at the call's own number.
pub fn wants_of(
    alloc: Global,
    nodes: &[Node],
    targets: &[Target],
) -> Result<Vec<Wants>, OutOfMemory>
    ghost ns: { List Spot }
    requires tells { IsTableOf ns nodes.now }
    ensures { IfOk result (λ v. (p : Program) → AreTargets p.flows ns nodes.now targets.now
        → AreWants p ns nodes.now v.items) }
{
    let mut wants = Vec::with_capacity(alloc, nodes.len())?;
    for n in 0..nodes.len() {
        let body = node_kind(nodes, targets, n);
        let entry = by_clock(is_entry_at(nodes, n));
        wants.push(Wants { body, entry })?;
    }
    Ok(wants)
}
