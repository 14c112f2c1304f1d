// The nodes of a flow collection: its items, and the values of its pairs.
ghost use Rattle.std.specs.Prelude.{◌≡◌, ◌+◌, ◌*◌, ◌<◌, ◌==◌, ℕ, true, length, IfOk, Ok};
ghost use Rattle.wf_yaml_line.specs.Fault.{noted};
ghost use Rattle.wf_yaml_line.specs.Marks as marks;
ghost use Rattle.wf_yaml_flow.specs.Flow as flows;
ghost use Rattle.wf_yaml_flow.specs.FlowWalk as walk;
ghost use Rattle.wf_tree.specs.Trees.{null};

use crate::places::{Frame, Place, Spot, Turn};
use crate::signs::{
    behind_colon, behind_property, depth_fault, ends_node, flow_blanks, is_bracket, is_empty,
    is_property, key_fault, property_fault, starts_map,
};
use crate::words::{has_delay, read_word, word_text, word_tree};
use std::alloc::Global;
use wf_tree::Tree;
use wf_value::OutOfMemory;
use wf_yaml_line::{Fault, behind_first, both_noted};

/// Nothing more of the line can be read.
pub(crate) fn stopped<'a>() -> Turn<'a>
    ensures seen { (n d : ℕ) → walk.turned n d result ≡ flows.stopped n }
    ensures less { walk.opened result.frame + walk.ahead result.place ≡ 0 }
{
    Turn {
        fault: None,
        frame: None,
        place: Place::Stopped,
    }
}

/// The turn before which something else was noted.
#[tactic(auto, using(crate::proofs::FlowJoins::noting_turn))]
pub(crate) fn noting_first<'a>(fault: Option<Fault>, turn: Turn<'a>) -> Turn<'a>
    ensures seen { (n d : ℕ) → walk.turned n d result
        ≡ walk.noting (noted fault) (walk.turned n d turn.entry) }
    ensures same { walk.opened result.frame + walk.ahead result.place
        ≡ walk.opened turn.entry.frame + walk.ahead turn.entry.place }
{
    Turn {
        fault: both_noted(fault, turn.fault),
        frame: turn.frame,
        place: turn.place,
    }
}

/// A node's bracket stands here.
fn opens(s: &[char]) -> Turn<'_>
    requires { marks.starts marks.is_bracket s.now ≡ true }
    ensures seen { (n d : ℕ) → walk.turned n d result
        ≡ walk.inner n d (marks.starts (λ b. b == marks.open_map) s.now)
        (marks.behind_first s.now) }
    ensures less { walk.opened result.frame + walk.ahead result.place < 8 * length s.now + 3 }
{
    Turn {
        fault: None,
        frame: None,
        place: Place::Reading(Spot::Open(starts_map(s), behind_first(s))),
    }
}

fn empty_node(s: &[char]) -> Turn<'_>
    ensures seen { (n d : ℕ) → walk.turned n d result ≡ flows.goes (Ok null) s.now }
    ensures less { walk.opened result.frame + walk.ahead result.place ≡ 8 * length s.now + 1 }
{
    Turn {
        fault: None,
        frame: None,
        place: Place::Node(Tree::Null, s),
    }
}

/// A scalar as a node, or the one pair of an item `k: v`.
#[tactic(auto, using(crate::proofs::FlowFronts::word_rest))]
fn item_word(alloc: Global, line: u32, depth: usize, s: &[char]) -> Result<Turn<'_>, OutOfMemory>
    ensures seen { IfOk result (λ t. walk.turned line depth t
        ≡ flows.item_word (λ e is_map r. walk.inner line e is_map r) line depth
        (flows.flow_word s.now)) }
    ensures less { IfOk result (λ t. walk.opened t.frame + walk.ahead t.place
        < 8 * length s.now + 3) }
{
    let Some(word) = read_word(alloc, s)? else {
        return Ok(stopped());
    };
    let Some(behind) = behind_colon(word.quoted, word.rest) else {
        let scalar = word_tree(alloc, false, line, &word)?;
        return Ok(Turn {
            fault: scalar.fault,
            frame: None,
            place: Place::Node(scalar.tree, word.rest),
        });
    };
    let key = word_text(alloc, &word)?;
    let delay = has_delay(&key);
    Ok(Turn {
        fault: both_noted(key_fault(line, word.good), depth_fault(line, depth)),
        frame: Some(Frame::OnePair(key)),
        place: Place::Reading(Spot::Value(delay, behind)),
    })
}

fn item_node(alloc: Global, line: u32, depth: usize, s: &[char]) -> Result<Turn<'_>, OutOfMemory>
    ensures seen { IfOk result (λ t. walk.turned line depth t
        ≡ flows.item_node (λ e is_map r. walk.inner line e is_map r) line depth s.now) }
    ensures less { IfOk result (λ t. walk.opened t.frame + walk.ahead t.place
        < 8 * length s.now + 3) }
{
    if is_bracket(s) {
        return Ok(opens(s));
    }
    item_word(alloc, line, depth, s)
}

/// An item behind an anchor, an alias or a tag, where nothing may follow.
fn item_or_nothing(
    alloc: Global,
    line: u32,
    depth: usize,
    s: &[char],
) -> Result<Turn<'_>, OutOfMemory>
    ensures seen { IfOk result (λ t. walk.turned line depth t
        ≡ walk.item_or_null line depth s.now) }
    ensures less { IfOk result (λ t. walk.opened t.frame + walk.ahead t.place
        < 8 * length s.now + 3) }
{
    if ends_node(s) {
        return Ok(empty_node(s));
    }
    item_node(alloc, line, depth, s)
}

/// An item of a list, where it has this depth.
pub(crate) fn read_item(
    alloc: Global,
    line: u32,
    depth: usize,
    s: &[char],
) -> Result<Turn<'_>, OutOfMemory>
    ensures seen { IfOk result (λ t. walk.turned line depth t
        ≡ flows.flow_item (λ e is_map r. walk.inner line e is_map r) line depth s.now) }
    ensures less { IfOk result (λ t. walk.opened t.frame + walk.ahead t.place
        < 8 * length s.now + 3) }
{
    if !is_property(s) {
        return item_node(alloc, line, depth, s);
    }
    let turn = item_or_nothing(alloc, line, depth, behind_property(s))?;
    Ok(noting_first(property_fault(line, s), turn))
}

/// A scalar as a value, behind which no other `:` may stand.
#[tactic(auto, using(crate::proofs::FlowFronts::word_rest))]
fn value_word(alloc: Global, delay: bool, line: u32, s: &[char]) -> Result<Turn<'_>, OutOfMemory>
    ensures seen { (d : ℕ) → IfOk result (λ t. walk.turned line d t
        ≡ flows.value_word delay line (flows.flow_word s.now)) }
    ensures less { IfOk result (λ t. walk.opened t.frame + walk.ahead t.place
        < 8 * length s.now + 3) }
{
    let Some(word) = read_word(alloc, s)? else {
        return Ok(stopped());
    };
    if behind_colon(word.quoted, word.rest).is_some() {
        return Ok(stopped());
    }
    let scalar = word_tree(alloc, delay, line, &word)?;
    Ok(Turn {
        fault: scalar.fault,
        frame: None,
        place: Place::Node(scalar.tree, word.rest),
    })
}

fn value_node(alloc: Global, delay: bool, line: u32, s: &[char]) -> Result<Turn<'_>, OutOfMemory>
    ensures seen { (d : ℕ) → IfOk result (λ t. walk.turned line d t
        ≡ flows.value_node (λ e is_map r. walk.inner line e is_map r) line d delay s.now) }
    ensures less { IfOk result (λ t. walk.opened t.frame + walk.ahead t.place
        < 8 * length s.now + 3) }
{
    if ends_node(s) {
        Ok(empty_node(s))
    } else if is_bracket(s) {
        Ok(opens(s))
    } else {
        value_word(alloc, delay, line, s)
    }
}

/// A value from behind its `:`.
pub(crate) fn read_value(
    alloc: Global,
    delay: bool,
    line: u32,
    r: &[char],
) -> Result<Turn<'_>, OutOfMemory>
    ensures seen { (d : ℕ) → IfOk result (λ t. walk.turned line d t
        ≡ flows.flow_value (λ e is_map r. walk.inner line e is_map r) line d delay r.now) }
    ensures less { IfOk result (λ t. walk.opened t.frame + walk.ahead t.place
        < 8 * length r.now + 3) }
{
    let s = flow_blanks(r);
    if is_empty(s) {
        return Ok(stopped());
    }
    let turn = value_node(alloc, delay, line, behind_property(s))?;
    Ok(noting_first(property_fault(line, s), turn))
}
