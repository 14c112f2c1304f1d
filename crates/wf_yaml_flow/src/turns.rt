// The turns of the walk at a flow collection's elements.
ghost use Rattle.std.specs.Prelude.{◌≡◌, ◌+◌, ◌*◌, ◌<◌, ◌==◌, ◌||◌, ℕ, List, Option, Ok, false, length, IfOk};
ghost use Rattle.wf_tree.specs.Plain.{plain_tree};
ghost use Rattle.wf_yaml_line.specs.declared.fault.Fault.{Fault};
ghost use Rattle.wf_yaml_line.specs.Fault.{noted};
ghost use Rattle.wf_yaml_line.specs.Marks as marks;
ghost use Rattle.wf_yaml_flow.specs.Flow as flows;
ghost use Rattle.wf_yaml_flow.specs.FlowWalk as walk;
ghost use Rattle.wf_yaml_line.specs.Views.{so_far, keys_of};

use crate::nodes::{noting_first, read_item, read_value, stopped};
use crate::places::{Frame, Hand, MapSoFar, Place, Spot, Turn};
use crate::signs::{
    behind_colon, behind_property, depth_fault, flow_blanks, is_empty, key_fault, property_fault,
    starts_comma,
};
use crate::words::{has_delay, read_word, word_text};
use std::alloc::Global;
use wf_tree::{PairsSoFar, Tree, TreeList};
use wf_value::{OutOfMemory, Text};
use wf_yaml_line::{Fault, KeySet, Kind, behind_first, both_noted, refuse_if};

/// An empty collection.
#[tactic(auto, using(crate::proofs::FlowTurns::no_items, crate::proofs::FlowTurns::no_pairs))]
fn empty_hand(alloc: Global, is_map: bool) -> Result<Hand, OutOfMemory>
    ensures { IfOk result (λ h. (n d : ℕ) (s : List ℕ)
        → walk.from_element n d h s ≡ walk.from_first n d is_map s) }
{
    if is_map {
        Ok(Hand::Pairs(MapSoFar {
            pairs: PairsSoFar::new(alloc)?,
            keys: KeySet::new(alloc)?,
        }))
    } else {
        Ok(Hand::Items(TreeList::new(alloc)?))
    }
}

/// Behind the bracket that opens a collection of this depth.
fn open_collection(
    alloc: Global,
    line: u32,
    depth: usize,
    is_map: bool,
    s: &[char],
) -> Result<Turn<'_>, OutOfMemory>
    ensures seen { IfOk result (λ t. walk.turned line depth t
        ≡ walk.inner line depth is_map s.now) }
    ensures less { IfOk result (λ t. walk.opened t.frame + walk.ahead t.place
        < 8 * length s.now + 7) }
{
    let hand = empty_hand(alloc, is_map)?;
    let rest = flow_blanks(s);
    Ok(Turn {
        fault: depth_fault(line, depth),
        frame: None,
        place: Place::Reading(Spot::Element(hand, rest)),
    })
}

/// The bracket that closes a collection stands here.
fn closes(hand: &Hand, s: &[char]) -> bool
    ensures { result ≡ marks.starts (λ b. b == walk.closing hand.now) s.now }
{
    match s {
        [] => false,
        [c, ..] => match hand {
            Hand::Items(_) => *c == ']',
            Hand::Pairs(_) => *c == '}',
        },
    }
}

/// The tree of a collection whose elements are read.
fn ended_tree(hand: Hand) -> Result<Tree, OutOfMemory>
    ensures { IfOk result (λ t. plain_tree t ≡ walk.ended hand) }
{
    match hand {
        Hand::Items(items) => Ok(Tree::List(items)),
        Hand::Pairs(map) => Ok(Tree::Map(map.pairs.into_map()?)),
    }
}

/// Behind the bracket that closes a collection.
fn finished(hand: Hand, rest: &[char]) -> Result<Turn<'_>, OutOfMemory>
    ensures seen { (n d : ℕ) → IfOk result (λ t. walk.turned n d t
        ≡ flows.goes (Ok (walk.ended hand)) rest.now) }
    ensures less { IfOk result (λ t. walk.opened t.frame + walk.ahead t.place
        ≡ 8 * length rest.now + 1) }
{
    let tree = ended_tree(hand)?;
    Ok(Turn {
        fault: None,
        frame: None,
        place: Place::Node(tree, rest),
    })
}

/// The keys, and another one.
fn with_key(keys: KeySet, key: &Text) -> Result<KeySet, OutOfMemory>
    ensures { IfOk result (λ new. (k : List ℕ)
        → marks.is_one_of (keys_of new) k
        ≡ (marks.is_same key.now k || marks.is_one_of (keys_of keys) k)) }
{
    let mut keys = keys;
    let copy = key.copy()?;
    keys.add(copy)?;
    Ok(keys)
}

/// A pair of a map up to its `:`.
#[tactic(auto, using(crate::proofs::FlowFronts::word_rest))]
fn read_pair(alloc: Global, line: u32, map: MapSoFar, s: &[char]) -> Result<Turn<'_>, OutOfMemory>
    ensures seen { (d : ℕ) → IfOk result (λ t. walk.turned line d t
        ≡ walk.from_pair line d map (flows.flow_word s.now)) }
    ensures less { IfOk result (λ t. walk.opened t.frame + walk.ahead t.place
        < 8 * length s.now + 6) }
{
    let Some(word) = read_word(alloc, s)? else {
        return Ok(stopped());
    };
    let Some(behind) = behind_colon(word.quoted, word.rest) else {
        return Ok(stopped());
    };
    let key = word_text(alloc, &word)?;
    let is_double = map.keys.holds(key.as_str());
    let delay = has_delay(&key);
    let keys = with_key(map.keys, &key)?;
    Ok(Turn {
        fault: both_noted(
            key_fault(line, word.good),
            refuse_if(is_double, line, Kind::DoubleKey),
        ),
        frame: Some(Frame::Value(
            MapSoFar {
                pairs: map.pairs,
                keys,
            },
            key,
        )),
        place: Place::Reading(Spot::Value(delay, behind)),
    })
}

/// Before an element of a collection, which doesn't close here.
fn read_element(alloc: Global, line: u32, hand: Hand, s: &[char]) -> Result<Turn<'_>, OutOfMemory>
    requires { (marks.is_empty s.now ≡ false)
        × (marks.starts (λ b. b == walk.closing hand) s.now ≡ false) }
    ensures seen { (d : ℕ) → IfOk result (λ t. walk.turned line d t
        ≡ walk.from_element line d hand s.now) }
    ensures less { IfOk result (λ t. walk.opened t.frame + walk.ahead t.place
        < 8 * length s.now + 6) }
{
    match hand {
        Hand::Items(items) => Ok(Turn {
            fault: None,
            frame: Some(Frame::Item(items)),
            place: Place::Reading(Spot::Item(s)),
        }),
        Hand::Pairs(map) => {
            let turn = read_pair(alloc, line, map, behind_property(s))?;
            Ok(noting_first(property_fault(line, s), turn))
        }
    }
}

/// Before an element of a collection, or its end.
fn at_element(alloc: Global, line: u32, hand: Hand, s: &[char]) -> Result<Turn<'_>, OutOfMemory>
    ensures seen { (d : ℕ) → IfOk result (λ t. walk.turned line d t
        ≡ walk.from_element line d hand s.now) }
    ensures less { IfOk result (λ t. walk.opened t.frame + walk.ahead t.place
        < 8 * length s.now + 6) }
{
    if is_empty(s) {
        return Ok(stopped());
    }
    if closes(&hand, s) {
        return finished(hand, behind_first(s));
    }
    read_element(alloc, line, hand, s)
}

/// Behind an element of a collection: a comma and more, or the end.
fn behind_element(hand: Hand, r: &[char]) -> Result<Turn<'_>, OutOfMemory>
    ensures seen { (n d : ℕ) → IfOk result (λ t. walk.turned n d t
        ≡ walk.behind_one n d hand r.now) }
    ensures less { IfOk result (λ t. walk.opened t.frame + walk.ahead t.place
        < 8 * length r.now + 2) }
{
    let s = flow_blanks(r);
    if starts_comma(s) {
        let more = flow_blanks(behind_first(s));
        return Ok(Turn {
            fault: None,
            frame: None,
            place: Place::Reading(Spot::Element(hand, more)),
        });
    }
    if closes(&hand, s) {
        return finished(hand, behind_first(s));
    }
    Ok(stopped())
}

/// One turn of the walk, where a node has this depth.
pub(crate) fn turn<'a>(
    alloc: Global,
    line: u32,
    depth: usize,
    spot: Spot<'a>,
) -> Result<Turn<'a>, OutOfMemory>
    ensures seen { IfOk result (λ t. walk.turned line depth t ≡ walk.next line depth spot.entry) }
    ensures less { IfOk result (λ t. walk.opened t.frame + walk.ahead t.place
        < walk.left spot.entry) }
{
    match spot {
        Spot::Open(is_map, s) => open_collection(alloc, line, depth, is_map, s),
        Spot::Element(hand, s) => at_element(alloc, line, hand, s),
        Spot::Item(s) => read_item(alloc, line, depth, s),
        Spot::Value(delay, s) => read_value(alloc, delay, line, s),
        Spot::Behind(hand, s) => behind_element(hand, s),
    }
}

/// A node becomes a part of what is open.
#[tactic(auto, using(crate::proofs::FlowJoins::put_item, crate::proofs::FlowJoins::put_value, crate::proofs::FlowJoins::put_one_pair))]
pub(crate) fn put<'a>(
    alloc: Global,
    frame: Frame,
    tree: Tree,
    rest: &'a [char],
) -> Result<Place<'a>, OutOfMemory>
    ensures seen { (n d : ℕ) (fault : Option Fault)
        → IfOk result (λ p. walk.noting (noted fault) (walk.here n d p)
        ≡ walk.complete n d frame (flows.goes (so_far (plain_tree tree) fault) rest.now)) }
    ensures less { IfOk result (λ p. walk.ahead p < 8 * length rest.now + 3) }
{
    match frame {
        Frame::Item(items) => {
            let mut items = items;
            items.push(tree)?;
            Ok(Place::Reading(Spot::Behind(Hand::Items(items), rest)))
        }
        Frame::Value(map, key) => {
            let MapSoFar { mut pairs, keys } = map;
            pairs.insert(key, tree)?;
            Ok(Place::Reading(Spot::Behind(Hand::Pairs(MapSoFar { pairs, keys }), rest)))
        }
        Frame::OnePair(key) => {
            let mut pairs = PairsSoFar::new(alloc)?;
            pairs.insert(key, tree)?;
            Ok(Place::Node(Tree::Map(pairs.into_map()?), rest))
        }
    }
}
