// The walk over a flow collection.
ghost use Rattle.std.specs.Prelude.{◌≡◌, ◌≤◌, ◌<◌, ◌+◌, ◌*◌, ◌++◌, true, length, option_to_list, IfOk};
ghost use Rattle.wf_yaml_flow.specs.Flow as flows;
ghost use Rattle.wf_yaml_line.specs.Marks as marks;
ghost use Rattle.wf_yaml_flow.specs.FlowWalk as walk;
ghost use Rattle.wf_yaml_flow.specs.declared.places.Place.TheVariants as place;
ghost use Rattle.wf_yaml_line.specs.Views.{so_far};
ghost use Rattle.wf_yaml_flow.specs.Views.{seen_view, seen_tree};
ghost use Rattle.wf_tree.specs.Plain.{plain_tree};

use crate::places::{Frame, Place, Spot};
use crate::signs::starts_map;
use crate::turns::{put, turn};
use std::alloc::Global;
use wf_tree::Tree;
use wf_value::OutOfMemory;
use wf_yaml_line::{Fault, Kind, behind_first, both_noted, least};

/// What was read of the front of a text: what it is, and the text behind it. Or nothing more of the
/// line can be read.
#[derive(Drop)]
pub(crate) enum Seen<'a> {
    Goes(Result<Tree, Fault>, &'a [char]),
    Stops(Fault),
}

/// What was read, unless a fault was noted.
fn unless_noted(fault: Option<Fault>, tree: Tree) -> Result<Tree, Fault>
    ensures { seen_tree result ≡ so_far (plain_tree tree) fault }
{
    match fault {
        Some(fault) => Err(fault),
        None => Ok(tree),
    }
}

/// A tree, or Null where a fault was noted, so that no tree nests deeper than 100.
fn kept_tree(fault: Option<Fault>, tree: Tree) -> Tree
    ensures { so_far (plain_tree result) fault ≡ so_far (plain_tree tree) fault }
{
    match fault {
        Some(_) => Tree::Null,
        None => tree,
    }
}

/// Opens what a turn opened.
fn open_frame(frames: &mut Vec<Frame>, frame: Option<Frame>) -> Result<(), OutOfMemory>
    ensures { IfOk result (λ _. frames.new.items ≡ frames.old.items ++ option_to_list frame) }
{
    let Some(frame) = frame else {
        return Ok(());
    };
    frames.push(frame)?;
    Ok(())
}

/// Reads what is next, under all that is open.
fn read_next<'a>(
    alloc: Global,
    line: u32,
    depth: usize,
    frames: &mut Vec<Frame>,
    fault: &mut Option<Fault>,
    spot: Spot<'a>,
) -> Result<Place<'a>, OutOfMemory>
    requires { depth ≤ 102 }
    ensures seen { IfOk result (λ p. walk.whole line depth frames.new.items fault.new p
        ≡ walk.whole line depth frames.old.items fault.old (place.Reading spot.entry)) }
    ensures less { IfOk result (λ p. walk.ahead p + 2 * length frames.new.items
        < walk.left spot.entry + 2 * length frames.old.items) }
{
    let found = turn(alloc, line, depth + frames.len(), spot)?;
    *fault = both_noted(*fault, found.fault);
    open_frame(frames, found.frame)?;
    Ok(found.place)
}

/// The flow collection at the start of a text.
pub(crate) fn read_flow(
    alloc: Global,
    line: u32,
    depth: u32,
    s: &[char],
) -> Result<Seen<'_>, OutOfMemory>
    requires some { marks.starts marks.is_bracket s.now ≡ true }
    requires depth { depth ≤ 102 }
    ensures { IfOk result (λ f. seen_view f ≡ flows.flow line depth s.now) }
{
    let mut frames: Vec<Frame> = Vec::new(alloc);
    let mut fault: Option<Fault> = None;
    let mut place = Place::Reading(Spot::Open(starts_map(s), behind_first(s)));
    'walk: loop {
        match place {
            Place::Stopped => {
                let stop = Fault {
                    line,
                    kind: Kind::Flow,
                };
                return Ok(Seen::Stops(least(fault, stop)));
            }
            Place::Node(tree, rest) => match frames.pop() {
                None => return Ok(Seen::Goes(unless_noted(fault, tree), rest)),
                Some(frame) => place = put(alloc, frame, kept_tree(fault, tree), rest)?,
            },
            Place::Reading(spot) => {
                place = read_next(alloc, line, depth as usize, &mut frames, &mut fault, spot)?;
            }
        }
    }
}
