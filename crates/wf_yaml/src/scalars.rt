// Scalars, with the lines behind them.
ghost use Rattle.std.specs.Prelude.{◌≡◌, ◌≤◌};
ghost use Rattle.wf_tree.specs.Plain.{plain_tree};
ghost use Rattle.wf_yaml_line.specs.Fault.{noted};
ghost use Rattle.wf_yaml_line.specs.Views.{ReadsAs};
ghost use Rattle.wf_yaml.specs.Rows as lines;
ghost use Rattle.wf_yaml.specs.Blocks as blocks;
ghost use Rattle.wf_yaml.specs.Views.{see_all};

use crate::block_scalars::block_scalar;
use crate::cuts::{counting, no_more};
use crate::rows::Row;
use crate::starts::starts_scalar;
use std::alloc::Global;
use wf_tree::Tree;
use wf_yaml_flow::one_line;
use wf_yaml_line::{Fault, Kind, YamlFault, before_comment, may_start_plain, noting_after};

fn goes_on(floor: usize, behind: &[Row]) -> bool
    ensures { result ≡ blocks.goes_on floor (lines.counting (see_all behind.now)) }
{
    match counting(behind) {
        [] => false,
        [row, ..] => floor <= row.indent,
    }
}

/// Whether a plain scalar goes on in the next line that counts.
fn is_going_on(floor: usize, s: &[char], behind: &[Row]) -> bool
    ensures { result ≡ blocks.is_going_on floor s.now (see_all behind.now) }
{
    let (_, has_comment) = before_comment(s);
    may_start_plain(s) && !has_comment && goes_on(floor, behind)
}

fn behind_fault(floor: usize, number: u32, s: &[char], behind: &[Row]) -> Option<Fault>
    ensures { noted result ≡ blocks.behind_fault floor number s.now (see_all behind.now) }
{
    if is_going_on(floor, s, behind) {
        Some(Fault {
            line: number,
            kind: Kind::Unsupported,
        })
    } else {
        no_more(behind)
    }
}

/// A scalar or a flow collection in a line, with the lines behind it.
pub(crate) fn scalar(
    alloc: Global,
    floor: usize,
    depth: u32,
    delay: bool,
    number: u32,
    text: &[char],
    behind: &[Row],
) -> Result<Tree, YamlFault>
    requires { depth ≤ 102 }
    ensures { ReadsAs plain_tree result
        (blocks.scalar floor depth delay number text.now (see_all behind.now)) }
{
    if starts_scalar(text) {
        return block_scalar(alloc, floor, number, text, behind);
    }
    let tree = one_line(alloc, delay, number, depth, text);
    noting_after(tree, behind_fault(floor, number, text, behind))
}
