// The faults of a line past the deepest nesting.
ghost use Rattle.std.specs.Prelude.{◌≡◌, ◌≤◌, length};
ghost use Rattle.wf_tree.specs.Plain.{plain_tree};
ghost use Rattle.wf_yaml_line.specs.Keys.{key_of};
ghost use Rattle.wf_yaml_line.specs.Views.{ReadsAs, key_view};
ghost use Rattle.wf_yaml.specs.Blocks as blocks;

use crate::block_scalars::header_fault;
use crate::starts::{has_tab_block, is_item, starts_scalar};
use std::alloc::Global;
use wf_tree::Tree;
use wf_yaml_flow::one_line;
use wf_yaml_line::{
    Fault, Key, Kind, YamlFault, behind_first, ends_line, is_delay_key, noting, read_key,
    skip_blanks,
};

/// A scalar by itself: of a block scalar the marks alone.
fn line_alone(
    alloc: Global,
    delay: bool,
    depth: u32,
    number: u32,
    text: &[char],
) -> Result<Tree, YamlFault>
    requires { depth ≤ 102 }
    ensures { ReadsAs plain_tree result (blocks.line_alone delay number depth text.now) }
{
    if starts_scalar(text) {
        noting(header_fault(number, text), Ok(Tree::Null))
    } else {
        one_line(alloc, delay, number, depth, text)
    }
}

/// What stands behind a key on its line.
fn value_line(alloc: Global, depth: u32, number: u32, key: &Key<'_>) -> Result<Tree, YamlFault>
    requires { depth ≤ 102 }
    ensures { ReadsAs plain_tree result (blocks.value_line number depth (key_view key.now)) }
{
    if ends_line(key.rest) {
        return Ok(Tree::Null);
    }
    let delay = is_delay_key(key.text.as_str());
    line_alone(alloc, delay, depth, number, skip_blanks(key.rest))
}

fn key_line(alloc: Global, depth: u32, number: u32, key: &Key<'_>) -> Result<Tree, YamlFault>
    requires { depth ≤ 102 }
    ensures { ReadsAs plain_tree result (blocks.key_line number depth (key_view key.now)) }
{
    let tree = value_line(alloc, depth, number, key);
    noting(key.refusal(number), tree)
}

fn other_line(alloc: Global, depth: u32, number: u32, text: &[char]) -> Result<Tree, YamlFault>
    requires { depth ≤ 102 }
    ensures { ReadsAs plain_tree result
        (blocks.other_line number depth text.now (key_of text.now)) }
{
    match &read_key(alloc, text)? {
        Some(key) => key_line(alloc, depth, number, key),
        None => line_alone(alloc, false, depth, number, text),
    }
}

/// The faults of a line past the deepest nesting. Its items stand in each other, one a turn.
pub(crate) fn deep(alloc: Global, depth: u32, number: u32, text: &[char]) -> Result<Tree, YamlFault>
    requires { depth ≤ 102 }
    ensures { ReadsAs plain_tree result (blocks.deep_line (length text.now) number depth text.now) }
{
    let mut left = text.len();
    let mut content = text;
    'items: loop {
        if left == 0 {
            return Ok(Tree::Null);
        }
        if !is_item(content) {
            return other_line(alloc, depth, number, content);
        }
        let rest = behind_first(content);
        if ends_line(rest) {
            return Ok(Tree::Null);
        }
        let inner = skip_blanks(rest);
        let is_refused = has_tab_block(alloc, rest, inner)?;
        if is_refused {
            return Err(YamlFault::Refused(Fault {
                line: number,
                kind: Kind::Tab,
            }));
        }
        content = inner;
        left -= 1;
    }
}
