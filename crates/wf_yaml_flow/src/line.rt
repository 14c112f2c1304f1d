// A scalar or a flow collection that stands on one line by itself.
ghost use Rattle.std.specs.Prelude.{◌≡◌, ◌==◌, ◌≤◌, not, true};
ghost use Rattle.wf_tree.specs.Plain.{plain_tree};
ghost use Rattle.wf_yaml_line.specs.Marks as marks;
ghost use Rattle.wf_yaml_line.specs.Quoted as quotes;
ghost use Rattle.wf_yaml_flow.specs.Flow as flows;
ghost use Rattle.wf_yaml_flow.specs.Line as lines;
ghost use Rattle.wf_yaml_line.specs.Views.{quoted_view, ReadsAs};
ghost use Rattle.wf_yaml_flow.specs.Views.{seen_tree};

use crate::signs::{is_bracket, is_property, property_fault};
use crate::walk::{Seen, read_flow};
use std::alloc::Global;
use wf_tree::Tree;
use wf_yaml_line::{
    Fault, Kind, Quoted, YamlFault, around_colon, before_comment, ends_line, is_blank,
    may_start_plain, noting, noting_after, plain_scalar, read_quoted, refuse_if, refused,
    skip_blanks, starts_quote, text_tree, trimmed,
};

/// A plain scalar, which goes to the line's end or a comment.
fn plain_line(alloc: Global, delay: bool, line: u32, s: &[char]) -> Result<Tree, YamlFault>
    ensures { ReadsAs plain_tree result (lines.plain_line delay line s.now) }
{
    let (before, _) = before_comment(s);
    let content = trimmed(before);
    let has_colon = around_colon(content).is_some();
    let value = plain_scalar(alloc, delay, line, content);
    noting_after(value, refuse_if(has_colon, line, Kind::Unsupported))
}

/// A quoted scalar, behind which nothing but a comment may stand.
fn quoted_tree(alloc: Global, line: u32, found: &Quoted<'_>) -> Result<Tree, YamlFault>
    ensures { ReadsAs plain_tree result
        (lines.quoted_tree line (quoted_view found.now) (quoted_view found.now).rest) }
{
    let Some(rest) = found.rest else {
        return refused(line, Kind::Quote);
    };
    if found.good && ends_line(rest) {
        text_tree(alloc, &found.chars)
    } else {
        refused(line, Kind::Quote)
    }
}

/// A flow collection, behind which nothing but a comment may stand.
fn flow_line(alloc: Global, line: u32, depth: u32, s: &[char]) -> Result<Tree, YamlFault>
    requires some { marks.starts marks.is_bracket s.now ≡ true }
    requires depth { depth ≤ 102 }
    ensures { ReadsAs plain_tree result (lines.flow_tree line (flows.flow line depth s.now)) }
{
    match read_flow(alloc, line, depth, s)? {
        Seen::Goes(tree, rest) => noting_after(
            tree_or_fault(tree),
            refuse_if(!ends_line(rest), line, Kind::Flow),
        ),
        Seen::Stops(fault) => Err(YamlFault::Refused(fault)),
    }
}

/// A tree, or why there is none.
fn tree_or_fault(tree: Result<Tree, Fault>) -> Result<Tree, YamlFault>
    ensures { ReadsAs plain_tree result (seen_tree tree) }
{
    match tree {
        Ok(tree) => Ok(tree),
        Err(fault) => Err(YamlFault::Refused(fault)),
    }
}

/// Without the characters at the front that are no blanks.
fn skip_word(s: &[char]) -> &[char]
    ensures { result.now ≡ marks.skip (λ b. not (marks.is_blank b)) s.now }
{
    let mut rest = s;
    'word: loop {
        match rest {
            [c, after @ ..] => {
                if is_blank(*c) {
                    return rest;
                }
                rest = after;
            }
            [] => return rest,
        }
    }
}

/// A node that starts with an anchor, an alias or a tag. What is lower may stand behind it.
fn marked_tree(alloc: Global, line: u32, depth: u32, s: &[char]) -> Result<Tree, YamlFault>
    requires { depth ≤ 102 }
    ensures { ReadsAs plain_tree result (lines.marked_tree line depth s.now) }
{
    let rest = skip_blanks(skip_word(s));
    let value = if is_bracket(rest) {
        flow_line(alloc, line, depth, rest)
    } else {
        Ok(Tree::Null)
    };
    noting(property_fault(line, s), value)
}

/// The tree of a text that starts with a quote.
fn quoted_line(alloc: Global, line: u32, s: &[char]) -> Result<Tree, YamlFault>
    ensures { ReadsAs plain_tree result
        (lines.quoted_tree line (quotes.quoted s.now) (quotes.quoted s.now).rest) }
{
    let found = read_quoted(alloc, s)?;
    quoted_tree(alloc, line, &found)
}

/// The tree of a scalar or a flow collection that is the rest of a line, from its first character
/// on. `delay` tells that it is the value of a key that may have a decimal, `line` is the line's
/// number, from 1, and `depth` how deep a flow collection nests here, from 1. A block scalar is no
/// such text, and is refused as `Unsupported`.
pub fn one_line(
    alloc: Global,
    delay: bool,
    line: u32,
    depth: u32,
    s: &[char],
) -> Result<Tree, YamlFault>
    requires { depth ≤ 102 }
    ensures { ReadsAs plain_tree result (lines.one_line delay line depth s.now) }
{
    if is_property(s) {
        marked_tree(alloc, line, depth, s)
    } else if starts_quote(s) {
        quoted_line(alloc, line, s)
    } else if is_bracket(s) {
        flow_line(alloc, line, depth, s)
    } else if may_start_plain(s) {
        plain_line(alloc, delay, line, s)
    } else {
        refused(line, Kind::Unsupported)
    }
}
