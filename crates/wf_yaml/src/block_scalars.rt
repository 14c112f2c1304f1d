// Block scalars.
ghost use Rattle.std.specs.Prelude.{◌≡◌, ◌≤◌, ◌-◌, ◌++◌, ◌∷◌, [], length, take, drop, cond, false, Some, Ok, IfOk};
ghost use Rattle.std.specs.Str.{encode_utf8_all};
ghost use Rattle.wf_tree.specs.Trees as trees;
ghost use Rattle.wf_tree.specs.Plain.{plain_tree};
ghost use Rattle.wf_yaml_line.specs.Fault.{noted};
ghost use Rattle.wf_yaml_line.specs.Marks as marks;
ghost use Rattle.wf_yaml_line.specs.Views.{ReadsAs};
ghost use Rattle.wf_yaml.specs.BlockScalars as scalars;
ghost use Rattle.wf_yaml.specs.Views.{see, see_all};

use crate::cuts::no_more;
use crate::rows::Row;
use std::alloc::{AllocError, Global};
use wf_tree::Tree;
use wf_yaml_line::{
    Fault, Kind, YamlFault, behind_first, both_noted, ends_line, is_blank, noting, refuse_if,
    text_of,
};

/// The block scalar with these marks, in a block of which the floor is the least indentation.
pub(crate) fn block_scalar(
    alloc: Global,
    floor: usize,
    number: u32,
    text: &[char],
    behind: &[Row],
) -> Result<Tree, YamlFault>
    ensures { ReadsAs plain_tree result
        (scalars.block_scalar floor number text.now (see_all behind.now)) }
{
    let tree = match scalar_indent(floor, behind) {
        Some(indent) => lines_tree(alloc, is_folded(text), is_stripped(text), indent, behind),
        None => noting(no_more(behind), text_tree(alloc, &[])),
    };
    noting(header_fault(number, text), tree)
}

/// Nothing but blanks and a comment may stand behind the marks.
pub(crate) fn header_fault(number: u32, text: &[char]) -> Option<Fault>
    ensures { noted result ≡ scalars.header_fault number text.now }
{
    refuse_if(!ends_line(behind_marks(text)), number, Kind::Unsupported)
}

fn is_folded(text: &[char]) -> bool
    ensures { result ≡ scalars.is_folded text.now }
{
    match text {
        [] => false,
        [c, ..] => *c == '>',
    }
}

fn is_stripped(text: &[char]) -> bool
    ensures { result ≡ scalars.is_stripped text.now }
{
    match behind_first(text) {
        [] => false,
        [c, ..] => *c == '-',
    }
}

fn behind_marks(text: &[char]) -> &[char]
    ensures { result.now ≡ scalars.behind_marks text.now }
{
    let marks = behind_first(text);
    match marks {
        ['-', rest @ ..] => rest,
        _ => marks,
    }
}

/// The indentation of a block scalar, if it has lines inside the block around.
fn scalar_indent(floor: usize, behind: &[Row]) -> Option<usize>
    ensures { result ≡ scalars.scalar_indent floor (see_all behind.now) }
{
    for row in behind {
        if !row.text.is_empty() {
            return if floor <= row.indent {
                Some(row.indent)
            } else {
                None
            };
        }
    }
    None
}

/// The scalar with this indentation, whose lines stand at the front of these.
fn lines_tree(
    alloc: Global,
    folded: bool,
    stripped: bool,
    indent: usize,
    behind: &[Row],
) -> Result<Tree, YamlFault>
    ensures { ReadsAs plain_tree result
        (scalars.block_lines folded stripped (Some indent) (see_all behind.now)) }
{
    let (inside, rest) = behind.split_at(inside_len(indent, behind));
    let fault = both_noted(blank_fault(folded, indent, inside), no_more(rest));
    let text = block_text(alloc, folded, stripped, indent, inside)?;
    noting(fault, text_tree(alloc, &text))
}

fn text_tree(alloc: Global, text: &[char]) -> Result<Tree, YamlFault>
    ensures { ReadsAs plain_tree result (Ok (trees.text (encode_utf8_all text.now))) }
{
    Ok(Tree::Text(text_of(alloc, text)?))
}

fn is_outside(indent: usize, row: &Row) -> bool
    ensures { result ≡ scalars.is_outside indent (see row.now) }
{
    !row.text.is_empty() && row.indent < indent
}

/// How many lines stand in the scalar with this indentation.
fn inside_len(indent: usize, rows: &[Row]) -> usize
    ensures within { result ≤ length rows.now }
    ensures inside { see_all (take result rows.now)
        ≡ scalars.scalar_rows indent (see_all rows.now) }
    ensures behind { see_all (drop result rows.now)
        ≡ scalars.behind_scalar indent (see_all rows.now) }
{
    for i in 0..rows.len() {
        if is_outside(indent, &rows[i]) {
            return i;
        }
    }
    rows.len()
}

/// Under `>` no line may start with a further blank.
fn blank_fault(folded: bool, indent: usize, rows: &[Row]) -> Option<Fault>
    ensures { noted result ≡ cond folded (scalars.no_further_blank indent false (see_all rows.now))
        (Ok tt) }
{
    if folded {
        no_further_blank(indent, rows)
    } else {
        None
    }
}

fn no_further_blank(indent: usize, rows: &[Row]) -> Option<Fault>
    ensures { noted result ≡ scalars.no_further_blank indent false (see_all rows.now) }
{
    let mut begun = false;
    for row in rows {
        if starts_blank(begun, indent, row) {
            return Some(Fault {
                line: row.number,
                kind: Kind::Unsupported,
            });
        }
        begun = begun || !row.text.is_empty();
    }
    None
}

/// Whether the line of the scalar in this row starts with a blank.
fn starts_blank(begun: bool, indent: usize, row: &Row) -> bool
    ensures { result ≡ marks.starts marks.is_blank
        (scalars.scalar_line indent begun (see row.now)) }
{
    match row.text.as_slice() {
        [] => begun && indent < row.indent,
        [c, ..] => indent < row.indent || is_blank(*c),
    }
}

/// Whether the line of the scalar in this row is empty.
fn is_empty_line(begun: bool, indent: usize, row: &Row) -> bool
    ensures { result ≡ marks.is_empty (scalars.scalar_line indent begun (see row.now)) }
{
    row.text.is_empty() && !(begun && indent < row.indent)
}

/// The text of the scalar that has these lines.
fn block_text(
    alloc: Global,
    folded: bool,
    stripped: bool,
    indent: usize,
    rows: &[Row],
) -> Result<Vec<char>, AllocError>
    ensures { IfOk result (λ t. t.items
        ≡ scalars.block_text folded stripped
        (scalars.scalar_lines indent false (see_all rows.now))) }
{
    let mut text = joined(alloc, folded, indent, rows)?;
    if !stripped && !text.is_empty() {
        text.push('\n')?;
    }
    Ok(text)
}

/// The lines of the scalar in one text, with no line end behind the last that isn't empty.
fn joined(alloc: Global, folded: bool, indent: usize, rows: &[Row]) -> Result<Vec<char>, AllocError>
    ensures { IfOk result (λ t. t.items
        ≡ scalars.joined folded (scalars.scalar_lines indent false (see_all rows.now))) }
{
    let mut text = Vec::new(alloc);
    let mut begun = false;
    // how many line ends are to stand before the next line that isn't empty
    let mut ends = 0;
    for row in rows {
        if is_empty_line(begun, indent, row) {
            ends += 1;
            continue;
        }
        push_gap(&mut text, folded && begun, ends)?;
        push_copies(&mut text, row.indent.saturating_sub(indent), ' ')?;
        text.extend_from_slice(&row.text)?;
        begun = true;
        ends = if folded { 0 } else { 1 };
    }
    Ok(text)
}

/// What stands between two lines: so many line ends, or a space where lines are to be joined and
/// there are none.
fn push_gap(text: &mut Vec<char>, is_joined: bool, ends: usize) -> Result<(), AllocError>
    ensures { IfOk result (λ _. text.new.items ≡ text.old.items ++ scalars.gap is_joined ends) }
{
    if is_joined && ends == 0 {
        return push_copies(text, 1, ' ');
    }
    push_copies(text, ends, '\n')
}

fn push_copies(text: &mut Vec<char>, count: usize, c: char) -> Result<(), AllocError>
    ensures { IfOk result (λ _. text.new.items ≡ text.old.items ++ scalars.copies count c) }
{
    let mut left = count;
    while left > 0 {
        text.push(c)?;
        left -= 1;
    }
    Ok(())
}
