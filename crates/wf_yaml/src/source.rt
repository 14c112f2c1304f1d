// Sources: their lines, the marks of a document, and its tree.
ghost use Rattle.std.specs.Prelude.{◌≡◌, ◌+◌, ◌<◌, ◌≤◌, length, take, drop, IfOk};
ghost use Rattle.wf_span.specs.Lefts.{view};
ghost use Rattle.wf_tree.specs.Plain.{plain_tree};
ghost use Rattle.wf_yaml_line.specs.Fault.{noted};
ghost use Rattle.wf_yaml_line.specs.Marks as marks;
ghost use Rattle.wf_yaml_line.specs.Views.{ReadsAs};
ghost use Rattle.wf_yaml.specs.Rows as lines;
ghost use Rattle.wf_yaml.specs.Blocks as blocks;
ghost use Rattle.wf_yaml.specs.Reading as reading;
ghost use Rattle.wf_yaml.specs.Views.{see, see_all};

use crate::blocks::node;
use crate::cuts::{counting, head_of};
use crate::rows::Row;
use std::alloc::{AllocError, Global};
use wf_span::{Line, lines};
use wf_tree::Tree;
use wf_yaml_line::{Fault, Kind, YamlFault, ends_line, ends_word, noting_after};

/// The lines of a source.
fn rows_of(alloc: Global, src: &str) -> Result<Vec<Row>, AllocError>
    requires { length src.now < 4294967296 }
    ensures { IfOk result (λ rs. see_all rs.items ≡ lines.rows src.now) }
{
    let mut rows = Vec::new(alloc);
    for line in lines(src) {
        rows.push(row_of(alloc, &line)?)?;
    }
    Ok(rows)
}

fn row_of(alloc: Global, line: &Line<'_>) -> Result<Row, AllocError>
    requires { line.now.indent + length line.now.body.now < 4294967296 }
    ensures { IfOk result (λ r. see r ≡ lines.row (view line.now)) }
{
    let text = line.body.chars().collect(alloc)?;
    Ok(Row {
        number: line.number,
        indent: line.indent as usize,
        text,
    })
}

/// A source without its one `---` at the front.
fn behind_start(rows: &[Row]) -> &[Row]
    ensures { see_all result.now ≡ lines.behind_start (see_all rows.now) }
{
    match rows {
        [] => rows,
        [row, after @ ..] => if is_start(row) { after } else { rows },
    }
}

fn is_start(row: &Row) -> bool
    ensures { result ≡ lines.is_start (see row.now) }
{
    row.indent == 0 && is_dashes(&row.text) && ends_line(behind_three(&row.text))
}

fn is_dashes(text: &[char]) -> bool
    ensures { result ≡ lines.is_marked lines.dashes text.now }
{
    match text {
        ['-', '-', '-', rest @ ..] => ends_word(rest),
        _ => false,
    }
}

fn is_dots(text: &[char]) -> bool
    ensures { result ≡ lines.is_marked lines.dots text.now }
{
    match text {
        ['.', '.', '.', rest @ ..] => ends_word(rest),
        _ => false,
    }
}

fn behind_three(text: &[char]) -> &[char]
    ensures { result.now ≡ drop 3 text.now }
{
    match text {
        [_, _, _, rest @ ..] => rest,
        _ => &[],
    }
}

fn is_any_mark(row: &Row) -> bool
    ensures { result ≡ lines.is_any_mark (see row.now) }
{
    row.indent == 0 && (is_dashes(&row.text) || is_dots(&row.text))
}

/// How many lines stand before the first mark.
fn mark_at(rows: &[Row]) -> usize
    ensures within { result ≤ length rows.now }
    ensures before { see_all (take result rows.now) ≡ lines.before_mark (see_all rows.now) }
{
    for i in 0..rows.len() {
        if is_any_mark(&rows[i]) {
            return i;
        }
    }
    rows.len()
}

fn no_mark(rows: &[Row]) -> Option<Fault>
    ensures { noted result ≡ lines.no_mark (see_all rows.now) }
{
    for row in rows {
        if is_any_mark(row) {
            return Some(Fault {
                line: row.number,
                kind: Kind::Unsupported,
            });
        }
    }
    None
}

fn has_return(text: &[char]) -> bool
    ensures { result ≡ marks.among text.now marks.return_mark }
{
    for c in text {
        if '\r' == *c {
            return true;
        }
    }
    false
}

fn no_lone_return(rows: &[Row]) -> Option<Fault>
    ensures { noted result ≡ lines.no_lone_return (see_all rows.now) }
{
    for row in rows {
        if has_return(&row.text) {
            return Some(Fault {
                line: row.number,
                kind: Kind::Unsupported,
            });
        }
    }
    None
}

/// The node that all these lines are.
fn content(alloc: Global, rows: &[Row]) -> Result<Tree, YamlFault>
    ensures { ReadsAs plain_tree result
        (blocks.node 100 0 1 reading.no_delay (lines.counting (see_all rows.now))) }
{
    match counting(rows) {
        [] => Ok(Tree::Null),
        [row, behind @ ..] => node(alloc, 0, 1, false, head_of(row), behind),
    }
}

fn document(alloc: Global, rows: &[Row]) -> Result<Tree, YamlFault>
    ensures { ReadsAs plain_tree result (reading.document (see_all rows.now)) }
{
    let (front, _) = rows.split_at(mark_at(rows));
    let tree = content(alloc, front);
    noting_after(tree, no_mark(rows))
}

fn read_rows(alloc: Global, rows: &[Row]) -> Result<Tree, YamlFault>
    ensures { ReadsAs plain_tree result (reading.reading_of (see_all rows.now)) }
{
    let tree = document(alloc, behind_start(counting(rows)));
    noting_after(tree, no_lone_return(rows))
}

/// The tree of a source, or its first fault.
pub(crate) fn read_source(alloc: Global, src: &str) -> Result<Tree, YamlFault>
    requires { length src.now < 4294967296 }
    ensures { ReadsAs plain_tree result (reading.reading_of (lines.rows src.now)) }
{
    let rows = rows_of(alloc, src)?;
    read_rows(alloc, &rows)
}
