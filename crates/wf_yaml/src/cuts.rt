// Lines cut at the heads of a block's entries.
ghost use Rattle.std.specs.Prelude.{◌≡◌, ◌≤◌, true, length, take, drop, IfSome, slice_get};
ghost use Rattle.wf_yaml_line.specs.Fault.{noted};
ghost use Rattle.wf_yaml.specs.Rows as lines;
ghost use Rattle.wf_yaml.specs.Cuts as cuts;
ghost use Rattle.wf_yaml.specs.Views.{see, see_all, see_head};

use crate::rows::{Head, Row};
use crate::starts::{is_item, starts_tab};
use wf_yaml_line::{Fault, Kind, is_blank_line};

/// The line as the head of what stands in it.
pub(crate) fn head_of(row: &Row) -> Head<'_>
    ensures { see_head result ≡ see row.now }
{
    Head {
        number: row.number,
        column: row.indent,
        text: &row.text,
    }
}

/// A line that fits no open block.
pub(crate) fn misplaced(number: u32, text: &[char]) -> Fault
    ensures { lines.misplaced_at number text.now ≡ result }
{
    let kind = if starts_tab(text) {
        Kind::Tab
    } else {
        Kind::Indentation
    };
    Fault { line: number, kind }
}

/// Without the blank lines at the front.
pub(crate) fn counting(rows: &[Row]) -> &[Row]
    ensures { see_all result.now ≡ lines.counting (see_all rows.now) }
{
    let mut rest = rows;
    'skip: loop {
        match rest {
            [row, after @ ..] => {
                if !is_blank_line(&row.text) {
                    return rest;
                }
                rest = after;
            }
            [] => return rest,
        }
    }
}

/// No line that counts may be left.
pub(crate) fn no_more(rows: &[Row]) -> Option<Fault>
    ensures { noted result ≡ lines.no_more (see_all rows.now) }
{
    match counting(rows) {
        [] => None,
        [row, ..] => Some(misplaced(row.number, &row.text)),
    }
}

fn is_head(in_map: bool, indent: usize, row: &Row) -> bool
    ensures { result ≡ cuts.heads in_map indent (see row.now) }
{
    if is_blank_line(&row.text) || indent < row.indent {
        return false;
    }
    !in_map || row.indent != indent || !is_item(&row.text)
}

/// How many lines stand before the next head of a map or a list with this indentation.
pub(crate) fn body_len(in_map: bool, indent: usize, rows: &[Row]) -> usize
    ensures within { result ≤ length rows.now }
    ensures lead { (cuts.cut (cuts.heads in_map indent) (see_all rows.now)).lead
        ≡ see_all (take result rows.now) }
    ensures entries { (cuts.cut (cuts.heads in_map indent) (see_all rows.now)).entries
        ≡ (cuts.cut (cuts.heads in_map indent) (see_all (drop result rows.now))).entries }
    ensures head { IfSome (slice_get rows.now result) (λ r. cuts.heads in_map indent (see r)
        ≡ true) }
{
    for i in 0..rows.len() {
        if is_head(in_map, indent, &rows[i]) {
            return i;
        }
    }
    rows.len()
}
