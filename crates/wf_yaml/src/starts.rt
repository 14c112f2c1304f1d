// What a line's content begins with.
ghost use Rattle.std.specs.Prelude.{◌≡◌, ◌==◌, ◌&&◌, ◌<◌, true, length, is_some, IfOk};
ghost use Rattle.wf_yaml_line.specs.Keys.{key_of};
ghost use Rattle.wf_yaml_line.specs.Marks as marks;
ghost use Rattle.wf_yaml.specs.Rows as lines;
ghost use Rattle.wf_yaml.specs.Starts as starts;

use std::alloc::Global;
use wf_value::OutOfMemory;
use wf_yaml_line::{ends_line, read_key};

/// Whether an item of a list begins: a `-` with a space or the line's end behind it.
pub(crate) fn is_item(s: &[char]) -> bool
    ensures value { result ≡ starts.is_item s.now }
    ensures some { result ≡ true → 0 < length s.now }
{
    match s {
        ['-', rest @ ..] => starts_space(rest) || ends_line(rest),
        _ => false,
    }
}

fn starts_space(s: &[char]) -> bool
    ensures { result ≡ marks.starts (λ b. b == marks.space) s.now }
{
    match s {
        [] => false,
        [c, ..] => *c == ' ',
    }
}

/// Whether a tab stands first.
pub(crate) fn starts_tab(s: &[char]) -> bool
    ensures { result ≡ lines.starts_tab s.now }
{
    match s {
        [] => false,
        [c, ..] => *c == '\t',
    }
}

/// Whether a block scalar begins.
pub(crate) fn starts_scalar(s: &[char]) -> bool
    ensures { result ≡ starts.starts_scalar s.now }
{
    match s {
        [] => false,
        [c, ..] => *c == '|' || *c == '>',
    }
}

/// Whether a pair of a map begins: a key with its `:`.
pub(crate) fn is_pair(alloc: Global, s: &[char]) -> Result<bool, OutOfMemory>
    ensures { IfOk result (λ b. b ≡ is_some (key_of s.now)) }
{
    Ok(read_key(alloc, s)?.is_some())
}

fn starts_block(alloc: Global, s: &[char]) -> Result<bool, OutOfMemory>
    ensures { IfOk result (λ b. b ≡ starts.starts_block s.now) }
{
    if is_item(s) {
        return Ok(true);
    }
    is_pair(alloc, s)
}

/// Whether a tab stands behind an item's `-` and before a list or a map on its line.
pub(crate) fn has_tab_block(
    alloc: Global,
    rest: &[char],
    content: &[char],
) -> Result<bool, OutOfMemory>
    ensures { IfOk result (λ b. b ≡
        (starts.has_tab_gap rest.now && starts.starts_block content.now)) }
{
    if has_tab_gap(rest) {
        return starts_block(alloc, content);
    }
    Ok(false)
}

/// Whether a tab stands among the blanks at the front.
fn has_tab_gap(s: &[char]) -> bool
    ensures { result ≡ starts.has_tab_gap s.now }
{
    for c in s {
        if *c == '\t' {
            return true;
        }
        if *c != ' ' {
            return false;
        }
    }
    false
}
