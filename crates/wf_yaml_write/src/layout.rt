// Trees: what stands on a line, and how lists and maps are laid out.
ghost use Rattle.std.specs.Prelude.{◌≡◌, ◌+◌, ◌*◌, ◌≤◌, ◌++◌, IfOk, Ok, OnOk, codes, false, replicate, string_bytes};
ghost use Rattle.std.specs.Fmt.{signed_decimal};
ghost use Rattle.std.specs.Str.{IsUtf8};
ghost use Rattle.wf_tree.specs.Trees.{list, map, depth, items_depth, items_of, pairs_depth, pairs_of};
ghost use Rattle.wf_tree.specs.Plain.{plain_tree, plain_items, plain_pairs};
ghost use Rattle.wf_yaml.specs.Reading.{reading};
ghost use Rattle.wf_yaml_line.specs.Marks.{space};
ghost use Rattle.wf_yaml_write.specs.Laid.{laid, indented};
ghost use Rattle.wf_yaml_write.specs.Layout.{written, layout, items_layout, pairs_layout, as_item, as_pair, is_block};
ghost use Rattle.wf_yaml_write.specs.Whole.{IsInMemory, AreInMemory, ArePairsInMemory, DecimalsFit};

use crate::texts::push_text;
use std::alloc::{AllocError, Global};
use wf_tree::Tree;
use wf_value::{OutOfMemory, Text};

/// The text that a tree is written as: lines that end with a line feed, pairs in the order of the
/// keys' bytes, a list or a map two columns further in than what holds it, and texts in double
/// quotes where they can't stand plain. The tree nests at most 100 deep. It is read back from the
/// text, where its decimals stand as a source may have them. The only error is want of memory.
pub fn write_yaml(alloc: Global, tree: &Tree) -> Result<Text, OutOfMemory>
    requires { depth (plain_tree tree.now) ≤ 100 }
    ensures text { IfOk result (λ t. t ≡ written (plain_tree tree.now)) }
    ensures read_back { DecimalsFit false (plain_tree tree.now)
        → IfOk result (λ t. reading t ≡ Ok (plain_tree tree.now)) }
{
    let mut out = String::new(alloc);
    push_tree(alloc, &mut out, 0, tree)?;
    Text::new(alloc, out.as_str())
}

/// Writes a tree whose first line goes on in a line that was begun; the others stand at the
/// indentation. So do the functions below. What was written has all that a tree in memory keeps.
#[cycle(write)]
fn push_tree(alloc: Global, out: &mut String, indent: u32, tree: &Tree) -> Result<(), AllocError>
    requires { indent + 2 * depth (plain_tree tree.now) ≤ 200 }
    ensures text { OnOk result (string_bytes out.new
        ≡ string_bytes out.old ++ laid indent (layout (plain_tree tree.now))) }
    ensures memory { OnOk result (IsInMemory (plain_tree tree.now)) }
{
    match tree {
        Tree::Null => out.push_str("null\n"),
        Tree::Bool(true) => out.push_str("true\n"),
        Tree::Bool(false) => out.push_str("false\n"),
        Tree::Int(n) => push_number(alloc, out, *n),
        Tree::Decimal(digits) => push_line(out, digits.as_str()),
        Tree::Text(text) => {
            push_text(alloc, out, text.as_str())?;
            out.push('\n')
        }
        Tree::List(list) => push_items(alloc, out, indent, list.items()),
        Tree::Map(map) => push_pairs(alloc, out, indent, map.pairs()),
    }
}

#[cycle(write)]
fn push_items(
    alloc: Global,
    out: &mut String,
    indent: u32,
    items: &[Tree],
) -> Result<(), AllocError>
    requires { indent + 2 * items_depth (items_of (plain_items items.now)) ≤ 198 }
    ensures text { OnOk result (string_bytes out.new
        ≡ string_bytes out.old ++ laid indent (layout (list (items_of (plain_items items.now))))) }
    ensures memory { OnOk result (AreInMemory (items_of (plain_items items.now))) }
{
    match items {
        [] => out.push_str("[]\n"),
        [first, rest @ ..] => {
            push_item(alloc, out, indent, first)?;
            push_more_items(alloc, out, indent, rest)
        }
    }
}

/// Writes items each of which begins a line.
#[cycle(write)]
fn push_more_items(
    alloc: Global,
    out: &mut String,
    indent: u32,
    items: &[Tree],
) -> Result<(), AllocError>
    requires { indent + 2 * items_depth (items_of (plain_items items.now)) ≤ 198 }
    ensures text { OnOk result (string_bytes out.new
        ≡ string_bytes out.old
        ++ indented indent (items_layout (items_of (plain_items items.now)))) }
    ensures memory { OnOk result (AreInMemory (items_of (plain_items items.now))) }
{
    for item in items {
        push_spaces(out, indent)?;
        push_item(alloc, out, indent, item)?;
    }
    Ok(())
}

#[cycle(write)]
fn push_item(alloc: Global, out: &mut String, indent: u32, item: &Tree) -> Result<(), AllocError>
    requires { indent + 2 * depth (plain_tree item.now) ≤ 198 }
    ensures text { OnOk result (string_bytes out.new
        ≡ string_bytes out.old ++ laid indent (as_item (layout (plain_tree item.now)))) }
    ensures memory { OnOk result (IsInMemory (plain_tree item.now)) }
{
    out.push_str("- ")?;
    push_tree(alloc, out, indent + 2, item)
}

#[cycle(write)]
fn push_pairs(
    alloc: Global,
    out: &mut String,
    indent: u32,
    pairs: &[(Text, Tree)],
) -> Result<(), AllocError>
    requires { indent + 2 * pairs_depth (pairs_of (plain_pairs pairs.now)) ≤ 198 }
    ensures text { OnOk result (string_bytes out.new
        ≡ string_bytes out.old ++ laid indent (layout (map (pairs_of (plain_pairs pairs.now))))) }
    ensures memory { OnOk result (ArePairsInMemory (pairs_of (plain_pairs pairs.now))) }
{
    match pairs {
        [] => out.push_str("{}\n"),
        [first, rest @ ..] => {
            push_pair(alloc, out, indent, &first.0, &first.1)?;
            push_more_pairs(alloc, out, indent, rest)
        }
    }
}

/// Writes pairs each of which begins a line.
#[cycle(write)]
fn push_more_pairs(
    alloc: Global,
    out: &mut String,
    indent: u32,
    pairs: &[(Text, Tree)],
) -> Result<(), AllocError>
    requires { indent + 2 * pairs_depth (pairs_of (plain_pairs pairs.now)) ≤ 198 }
    ensures text { OnOk result (string_bytes out.new
        ≡ string_bytes out.old
        ++ indented indent (pairs_layout (pairs_of (plain_pairs pairs.now)))) }
    ensures memory { OnOk result (ArePairsInMemory (pairs_of (plain_pairs pairs.now))) }
{
    for pair in pairs {
        push_spaces(out, indent)?;
        push_pair(alloc, out, indent, &pair.0, &pair.1)?;
    }
    Ok(())
}

#[cycle(write)]
fn push_pair(
    alloc: Global,
    out: &mut String,
    indent: u32,
    key: &Text,
    item: &Tree,
) -> Result<(), AllocError>
    requires { indent + 2 * depth (plain_tree item.now) ≤ 198 }
    ensures text { OnOk result (string_bytes out.new
        ≡ string_bytes out.old
        ++ laid indent (as_pair key.now (is_block (plain_tree item.now))
        (layout (plain_tree item.now)))) }
    ensures memory { OnOk result (IsUtf8 key.now × IsInMemory (plain_tree item.now)) }
{
    push_text(alloc, out, key.as_str())?;
    if is_block(item) {
        out.push_str(":\n")?;
        push_spaces(out, indent + 2)?;
        push_tree(alloc, out, indent + 2, item)
    } else {
        out.push_str(": ")?;
        push_tree(alloc, out, indent, item)
    }
}

/// Whether a tree takes lines of its own.
fn is_block(tree: &Tree) -> bool
    ensures { result ≡ is_block (plain_tree tree.now) }
{
    match tree {
        Tree::List(list) => !list.items().is_empty(),
        Tree::Map(map) => !map.pairs().is_empty(),
        _ => false,
    }
}

/// Writes a number and ends the line.
fn push_number(alloc: Global, out: &mut String, n: i64) -> Result<(), AllocError>
    ensures { OnOk result (string_bytes out.new
        ≡ string_bytes out.old ++ signed_decimal n ++ codes "\n") }
{
    push_line(out, n.to_string(alloc)?.as_str())
}

/// Writes a text and ends the line.
fn push_line(out: &mut String, s: &str) -> Result<(), AllocError>
    ensures { OnOk result (string_bytes out.new ≡ string_bytes out.old ++ s.now ++ codes "\n") }
{
    out.push_str(s)?;
    out.push('\n')
}

fn push_spaces(out: &mut String, count: u32) -> Result<(), AllocError>
    ensures { OnOk result (string_bytes out.new ≡ string_bytes out.old ++ replicate count space) }
{
    for done in 0..count {
        out.push(' ')?;
    }
    Ok(())
}
