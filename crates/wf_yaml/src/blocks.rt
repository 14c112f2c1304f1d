// Block lists and block maps, in each other.
ghost use Rattle.std.specs.Prelude.{◌≡◌, ◌+◌, ◌-◌, ◌<◌, ◌≤◌, ◌++◌, ◌∷◌, [], ℕ, List, Result, IfOk, option_map};
ghost use Rattle.wf_value.specs.Maps.{with_value};
ghost use Rattle.wf_tree.specs.Trees as trees;
ghost use Rattle.wf_tree.specs.Plain.{plain_tree};
ghost use Rattle.wf_yaml_line.specs.declared.fault.Fault.{Fault};
ghost use Rattle.wf_yaml_line.specs.Fault.{noted, both};
ghost use Rattle.wf_yaml_line.specs.Keys.{key_of};
ghost use Rattle.wf_yaml_line.specs.Scalars as scalars;
ghost use Rattle.wf_yaml_line.specs.Marks.{is_one_of};
ghost use Rattle.wf_yaml_line.specs.Views.{ReadsAs, so_far, key_view, keys_of};
ghost use Rattle.wf_yaml.specs.Rows as lines;
ghost use Rattle.wf_yaml.specs.Blocks as blocks;
ghost use Rattle.wf_yaml.specs.Views.{see_all, see_head, see_pair};

use crate::cuts::{body_len, counting, head_of, misplaced};
use crate::deep::deep;
use crate::rows::{Head, Row};
use crate::scalars::scalar;
use crate::starts::{has_tab_block, is_item, is_pair, starts_scalar, starts_tab};
use std::alloc::Global;
use wf_tree::{PairsSoFar, Tree, TreeList};
use wf_value::{OutOfMemory, Text};
use wf_yaml_flow::one_line;
use wf_yaml_line::{
    Fault, Key, KeySet, Kind, YamlFault, behind_first, both_noted, ends_line, is_delay_key, least,
    noting, read_key, refuse_if, skip_blanks,
};

/// The node that begins at this head, with the lines behind it. The floor is the least indentation
/// inside the block around, the depth is that of a list or a map here, and `delay` tells that the
/// node is the value of a key that may have a decimal.
#[cycle(node)]
pub(crate) fn node(
    alloc: Global,
    floor: usize,
    depth: u32,
    delay: bool,
    head: Head<'_>,
    behind: &[Row],
) -> Result<Tree, YamlFault>
    requires { depth ≤ 101 }
    ensures { ReadsAs plain_tree result
        (blocks.node_at (blocks.inside (101 - depth)) floor depth delay
        (see_head head.entry ∷ see_all behind.now)) }
{
    if starts_tab(head.text) {
        return Err(YamlFault::Refused(Fault {
            line: head.number,
            kind: Kind::Tab,
        }));
    }
    if is_item(head.text) {
        return block_list(alloc, depth, head, behind);
    }
    let has_key = is_pair(alloc, head.text)?;
    if has_key {
        return block_map(alloc, depth, head, behind);
    }
    scalar(alloc, floor, depth, delay, head.number, head.text, behind)
}

#[cycle(node)]
fn block_map(alloc: Global, depth: u32, head: Head<'_>, behind: &[Row]) -> Result<Tree, YamlFault>
    requires { depth ≤ 101 }
    ensures { ReadsAs plain_tree result
        (blocks.block_map (blocks.inside (101 - depth)) depth (see_head head.entry)
        (see_all behind.now)) }
{
    let map = map_entries(alloc, depth, head, behind);
    noting(refuse_if(depth > 100, head.number, Kind::TooDeep), map)
}

#[cycle(node)]
fn map_entries<'a>(
    alloc: Global,
    depth: u32,
    first: Head<'a>,
    behind: &'a [Row],
) -> Result<Tree, YamlFault>
    requires { depth ≤ 101 }
    ensures { ReadsAs plain_tree result
        (blocks.map_of_entries (blocks.inside (101 - depth)) depth (see_head first.entry)
        (see_all behind.now)) }
{
    let mut pairs = PairsSoFar::new(alloc)?;
    let mut keys = KeySet::new(alloc)?;
    let mut found: Option<Fault> = None;
    let mut head = first;
    let mut rest = behind;
    'pairs: loop {
        let count = body_len(true, first.column, rest);
        let (body, next) = rest.split_at(count);
        let key = read_key(alloc, head.text)?;
        let entry = map_entry(alloc, first.column, depth, &keys, head, body, key.as_ref());
        found = add_pair(&mut pairs, found, entry)?;
        add_key(&mut keys, key)?;
        match next {
            [row, more @ ..] => {
                head = head_of(row);
                rest = more;
            }
            [] => break,
        }
    }
    match found {
        Some(fault) => Err(YamlFault::Refused(fault)),
        None => Ok(Tree::Map(pairs.into_map()?)),
    }
}

/// Adds the key of an entry, if it has one.
fn add_key(keys: &mut KeySet, key: Option<Key<'_>>) -> Result<(), OutOfMemory>
    ensures { IfOk result (λ _. (k : List ℕ)
        → is_one_of (keys_of keys.new) k
        ≡ is_one_of (blocks.with_key (option_map key_view key.entry) (keys_of keys.old)) k) }
{
    match key {
        Some(key) => keys.add(key.text),
        None => Ok(()),
    }
}

/// Adds a pair, or notes its fault.
fn add_pair(
    pairs: &mut PairsSoFar,
    found: Option<Fault>,
    entry: Result<(Text, Tree), YamlFault>,
) -> Result<Option<Fault>, OutOfMemory>
    ensures { (read : Result (List ℕ × trees.Tree) Fault) → ReadsAs see_pair entry read
        → IfOk result (λ f. so_far pairs.new f
        ≡ both (λ ps p. with_value p.0 p.1 ps) (so_far pairs.old found) read) }
{
    match entry {
        Ok((key, tree)) => {
            pairs.insert(key, tree)?;
            Ok(found)
        }
        Err(YamlFault::OutOfMemory) => Err(OutOfMemory),
        Err(YamlFault::Refused(fault)) => Ok(Some(least(found, fault))),
    }
}

/// An entry of a map with this indentation, of which the keys stand before.
#[cycle(node)]
fn map_entry(
    alloc: Global,
    indent: usize,
    depth: u32,
    keys: &KeySet,
    head: Head<'_>,
    body: &[Row],
    key: Option<&Key<'_>>,
) -> Result<(Text, Tree), YamlFault>
    requires deep { depth ≤ 101 }
    requires block { indent < 4294967296 }
    requires key { option_map (λ k. key_view k.now) key ≡ key_of head.text.now }
    ensures { ReadsAs see_pair result
        (blocks.map_entry (blocks.inside (101 - depth)) indent depth (keys_of keys.now)
        (see_head head.entry, see_all body.now)) }
{
    if starts_tab(head.text) || head.column != indent {
        return Err(YamlFault::Refused(misplaced(head.number, head.text)));
    }
    match key {
        Some(key) => {
            let fault = pair_faults(head.number, keys, key);
            let tree = pair_value(alloc, indent, depth, head.number, key, body);
            keyed(fault, key, tree)
        }
        None => stray(alloc, depth, head.number, head.text),
    }
}

/// A key with a fault by itself, or one that stands before.
fn pair_faults(number: u32, keys: &KeySet, key: &Key<'_>) -> Option<Fault>
    ensures { noted result ≡ blocks.pair_faults number (keys_of keys.now) (key_view key.now) }
{
    both_noted(
        key.refusal(number),
        refuse_if(keys.holds(key.text.as_str()), number, Kind::DoubleKey),
    )
}

/// The value of a pair in a map with this indentation.
#[cycle(node)]
fn pair_value(
    alloc: Global,
    indent: usize,
    depth: u32,
    number: u32,
    key: &Key<'_>,
    body: &[Row],
) -> Result<Tree, YamlFault>
    requires deep { depth ≤ 101 }
    requires block { indent < 4294967296 }
    ensures { ReadsAs plain_tree result
        (blocks.pair_value (blocks.inside (101 - depth)) indent depth
        (scalars.is_delay_key (key_view key.now).text) number (key_view key.now).rest
        (see_all body.now)) }
{
    let delay = is_delay_key(key.text.as_str());
    if ends_line(key.rest) {
        return block(alloc, indent, depth, delay, body);
    }
    let text = skip_blanks(key.rest);
    scalar(alloc, indent + 1, depth + 1, delay, number, text, body)
}

/// A value with its key, under what was noted.
fn keyed(
    fault: Option<Fault>,
    key: &Key<'_>,
    tree: Result<Tree, YamlFault>,
) -> Result<(Text, Tree), YamlFault>
    ensures { (read : Result trees.Tree Fault) → ReadsAs plain_tree tree read
        → ReadsAs see_pair result (both (λ _ t. ((key_view key.now).text, t)) (noted fault) read) }
{
    match noting(fault, tree) {
        Ok(tree) => Ok((key.text.copy()?, tree)),
        Err(fault) => Err(fault),
    }
}

/// A line at a map's indentation that is neither a pair nor an item.
fn stray(alloc: Global, depth: u32, number: u32, text: &[char]) -> Result<(Text, Tree), YamlFault>
    requires { depth ≤ 102 }
    ensures { ReadsAs see_pair result (blocks.stray depth number text.now) }
{
    let fault = Fault {
        line: number,
        kind: Kind::Unsupported,
    };
    if starts_scalar(text) {
        return Err(YamlFault::Refused(fault));
    }
    match one_line(alloc, false, number, depth, text) {
        Ok(_) => Err(YamlFault::Refused(fault)),
        Err(YamlFault::OutOfMemory) => Err(YamlFault::OutOfMemory),
        Err(YamlFault::Refused(f)) => Err(YamlFault::Refused(least(Some(f), fault))),
    }
}

#[cycle(node)]
fn block_list(alloc: Global, depth: u32, head: Head<'_>, behind: &[Row]) -> Result<Tree, YamlFault>
    requires { depth ≤ 101 }
    ensures { ReadsAs plain_tree result
        (blocks.block_list (blocks.inside (101 - depth)) depth (see_head head.entry)
        (see_all behind.now)) }
{
    let list = list_entries(alloc, depth, head, behind);
    noting(refuse_if(depth > 100, head.number, Kind::TooDeep), list)
}

#[cycle(node)]
fn list_entries<'a>(
    alloc: Global,
    depth: u32,
    first: Head<'a>,
    behind: &'a [Row],
) -> Result<Tree, YamlFault>
    requires { depth ≤ 101 }
    ensures { ReadsAs plain_tree result
        (blocks.list_of_entries (blocks.inside (101 - depth)) depth (see_head first.entry)
        (see_all behind.now)) }
{
    let mut items = TreeList::new(alloc)?;
    let mut found: Option<Fault> = None;
    let mut head = first;
    let mut rest = behind;
    'items: loop {
        let count = body_len(false, first.column, rest);
        let (body, next) = rest.split_at(count);
        let entry = list_entry(alloc, first.column, depth, head, body);
        found = add_item(&mut items, found, entry)?;
        match next {
            [row, more @ ..] => {
                head = head_of(row);
                rest = more;
            }
            [] => break,
        }
    }
    match found {
        Some(fault) => Err(YamlFault::Refused(fault)),
        None => Ok(Tree::List(items)),
    }
}

/// Adds an item, or notes its fault.
fn add_item(
    items: &mut TreeList,
    found: Option<Fault>,
    entry: Result<Tree, YamlFault>,
) -> Result<Option<Fault>, OutOfMemory>
    ensures { (read : Result trees.Tree Fault) → ReadsAs plain_tree entry read
        → IfOk result (λ f. so_far items.new f
        ≡ both (λ ts t. ts ++ t ∷ []) (so_far items.old found) read) }
{
    match entry {
        Ok(item) => {
            items.push(item)?;
            Ok(found)
        }
        Err(YamlFault::OutOfMemory) => Err(OutOfMemory),
        Err(YamlFault::Refused(fault)) => Ok(Some(least(found, fault))),
    }
}

/// An entry of a list with this indentation.
#[cycle(node)]
fn list_entry(
    alloc: Global,
    indent: usize,
    depth: u32,
    head: Head<'_>,
    body: &[Row],
) -> Result<Tree, YamlFault>
    requires deep { depth ≤ 101 }
    requires block { indent < 4294967296 }
    ensures { ReadsAs plain_tree result
        (blocks.list_entry (blocks.inside (101 - depth)) indent depth
        (see_head head.entry, see_all body.now)) }
{
    if starts_tab(head.text) || head.column != indent || !is_item(head.text) {
        return Err(YamlFault::Refused(misplaced(head.number, head.text)));
    }
    let rest = behind_first(head.text);
    if ends_line(rest) {
        return block(alloc, indent, depth, false, body);
    }
    let text = skip_blanks(rest);
    let is_refused = has_tab_block(alloc, rest, text)?;
    if is_refused {
        return Err(YamlFault::Refused(Fault {
            line: head.number,
            kind: Kind::Tab,
        }));
    }
    if depth > 100 {
        return deep(alloc, depth + 1, head.number, text);
    }
    let content = Head {
        number: head.number,
        column: indent + 1 + (rest.len() - text.len()),
        text,
    };
    node(alloc, indent + 1, depth + 1, false, content, body)
}

/// The block behind an item or a key of a block with this indentation.
#[cycle(node)]
fn block(
    alloc: Global,
    indent: usize,
    depth: u32,
    delay: bool,
    body: &[Row],
) -> Result<Tree, YamlFault>
    requires deep { depth ≤ 101 }
    requires block { indent < 4294967296 }
    ensures { ReadsAs plain_tree result
        (blocks.inside (101 - depth) (indent + 1) (depth + 1) delay
        (lines.counting (see_all body.now))) }
{
    match counting(body) {
        [] => Ok(Tree::Null),
        [row, behind @ ..] => if depth > 100 {
            deep(alloc, depth + 1, row.number, &row.text)
        } else {
            node(alloc, indent + 1, depth + 1, delay, head_of(row), behind)
        },
    }
}
