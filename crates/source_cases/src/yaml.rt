// Sources in YAML, and what trees are written as.
ghost use Rattle.std.specs.Prelude.{◌≡◌, OnOk};
ghost use Rattle.wf_tree.specs.Plain.{plain_tree};
ghost use Rattle.wf_value.specs.Maps.{with_value};

use crate::kinds::name_of;
use crate::texts::TOO_LONG;
use std::alloc::Global;
use wf_cases::{Case, CaseFault, quoted, text_of};
use wf_format_laws::layout_of;
use wf_tree::{PairsSoFar, Tree};
use wf_value::{Text, Value};
use wf_yaml::{YamlFault, read_yaml};
use wf_yaml_write::write_yaml;

/// The layout of a source's tree, or its first fault.
pub(crate) fn layout(alloc: Global, items: &[Value]) -> Result<String, CaseFault> {
    let source = text_of(alloc, items)?;
    let source = source.as_str();
    if source.len() > TOO_LONG {
        return Err(CaseFault::NoCase);
    }
    match layout_of(alloc, source) {
        Ok(text) => quoted(alloc, text.as_str()),
        Err(fault) => told(alloc, fault),
    }
}

/// A fault, and its line.
pub(crate) fn told(alloc: Global, fault: YamlFault) -> Result<String, CaseFault> {
    match fault {
        YamlFault::Refused(fault) => {
            Ok(format!(in alloc; "{} at line {}", name_of(fault.kind), fault.line)?)
        }
        YamlFault::OutOfMemory => Err(CaseFault::OutOfMemory),
    }
}

/// What the tree of a source that has one is written as.
fn rewritten(alloc: Global, source: &str) -> Result<Text, CaseFault> {
    if source.len() > TOO_LONG {
        return Err(CaseFault::NoCase);
    }
    match read_yaml(alloc, source) {
        Ok(tree) => Ok(write_yaml(alloc, &tree)?),
        Err(YamlFault::Refused(_)) => Err(CaseFault::NoCase),
        Err(YamlFault::OutOfMemory) => Err(CaseFault::OutOfMemory),
    }
}

/// The layout of a source's tree, and whether the tree that is read from this layout has the same layout.
pub(crate) fn round_trip(alloc: Global, items: &[Value]) -> Result<String, CaseFault> {
    let source = text_of(alloc, items)?;
    let first = rewritten(alloc, source.as_str())?;
    compared(alloc, first.as_str())
}

/// A layout, and whether the tree that is read from it has the same.
fn compared(alloc: Global, first: &str) -> Result<String, CaseFault> {
    let second = rewritten(alloc, first)?;
    let same = first == second.as_str();
    let mut shown = quoted(alloc, first)?;
    write!(shown, " {same}")?;
    Ok(shown)
}

/// A text as a tree, and as the key of one pair: what each of the two is written as.
pub(crate) fn written_text(alloc: Global, text: &str) -> Result<String, CaseFault> {
    let alone = written_alone(alloc, text)?;
    let key = written_key(alloc, text)?;
    Ok(format!(in alloc; "{alone} {key}")?)
}

fn written_alone(alloc: Global, text: &str) -> Result<String, CaseFault> {
    let tree = Tree::Text(Text::new(alloc, text)?);
    let text = write_yaml(alloc, &tree)?;
    quoted(alloc, text.as_str())
}

fn written_key(alloc: Global, text: &str) -> Result<String, CaseFault> {
    let mut pairs = PairsSoFar::new(alloc)?;
    put(alloc, &mut pairs, text, Tree::Null)?;
    let text = write_yaml(alloc, &Tree::Map(pairs.into_map()?))?;
    quoted(alloc, text.as_str())
}

/// Puts a tree at a key.
fn put(alloc: Global, pairs: &mut PairsSoFar, key: &str, tree: Tree) -> Result<(), CaseFault>
    ensures { OnOk result (pairs.new ≡ with_value key.now (plain_tree tree) pairs.old) }
{
    let key = Text::new(alloc, key)?;
    match pairs.insert(key, tree) {
        Ok(_) => Ok(()),
        Err(_) => Err(CaseFault::OutOfMemory),
    }
}

/// A backoff whose first delay and multiplier are decimals: what it is written as.
pub(crate) fn written_delays(alloc: Global, case: &Case<'_>) -> Result<String, CaseFault> {
    let (delay, most, factor) = (case.text(0)?, case.number(1)?, case.text(2)?);
    let delay = Text::new(alloc, delay)?;
    let factor = Text::new(alloc, factor)?;
    let mut backoff = PairsSoFar::new(alloc)?;
    put(alloc, &mut backoff, "initial_delay", Tree::Decimal(delay))?;
    put(alloc, &mut backoff, "max_delay", Tree::Int(most))?;
    put(alloc, &mut backoff, "multiplier", Tree::Decimal(factor))?;
    let mut retry = PairsSoFar::new(alloc)?;
    put(alloc, &mut retry, "backoff", Tree::Map(backoff.into_map()?))?;
    let text = write_yaml(alloc, &Tree::Map(retry.into_map()?))?;
    quoted(alloc, text.as_str())
}
