// Long sources in YAML: how much is read of them.
use crate::texts::TOO_LONG;
use crate::yaml::told;
use std::alloc::Global;
use wf_cases::{Case, CaseFault, text_of};
use wf_tree::Tree;
use wf_value::Value;
use wf_yaml::read_yaml;

/// How much a source's tree has, and its last item or the value of its last key; or its first fault.
pub(crate) fn long(alloc: Global, items: &[Value]) -> Result<String, CaseFault> {
    let source = text_of(alloc, items)?;
    measured(alloc, source.as_str())
}

fn measured(alloc: Global, source: &str) -> Result<String, CaseFault> {
    if source.len() > TOO_LONG {
        return Err(CaseFault::NoCase);
    }
    match read_yaml(alloc, source) {
        Ok(tree) => measured_tree(alloc, &tree),
        Err(fault) => told(alloc, fault),
    }
}

fn measured_tree(alloc: Global, tree: &Tree) -> Result<String, CaseFault> {
    let mut text = String::new(alloc);
    measure(&mut text, tree)?;
    if let Some(last) = last_of(tree) {
        text.push_str(", the last one ")?;
        measure(&mut text, last)?;
    }
    Ok(text)
}

fn last_of(tree: &Tree) -> Option<&Tree> {
    match tree {
        Tree::List(list) => list.items().last(),
        Tree::Map(map) => match map.pairs() {
            [.., pair] => Some(&pair.1),
            [] => None,
        },
        _ => None,
    }
}

fn measure(out: &mut String, tree: &Tree) -> Result<(), CaseFault> {
    match tree {
        Tree::Null => Ok(out.push_str("null")?),
        Tree::Text(text) => Ok(write!(out, "a text of {}", text.as_str().len())?),
        Tree::List(list) => Ok(write!(out, "a list of {}", list.items().len())?),
        Tree::Map(map) => Ok(write!(out, "a map of {}", map.pairs().len())?),
        _ => Ok(out.push_str("another scalar")?),
    }
}

/// A source of many keys, measured: a text, then numbers in a base and with so many digits, from one on and so many of them, each by a
/// step from the one before it and with a text behind it, and a last text.
pub(crate) fn counted(alloc: Global, case: &Case<'_>) -> Result<String, CaseFault> {
    let mut source = String::new(alloc);
    write_source(&mut source, case)?;
    let mut shown = String::new(alloc);
    show_source(alloc, &mut shown, source.as_str())?;
    Ok(shown)
}

fn show_source(alloc: Global, shown: &mut String, source: &str) -> Result<(), CaseFault> {
    let text = measured(alloc, source)?;
    Ok(write!(shown, "{} bytes: {text}", source.len())?)
}

fn write_source(source: &mut String, case: &Case<'_>) -> Result<(), CaseFault> {
    source.push_str(case.text(0)?)?;
    let base = small(case.number(1)?)?;
    let width = small(case.number(2)?)?;
    let (start, count, step) = (case.number(3)?, case.number(4)?, case.number(5)?);
    for i in 0..count {
        let number = small(start.saturating_add(i.saturating_mul(step)))?;
        push_digits(source, base, width, number)?;
        source.push_str(case.text(6)?)?;
    }
    Ok(source.push_str(case.text(7)?)?)
}

fn small(number: i64) -> Result<u32, CaseFault> {
    match u32::try_from(number) {
        Ok(number) => Ok(number),
        Err(_) => Err(CaseFault::NoCase),
    }
}

/// Adds the last digits of a number, so many of them.
fn push_digits(text: &mut String, base: u32, width: u32, number: u32) -> Result<(), CaseFault> {
    if base < 2 || 36 < base {
        return Err(CaseFault::NoCase);
    }
    for i in 0..width {
        let mut left = number;
        for _ in i + 1..width {
            left /= base;
        }
        match char::from_digit(left % base, base) {
            Some(digit) => text.push(digit)?,
            None => return Err(CaseFault::NoCase),
        }
    }
    Ok(())
}
