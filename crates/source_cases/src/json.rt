// Sources in JSON.
use crate::texts::{push_quoted, word};
use std::alloc::Global;
use wf_cases::{CaseFault, quoted, text_of};
use wf_tree::{TreeFault, read_json};
use wf_value::{PathPart, Value};
use wf_yaml_write::write_yaml;

/// Whether a text is a tree, or why it is none.
pub(crate) fn tree(alloc: Global, items: &[Value]) -> Result<String, CaseFault> {
    let source = text_of(alloc, items)?;
    match read_json(alloc, source.as_str()) {
        Ok(_) => word(alloc, "tree"),
        Err(fault) => told(alloc, fault),
    }
}

/// The layout of the tree that a text says.
pub(crate) fn layout(alloc: Global, items: &[Value]) -> Result<String, CaseFault> {
    let source = text_of(alloc, items)?;
    match read_json(alloc, source.as_str()) {
        Ok(tree) => {
            let text = write_yaml(alloc, &tree)?;
            quoted(alloc, text.as_str())
        }
        Err(fault) => told(alloc, fault),
    }
}

fn told(alloc: Global, fault: TreeFault) -> Result<String, CaseFault> {
    match fault {
        TreeFault::NotJson => word(alloc, "NotJson at source"),
        TreeFault::TooDeep => word(alloc, "TooDeep at source"),
        TreeFault::Decimal(path) => {
            let place = path.print(alloc)?;
            Ok(format!(in alloc; "Decimal at {}", place.as_str())?)
        }
        TreeFault::OutOfMemory => Err(CaseFault::OutOfMemory),
    }
}

/// The steps that lead to the first decimal: how many there are, then each key and each index.
pub(crate) fn decimal(alloc: Global, items: &[Value]) -> Result<String, CaseFault> {
    let source = text_of(alloc, items)?;
    let mut shown = String::new(alloc);
    show_decimal(alloc, &mut shown, source.as_str())?;
    Ok(shown)
}

fn show_decimal(alloc: Global, shown: &mut String, source: &str) -> Result<(), CaseFault> {
    match read_json(alloc, source) {
        Err(TreeFault::Decimal(path)) => show_steps(alloc, shown, path.items()),
        _ => Err(CaseFault::NoCase),
    }
}

fn show_steps(alloc: Global, shown: &mut String, steps: &[PathPart]) -> Result<(), CaseFault> {
    write!(shown, "{}", steps.len())?;
    for step in steps {
        shown.push(' ')?;
        match step {
            PathPart::Key(key) => push_quoted(alloc, shown, key.as_str())?,
            PathPart::Index(index) => write!(shown, "{index}")?,
        }
    }
    Ok(())
}
