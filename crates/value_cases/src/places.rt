// Paths.
use std::alloc::Global;
use wf_cases::CaseFault;
use wf_value::{Path, PathPart, Value};

/// A path: how many steps it has, and what is printed of it. A text is a key, and a list of one text is an index.
pub(crate) fn path(alloc: Global, items: &[Value]) -> Result<String, CaseFault> {
    let mut path = Path::new(alloc)?;
    for item in items {
        path.push(part(item)?)?;
    }
    let text = path.print(alloc)?;
    Ok(format!(in alloc; "{} {}", path.items().len(), text.as_str())?)
}

fn part(item: &Value) -> Result<PathPart, CaseFault> {
    match item {
        Value::Text(key) => Ok(PathPart::Key(key.copy()?)),
        Value::List(index) => Ok(PathPart::Index(index_of(index.items())?)),
        _ => Err(CaseFault::NoCase),
    }
}

fn index_of(items: &[Value]) -> Result<u64, CaseFault> {
    let [Value::Text(digits)] = items else {
        return Err(CaseFault::NoCase);
    };
    match digits.as_str().parse::<u64>() {
        Ok(index) => Ok(index),
        Err(_) => Err(CaseFault::NoCase),
    }
}
