// The lines of a source.
use crate::texts::{TOO_LONG, word};
use std::alloc::Global;
use wf_cases::{Case, CaseFault, quoted, text_of};
use wf_span::lines;
use wf_value::Value;

/// A source's line of that index, from 0 on: its number, its place, its indentation and its body.
pub(crate) fn line(alloc: Global, case: &Case<'_>) -> Result<String, CaseFault> {
    let source = case.text(0)?;
    let Ok(index) = usize::try_from(case.number(1)?) else {
        return Err(CaseFault::NoCase);
    };
    if source.len() > TOO_LONG {
        return Err(CaseFault::NoCase);
    }
    match lines(source).nth(index) {
        Some(line) => {
            let body = quoted(alloc, line.body)?;
            Ok(format!(in alloc; "{} {} {} {body}", line.number, line.at, line.indent)?)
        }
        None => word(alloc, "none"),
    }
}

/// A source's last line: its number, its place, its indentation and how many bytes its body has.
pub(crate) fn last(alloc: Global, items: &[Value]) -> Result<String, CaseFault> {
    let source = text_of(alloc, items)?;
    let source = source.as_str();
    if source.len() > TOO_LONG {
        return Err(CaseFault::NoCase);
    }
    match lines(source).last() {
        Some(line) => {
            let length = line.body.len();
            Ok(format!(in alloc; "{} {} {} {length}", line.number, line.at, line.indent)?)
        }
        None => word(alloc, "none"),
    }
}
