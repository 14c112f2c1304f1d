// Sources by their bytes.
use crate::texts::word;
use std::alloc::Global;
use wf_cases::{CaseFault, bytes_of, quoted, text_of};
use wf_source::{SourceFault, read_source, read_tree};
use wf_value::{Text, Value};
use wf_yaml_write::write_yaml;

/// The layout of a source's tree, or why it is refused.
pub(crate) fn source(alloc: Global, items: &[Value]) -> Result<String, CaseFault> {
    let bytes = joined(alloc, items)?;
    match read_tree(alloc, bytes.as_slice()) {
        Ok(tree) => {
            let text = write_yaml(alloc, &tree)?;
            quoted(alloc, text.as_str())
        }
        Err(fault) => told(alloc, fault),
    }
}

/// Whether a source is a program, or why it is refused.
pub(crate) fn program(alloc: Global, items: &[Value]) -> Result<String, CaseFault> {
    let bytes = joined(alloc, items)?;
    match read_source(alloc, bytes.as_slice()) {
        Ok(_) => word(alloc, "program"),
        Err(fault) => told(alloc, fault),
    }
}

/// The bytes that some pieces in hex are.
fn joined(alloc: Global, items: &[Value]) -> Result<Vec<u8>, CaseFault> {
    let digits = text_of(alloc, items)?;
    bytes_of(alloc, &Value::Text(Text::new(alloc, digits.as_str())?))
}

fn told(alloc: Global, fault: SourceFault) -> Result<String, CaseFault> {
    match fault {
        SourceFault::Refused(refusal) => {
            let place = refusal.place.print(alloc)?;
            Ok(format!(in alloc; "{} at {}", refusal.kind.name(), place.as_str())?)
        }
        SourceFault::OutOfMemory => Err(CaseFault::OutOfMemory),
    }
}
