// The table `check`: what the checker says of a program.
use crate::trees::tree_of;
use std::alloc::Global;
use wf_cases::CaseFault;
use wf_check::{CheckFault, check};
use wf_syntax::build;

/// `accepted`, or the first fault with its place.
pub(crate) fn said(alloc: Global, source: &str) -> Result<String, CaseFault> {
    let Ok(program) = build(alloc, &tree_of(alloc, source)?) else {
        return Err(CaseFault::NoCase);
    };
    match check(alloc, program) {
        Ok(_) => Ok(String::from_str(alloc, "accepted")?),
        Err(CheckFault::Refused(kind, path)) => {
            let place = path.print(alloc)?;
            Ok(format!(in alloc; "{kind} at {}", place.as_str())?)
        }
        Err(CheckFault::OutOfMemory) => Err(CaseFault::OutOfMemory),
    }
}
