// Whether a source is accepted.
ghost use Rattle.std.specs.Prelude.{◌≤◌};
ghost use Rattle.wf_cli.specs.Said.{SaysChecked};

use crate::end::{Said, Silence};
use std::alloc::Global;
use wf_host::{Source, read_up_to};
use wf_source::{SOURCE_LIMIT, read_source};

/// Reads the source, and tells that the checker accepts it, or why it is refused.
pub(crate) fn check<S: Source>(alloc: Global, source: &mut S) -> Result<Said, Silence>
    ensures says { SaysChecked (S.left source.old) (S.faults source.old) (S.faults source.new)
        result }
    ensures reads { S.faults source.old ≤ S.faults source.new }
{
    let bytes = read_up_to(alloc, source, SOURCE_LIMIT + 1)?;
    match read_source(alloc, bytes.as_slice()) {
        Ok(_) => Ok(Said::report(alloc, "accepted\n")?),
        Err(fault) => Said::of_source(alloc, fault),
    }
}
