// The layout of a source's tree.
ghost use Rattle.std.specs.Prelude.{◌≡◌, ◌≤◌, ℕ, List, Ok, IfOk, IfErr, length};
ghost use Rattle.wf_cli.specs.Said.{SaysLayout};
ghost use Rattle.wf_host.specs.World.{Rose};

use crate::end::{Said, Silence};
use std::alloc::Global;
use wf_format_laws::read_trees_fit;
use wf_host::{Source, read_up_to};
use wf_source::{SOURCE_LIMIT, read_tree};
use wf_tree::reading_is_a_function;
use wf_yaml_write::write_yaml;

/// Reads the source, and lays its tree out. The tree is read back from its layout.
pub(crate) fn format<S: Source>(alloc: Global, source: &mut S) -> Result<Said, Silence>
    ensures says { SaysLayout (S.left source.old) (S.faults source.old) (S.faults source.new)
        result }
    ensures reads { S.faults source.old ≤ S.faults source.new }
{
    // laws that the proof uses
    read_trees_fit();
    reading_is_a_function();
    let bytes = read_up_to(alloc, source, SOURCE_LIMIT + 1)?;
    match read_tree(alloc, bytes.as_slice()) {
        Ok(tree) => {
            let text = write_yaml(alloc, &tree)?;
            Ok(Said::report(alloc, text.as_str())?)
        }
        Err(fault) => Said::of_source(alloc, fault),
    }
}
