// What stops the checking of a node.
ghost use Rattle.wf_ast.specs.Blocks.{at_if};
ghost use Rattle.wf_ast.specs.Nodes.{below};
ghost use Rattle.wf_diagnostics.specs.Answers.{IsKeyed, IsRuleFault};
ghost use Rattle.wf_diagnostics.specs.Said.{as_said};

use crate::kind::CheckKind;
use std::alloc::Global;

/// A fault, with the way from the node to it; or want of memory.
pub type Stop = wf_value::Stop<CheckKind>;

/// What was found at a key, told from the map.
pub fn keyed(alloc: Global, key: &str, found: Result<(), Stop>) -> Result<(), Stop>
    ensures { IsKeyed key.now found result }
{
    match found {
        Ok(()) => Ok(()),
        Err(stop) => Err(stop.at_key(alloc, key)),
    }
}

/// A fault of the node itself, where it speaks.
pub fn speak(alloc: Global, kind: CheckKind, speaks: bool) -> Result<(), Stop>
    ensures { IsRuleFault result (λ path. as_said kind (at_if speaks path)) }
{
    if speaks {
        return Err(Stop::here(alloc, kind));
    }
    Ok(())
}

/// A fault of what stands at a key, where it speaks.
pub fn speak_at(alloc: Global, kind: CheckKind, speaks: bool, key: &str) -> Result<(), Stop>
    ensures { IsRuleFault result (λ path. as_said kind (at_if speaks (below path key.now))) }
{
    match speak(alloc, kind, speaks) {
        Ok(()) => Ok(()),
        Err(stop) => Err(stop.at_key(alloc, key)),
    }
}

/// A fault of what stands at a key in a map at a key, where it speaks.
pub fn speak_within(
    alloc: Global,
    kind: CheckKind,
    speaks: bool,
    outer: &str,
    key: &str,
) -> Result<(), Stop>
    ensures { IsRuleFault result (λ path. as_said kind
        (at_if speaks (below (below path outer.now) key.now))) }
{
    match speak_at(alloc, kind, speaks, key) {
        Ok(()) => Ok(()),
        Err(stop) => Err(stop.at_key(alloc, outer)),
    }
}

/// A fault of what stands at three keys in each other, where it speaks.
pub fn speak_deep(
    alloc: Global,
    kind: CheckKind,
    speaks: bool,
    outer: &str,
    inner: &str,
    key: &str,
) -> Result<(), Stop>
    ensures { IsRuleFault result (λ path. as_said kind
        (at_if speaks (below (below (below path outer.now) inner.now) key.now))) }
{
    match speak_within(alloc, kind, speaks, inner, key) {
        Ok(()) => Ok(()),
        Err(stop) => Err(stop.at_key(alloc, outer)),
    }
}
