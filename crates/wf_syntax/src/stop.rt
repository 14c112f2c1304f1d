// What stops the building of a part.
use wf_syntax_rules::SyntaxKind;

/// A fault, with the way from the part to it; or want of memory.
pub(crate) type Stop = wf_value::Stop<SyntaxKind>;
