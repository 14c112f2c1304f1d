// The faults of maps of the language.
ghost use Rattle.std.specs.Prelude.{◌≡◌, map};
ghost use Rattle.wf_syntax_rules.specs.Rules as rules;
ghost use Rattle.wf_tree.specs.Trees.{pairs_of};

use wf_syntax_rules::SyntaxKind;
use wf_syntax_words::{has, has_all, has_only, has_only_of_form, is_empty};
use wf_tree::TreeMap;

/// The fault of a map that must have some keys and may have others.
pub(crate) fn map_fault(fields: &TreeMap, musts: &[&str], mays: &[&str]) -> Option<SyntaxKind>
    ensures { result ≡ rules.map_fault (map (λ k. k.now) musts.now) (map (λ k. k.now) mays.now)
        (pairs_of fields.now) }
{
    if !has_only(fields, musts, mays) {
        Some(SyntaxKind::UnknownField)
    } else if !has_all(fields, musts) {
        Some(SyntaxKind::MissingField)
    } else {
        None
    }
}

/// The fault of a `for`.
pub(crate) fn loop_fault(fields: &TreeMap) -> Option<SyntaxKind>
    ensures { result ≡ rules.loop_fault (pairs_of fields.now) }
{
    let list = has(fields, "in");
    let range = has(fields, "range");
    if !has_only(fields, &["in", "range"], &["steps", "value", "index"]) || list && range {
        Some(SyntaxKind::UnknownField)
    } else if !(list || range) || !has_all(fields, &["steps", "value"]) {
        Some(SyntaxKind::MissingField)
    } else {
        None
    }
}

/// The fault of a `parallel`.
pub(crate) fn parallel_fault(fields: &TreeMap) -> Option<SyntaxKind>
    ensures { result ≡ rules.parallel_fault (pairs_of fields.now) }
{
    let branches = has(fields, "branches");
    let repeated = has(fields, "for");
    let mays = ["concurrency_limit", "exception_policy", "shared"];
    if !has_only(fields, &["branches", "for"], &mays) || branches && repeated {
        Some(SyntaxKind::UnknownField)
    } else if !(branches || repeated) {
        Some(SyntaxKind::MissingField)
    } else {
        None
    }
}

/// The fault of the map of a `try`.
pub(crate) fn try_fault(fields: &TreeMap) -> Option<SyntaxKind>
    ensures { result ≡ rules.try_fault (pairs_of fields.now) }
{
    if has(fields, "call") {
        map_fault(fields, &["call"], &["args", "result"])
    } else {
        map_fault(fields, &["steps"], &[])
    }
}

/// The fault of the fields of a step.
pub(crate) fn step_fault(fields: &TreeMap) -> Option<SyntaxKind>
    ensures { result ≡ rules.step_fault (pairs_of fields.now) }
{
    if !has_only_of_form(fields, &[]) {
        Some(SyntaxKind::UnknownField)
    } else if is_empty(fields) {
        Some(SyntaxKind::MissingField)
    } else {
        None
    }
}

/// The fault of the fields of an arm.
pub(crate) fn arm_fault(fields: &TreeMap) -> Option<SyntaxKind>
    ensures { result ≡ rules.arm_fault (pairs_of fields.now) }
{
    if !has_only_of_form(fields, &["condition"]) {
        Some(SyntaxKind::UnknownField)
    } else if !has(fields, "condition") {
        Some(SyntaxKind::MissingField)
    } else {
        None
    }
}
