// Copies of what a node takes from its form. Texts and values are shared.
ghost use Rattle.std.specs.Prelude.{◌≡◌, IfOk, map};
ghost use Rattle.wf_ast.specs.View.{param_view, params_view, policy_option_view, policy_view, predicate_view, texts_view};

use std::alloc::Global;
use wf_ast::{Param, Params, Policy, Predicate, Texts};
use wf_name::Name;
use wf_value::{OutOfMemory, Text};

/// A text that may be absent.
pub(crate) fn text(from: &Option<Text>) -> Result<Option<Text>, OutOfMemory>
    ensures { IfOk result (λ copy. copy ≡ from.now) }
{
    match from {
        None => Ok(None),
        Some(x) => Ok(Some(x.copy()?)),
    }
}

/// A name that may be absent.
pub(crate) fn name(from: &Option<Text>) -> Result<Option<Name>, OutOfMemory>
    ensures { IfOk result (λ copy. copy ≡ from.now) }
{
    match from {
        None => Ok(None),
        Some(x) => Ok(Some(Name::of(x.copy()?))),
    }
}

/// The texts of a list.
pub(crate) fn texts(alloc: Global, from: &Texts) -> Result<Texts, OutOfMemory>
    ensures { IfOk result (λ copy. texts_view copy ≡ texts_view from.now) }
{
    let mut copy = Texts::new(alloc)?;
    for x in from.items() {
        copy.push(x.copy()?)?;
    }
    Ok(copy)
}

/// The parameters of a workflow.
pub(crate) fn params(alloc: Global, from: &Params) -> Result<Params, OutOfMemory>
    ensures { IfOk result (λ copy. params_view copy ≡ params_view from.now) }
{
    let mut copy = Params::new(alloc)?;
    for x in from.items() {
        copy.push(param(alloc, x)?)?;
    }
    Ok(copy)
}

/// A parameter.
fn param(alloc: Global, from: &Param) -> Result<Param, OutOfMemory>
    ensures { IfOk result (λ copy. param_view copy ≡ param_view from.now) }
{
    let name = from.name.copy()?;
    match &from.default {
        None => Ok(Param {
            name,
            default: None,
        }),
        Some(v) => Ok(Param {
            name,
            default: Some(v.copy(alloc)?),
        }),
    }
}

/// A policy that may be absent.
pub(crate) fn policy(from: &Option<Policy>) -> Result<Option<Policy>, OutOfMemory>
    ensures { IfOk result (λ copy. policy_option_view copy ≡ policy_option_view from.now) }
{
    match from {
        None => Ok(None),
        Some(x) => Ok(Some(Policy {
            predicate: predicate(&x.predicate)?,
            max_retries: x.max_retries,
            backoff: x.backoff,
        })),
    }
}

/// A predicate.
fn predicate(from: &Predicate) -> Result<Predicate, OutOfMemory>
    ensures { IfOk result (λ copy. predicate_view copy ≡ predicate_view from.now) }
{
    match from {
        Predicate::Always => Ok(Predicate::Always),
        Predicate::Never => Ok(Predicate::Never),
        Predicate::Default(kind) => Ok(Predicate::Default(*kind)),
        Predicate::Flow(name) => Ok(Predicate::Flow(name.copy()?)),
    }
}
