// Assignments from a layer inside another one.
ghost use Rattle.wf_scope.specs.Layers.{IsLive, StayInnermost, StayLive};
ghost use Rattle.wf_scope.specs.Store.{layers_of};

use std::alloc::Global;
use wf_cases::{Case, CaseFault, json_of};
use wf_name::Name;
use wf_scope::{AssignFault, Chain, Key, Scopes};
use wf_value::{Raise, Text, Value};

/// What an assignment does: a case is the limit, the variables of a layer, those of a layer inside it, and the name, the places and the
/// value that are assigned from there. The answer is `ok` or the fault with its tag, what the name is then in the inner layer and in the
/// outer one, and the totals with the inner layer and without it.
pub(crate) fn answer(alloc: Global, case: &Case<'_>) -> Result<String, CaseFault> {
    let Ok(limit) = u64::try_from(case.number(0)?) else {
        return Err(CaseFault::NoCase);
    };
    let mut scopes = Scopes::new(alloc, limit)?;
    let outer = scopes.root()?;
    bind_all(alloc, &mut scopes, outer, case.item(1)?)?;
    let inner = scopes.inner(outer)?;
    bind_all(alloc, &mut scopes, inner, case.item(2)?)?;
    let told = assigned(alloc, &mut scopes, inner, case)?;
    let seen = seen(alloc, &scopes, inner, outer, case.text(3)?)?;
    let with = scopes.total();
    scopes.close(inner);
    let without = scopes.total();
    Ok(format!(in alloc; "{told} {seen} {with} {without}")?)
}

/// What the assignment of a case answers.
fn assigned(
    alloc: Global,
    scopes: &mut Scopes,
    c: Chain,
    case: &Case<'_>,
) -> Result<String, CaseFault>
    requires { IsLive c.number (layers_of scopes.old) }
    ensures stay { StayLive (layers_of scopes.old) (layers_of scopes.new) }
    ensures apart { StayInnermost (layers_of scopes.old) (layers_of scopes.new) }
{
    let path = path_of(alloc, case.item(4)?)?;
    let target = Name::new(alloc, case.text(3)?)?;
    let outcome = scopes.assign(c, &target, path.as_slice(), case.item(5)?.copy(alloc)?);
    told(alloc, outcome)
}

/// What a name is in the inner layer and in the outer one.
fn seen(
    alloc: Global,
    scopes: &Scopes,
    inner: Chain,
    outer: Chain,
    name: &str,
) -> Result<String, CaseFault>
    requires inner { IsLive inner.number (layers_of scopes.now) }
    requires outer { IsLive outer.number (layers_of scopes.now) }
{
    let name = Name::new(alloc, name)?;
    let inside = shown(alloc, scopes.look(inner, &name))?;
    let outside = shown(alloc, scopes.look(outer, &name))?;
    Ok(format!(in alloc; "{inside} {outside}")?)
}

/// Binds the pairs of a map, which must be within the limits.
fn bind_all(
    alloc: Global,
    scopes: &mut Scopes,
    c: Chain,
    variables: &Value,
) -> Result<(), CaseFault>
    requires { IsLive c.number (layers_of scopes.old) }
    ensures stay { StayLive (layers_of scopes.old) (layers_of scopes.new) }
    ensures apart { StayInnermost (layers_of scopes.old) (layers_of scopes.new) }
{
    let Value::Map(variables) = variables else {
        return Err(CaseFault::NoCase);
    };
    for i in 0..usize::MAX {
        let Some((name, value)) = variables.entry(i) else {
            return Ok(());
        };
        let value = value.copy(alloc)?;
        if scopes.bind(c, &Name::new(alloc, name)?, value).is_err() {
            return Err(CaseFault::NoCase);
        }
    }
    Ok(())
}

/// The places that a list of keys and indexes says.
fn path_of(alloc: Global, list: &Value) -> Result<Vec<Key>, CaseFault> {
    let Value::List(list) = list else {
        return Err(CaseFault::NoCase);
    };
    let mut path = Vec::new(alloc);
    for item in list.items() {
        let key = match item {
            Value::Text(name) => Key::Name(name.copy()?),
            Value::Int(index) => Key::At(*index),
            _ => return Err(CaseFault::NoCase),
        };
        let Ok(()) = path.push(key) else {
            return Err(CaseFault::OutOfMemory);
        };
    }
    Ok(path)
}

/// `ok`, or the fault and the tag that the program meets.
fn told(alloc: Global, outcome: Result<(), AssignFault>) -> Result<String, CaseFault> {
    let Err(fault) = outcome else {
        return Ok(String::from_str(alloc, "ok")?);
    };
    match fault.raise() {
        Raise::Error(tag) => {
            let name = tag.name();
            Ok(format!(in alloc; "{fault:?} {name}")?)
        }
        Raise::OutOfMemory => Err(CaseFault::OutOfMemory),
    }
}

/// A value as compact JSON, or `none`.
fn shown(alloc: Global, value: Option<&Value>) -> Result<String, CaseFault> {
    let Some(value) = value else {
        return Ok(String::from_str(alloc, "none")?);
    };
    json_of(alloc, value)
}
