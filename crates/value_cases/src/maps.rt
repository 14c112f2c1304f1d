// Maps, and lists of pairs.
use crate::json::written_if;
use crate::lists::two;
use std::alloc::Global;
use wf_cases::{CaseFault, json_of, quoted};
use wf_value::{Map, Pairs, Text, Value};

/// What each of some calls of one map answers, from the empty map on.
pub(crate) fn changed(alloc: Global, calls: &[Value]) -> Result<String, CaseFault> {
    let mut map = Map::new(alloc)?;
    let mut answers = String::new(alloc);
    for call in calls {
        if !answers.is_empty() {
            answers.push(' ')?;
        }
        answers.push_str(called(alloc, &mut map, call)?.as_str())?;
    }
    Ok(answers)
}

/// What a call of a map answers.
fn called(alloc: Global, map: &mut Map, call: &Value) -> Result<String, CaseFault> {
    let Value::List(call) = call else {
        return Err(CaseFault::NoCase);
    };
    let [Value::Text(word), rest @ ..] = call.items() else {
        return Err(CaseFault::NoCase);
    };
    match (word.as_str(), rest) {
        (word, [Value::Text(key), value]) => {
            let old = given(map, word, key, value.copy(alloc)?)?;
            written_if(alloc, old.as_ref())
        }
        ("remove", [Value::Text(key)]) => {
            let old = map.remove(key.as_str())?;
            written_if(alloc, old.as_ref())
        }
        ("get", [Value::Text(key)]) => written_if(alloc, map.get(key.as_str())),
        ("entry", [Value::Int(number)]) => entry(alloc, map, *number),
        ("size", []) => Ok(format!(in alloc; "{}", map.size())?),
        _ => Err(CaseFault::NoCase),
    }
}

/// A map is given a value at a key, and gives the old one.
fn given(map: &mut Map, word: &str, key: &Text, value: Value) -> Result<Option<Value>, CaseFault> {
    match word {
        "insert" => Ok(map.insert(key.copy()?, value)?),
        "put" => Ok(map.put(key, value)?),
        _ => Err(CaseFault::NoCase),
    }
}

/// The pair of a number, from 0 on.
fn entry(alloc: Global, map: &Map, number: i64) -> Result<String, CaseFault> {
    let Ok(number) = usize::try_from(number) else {
        return Err(CaseFault::NoCase);
    };
    match map.entry(number) {
        Some((key, value)) => {
            let key = quoted(alloc, key)?;
            let value = json_of(alloc, value)?;
            Ok(format!(in alloc; "{key}:{value}")?)
        }
        None => Ok(String::from_str(alloc, "none")?),
    }
}

/// A map is copied, and the copy is changed: a value is put at a key, or a key is taken away where no value stands behind it.
pub(crate) fn copied(alloc: Global, items: &[Value]) -> Result<String, CaseFault> {
    let [value, Value::Text(key), rest @ ..] = items else {
        return Err(CaseFault::NoCase);
    };
    let mut copy = value.copy(alloc)?;
    let Value::Map(map) = &mut copy else {
        return Err(CaseFault::NoCase);
    };
    match rest {
        [item, ..] => {
            map.insert(key.copy()?, item.copy(alloc)?)?;
        }
        [] => {
            map.remove(key.as_str())?;
        }
    }
    two(alloc, value, &copy)
}

/// A list of pairs of texts: how many there are, and each as `KEY=VALUE`.
pub(crate) fn pairs(alloc: Global, items: &[Value]) -> Result<String, CaseFault> {
    let pairs = pairs_of(alloc, items)?;
    let mut shown = format!(in alloc; "{}", pairs.items().len())?;
    for pair in pairs.items() {
        let text = format!(in alloc; " {}={}", pair.0.as_str(), pair.1.as_str())?;
        shown.push_str(text.as_str())?;
    }
    Ok(shown)
}

fn pairs_of(alloc: Global, items: &[Value]) -> Result<Pairs, CaseFault> {
    let mut pairs = Pairs::new(alloc);
    for item in items {
        let (key, value) = pair_of(item)?;
        pairs.push(key.copy()?, value.copy()?)?;
    }
    Ok(pairs)
}

fn pair_of(item: &Value) -> Result<(&Text, &Text), CaseFault> {
    let Value::List(pair) = item else {
        return Err(CaseFault::NoCase);
    };
    match pair.items() {
        [Value::Text(key), Value::Text(value)] => Ok((key, value)),
        _ => Err(CaseFault::NoCase),
    }
}
