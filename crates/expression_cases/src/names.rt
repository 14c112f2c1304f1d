// Visible names with their values, and the environment.
//
// Beside those that stand in a case as a map there may be a list of further ones, each `[name, kind, ..]`: `bytes` and
// their hex; `text` and its pieces; `nested` and how many lists stand in each other, with null in the innermost.
ghost use Rattle.std.specs.Prelude.{◌≡◌, option_map};
ghost use Rattle.wf_ast.specs.Apply.{env_in};

use std::alloc::Global;
use wf_cases::{Case, CaseFault, blob_of, text_of};
use wf_eval::Look;
use wf_name::Name;
use wf_value::{List, Map, Pairs, Text, Value};

/// Names with their values, the pairs of the environment, and the id.
#[derive(Drop)]
pub(crate) struct Names {
    map: Map,
    pairs: Pairs,
    id: Text,
}

impl Look for Names {
    ghost use Rattle.std.specs.Prelude.{[]};

    ghost sight = { λ n. record { names = n.map; env = n.pairs; id = n.id; base = [] } };

    fn look(&self, name: &Name) -> Option<&Value> {
        self.map.get(name.as_str())
    }

    fn env(&self, key: &str) -> Option<&str> {
        if key == "GOOGLE_CLOUD_WORKFLOW_EXECUTION_ID" {
            return Some(self.id.as_str());
        }
        find(self.pairs.items(), key)
    }
}

/// The value of a key, in the first pair that has it.
fn find<'a>(pairs: &'a [(Text, Text)], key: &str) -> Option<&'a str>
    ensures { option_map (λ t. t.now) result ≡ env_in pairs.now key.now }
{
    for (name, value) in pairs {
        if name.as_str() == key {
            return Some(value.as_str());
        }
    }
    None
}

/// The names of a case: its second item, and its fourth where that has further ones. A case of facts has the pairs of
/// the environment and the id there.
pub(crate) fn names_of(alloc: Global, case: &Case<'_>) -> Result<Names, CaseFault> {
    let mut map = copied(alloc, case.item(1)?)?;
    if case.table == "facts" {
        let pairs = pairs_of(alloc, case.item(3)?)?;
        return with(alloc, map, pairs, case.text(4)?);
    }
    if case.items().len() > 3 {
        add_made(alloc, &mut map, case.item(3)?)?;
    }
    with(alloc, map, Pairs::new(alloc), "")
}

fn with(alloc: Global, map: Map, pairs: Pairs, id: &str) -> Result<Names, CaseFault> {
    let id = Text::new(alloc, id)?;
    Ok(Names { map, pairs, id })
}

/// A list of pairs of texts.
fn pairs_of(alloc: Global, told: &Value) -> Result<Pairs, CaseFault> {
    let Value::List(told) = told else {
        return Err(CaseFault::NoCase);
    };
    let mut pairs = Pairs::new(alloc);
    for pair in told.items() {
        let (key, value) = pair_of(pair)?;
        pairs.push(key, value)?;
    }
    Ok(pairs)
}

fn pair_of(told: &Value) -> Result<(Text, Text), CaseFault> {
    let Value::List(told) = told else {
        return Err(CaseFault::NoCase);
    };
    match told.items() {
        [Value::Text(key), Value::Text(value)] => Ok((key.copy()?, value.copy()?)),
        _ => Err(CaseFault::NoCase),
    }
}

/// A map with the pairs of this one.
fn copied(alloc: Global, told: &Value) -> Result<Map, CaseFault> {
    let Value::Map(told) = told else {
        return Err(CaseFault::NoCase);
    };
    let mut map = Map::new(alloc)?;
    for i in 0..usize::MAX {
        let Some((name, value)) = told.entry(i) else {
            break;
        };
        put(alloc, &mut map, name, value.copy(alloc)?)?;
    }
    Ok(map)
}

/// Puts a value at a name.
fn put(alloc: Global, map: &mut Map, name: &str, value: Value) -> Result<(), CaseFault> {
    let name = Text::new(alloc, name)?;
    map.insert(name, value)?;
    Ok(())
}

/// Adds further names.
fn add_made(alloc: Global, map: &mut Map, made: &Value) -> Result<(), CaseFault> {
    let Value::List(made) = made else {
        return Err(CaseFault::NoCase);
    };
    for one in made.items() {
        add_one(alloc, map, one)?;
    }
    Ok(())
}

fn add_one(alloc: Global, map: &mut Map, one: &Value) -> Result<(), CaseFault> {
    let Value::List(parts) = one else {
        return Err(CaseFault::NoCase);
    };
    match parts.items() {
        [Value::Text(name), Value::Text(kind), first, ..] => {
            let value = made_value(alloc, kind.as_str(), first)?;
            put(alloc, map, name.as_str(), value)
        }
        _ => Err(CaseFault::NoCase),
    }
}

fn made_value(alloc: Global, kind: &str, first: &Value) -> Result<Value, CaseFault> {
    match (kind, first) {
        ("bytes", hex) => made_bytes(alloc, hex),
        ("text", Value::List(pieces)) => made_text(alloc, pieces.items()),
        ("nested", Value::Int(depth)) => nested(alloc, *depth),
        _ => Err(CaseFault::NoCase),
    }
}

fn made_bytes(alloc: Global, hex: &Value) -> Result<Value, CaseFault> {
    Ok(Value::Bytes(blob_of(alloc, hex)?))
}

fn made_text(alloc: Global, pieces: &[Value]) -> Result<Value, CaseFault> {
    let text = text_of(alloc, pieces)?;
    Ok(Value::Text(Text::new(alloc, text.as_str())?))
}

/// So many lists in each other.
fn nested(alloc: Global, depth: i64) -> Result<Value, CaseFault> {
    let mut value = Value::Null;
    for _ in 0..depth {
        value = one_in(alloc, value)?;
    }
    Ok(value)
}

/// A list with this one value.
fn one_in(alloc: Global, value: Value) -> Result<Value, CaseFault> {
    let mut list = List::new(alloc)?;
    list.push(value)?;
    Ok(Value::List(list))
}
