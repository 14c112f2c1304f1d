// Pairs that are gathered into a map, and lists that are built.
use crate::scalars::scalar;
use crate::texts::push_quoted;
use std::alloc::Global;
use wf_cases::CaseFault;
use wf_tree::{PairsSoFar, Tree, TreeList, TreeMap};
use wf_value::Value;

/// Pairs are gathered into a map, and some are asked for, by a key or by a number from 0 on: the trees that were replaced, the map,
/// and the answers.
pub(crate) fn gathered(alloc: Global, pairs: &Value, asked: &Value) -> Result<String, CaseFault> {
    let (Value::List(pairs), Value::List(asked)) = (pairs, asked) else {
        return Err(CaseFault::NoCase);
    };
    let mut shown = String::new(alloc);
    let map = map_of(alloc, &mut shown, pairs.items())?;
    show_map(alloc, &mut shown, &map)?;
    show_found(alloc, &mut shown, &map, asked.items())?;
    Ok(shown)
}

/// Gathers pairs, and shows the trees that were replaced.
fn map_of(alloc: Global, shown: &mut String, pairs: &[Value]) -> Result<TreeMap, CaseFault> {
    let mut so_far = PairsSoFar::new(alloc)?;
    for pair in pairs {
        put(alloc, shown, &mut so_far, pair)?;
    }
    Ok(so_far.into_map()?)
}

/// Puts a pair of a key and a tree, and shows the tree that was there.
fn put(
    alloc: Global,
    shown: &mut String,
    pairs: &mut PairsSoFar,
    pair: &Value,
) -> Result<(), CaseFault> {
    let Value::List(pair) = pair else {
        return Err(CaseFault::NoCase);
    };
    let [Value::Text(key), item] = pair.items() else {
        return Err(CaseFault::NoCase);
    };
    let tree = tree_of(alloc, item)?;
    match pairs.insert(key.copy()?, tree)? {
        Some(old) => {
            show_tree(alloc, shown, &old)?;
            Ok(shown.push(' ')?)
        }
        None => Ok(()),
    }
}

/// A number, or the list of some scalars.
fn tree_of(alloc: Global, item: &Value) -> Result<Tree, CaseFault> {
    let Value::List(items) = item else {
        return scalar_of(item);
    };
    let mut list = TreeList::new(alloc)?;
    for item in items.items() {
        list.push(scalar_of(item)?)?;
    }
    Ok(Tree::List(list))
}

/// A scalar, where a text stands for a decimal.
fn scalar_of(item: &Value) -> Result<Tree, CaseFault> {
    match item {
        Value::Null => Ok(Tree::Null),
        Value::Int(number) => Ok(Tree::Int(*number)),
        Value::Text(text) => Ok(Tree::Decimal(text.copy()?)),
        _ => Err(CaseFault::NoCase),
    }
}

/// Shows a scalar, or the list of some scalars.
fn show_tree(alloc: Global, shown: &mut String, tree: &Tree) -> Result<(), CaseFault> {
    let Tree::List(list) = tree else {
        return show_scalar(alloc, shown, tree);
    };
    shown.push('[')?;
    for item in list.items() {
        show_scalar(alloc, shown, item)?;
        shown.push(',')?;
    }
    Ok(shown.push(']')?)
}

fn show_scalar(alloc: Global, shown: &mut String, tree: &Tree) -> Result<(), CaseFault> {
    let text = scalar(alloc, tree)?;
    Ok(shown.push_str(text.as_str())?)
}

fn show_pair(alloc: Global, shown: &mut String, key: &str, tree: &Tree) -> Result<(), CaseFault> {
    push_quoted(alloc, shown, key)?;
    shown.push(':')?;
    show_tree(alloc, shown, tree)
}

fn show_map(alloc: Global, shown: &mut String, map: &TreeMap) -> Result<(), CaseFault> {
    shown.push('{')?;
    for pair in map.pairs() {
        show_pair(alloc, shown, pair.0.as_str(), &pair.1)?;
        shown.push(',')?;
    }
    Ok(shown.push('}')?)
}

/// Shows what stands at each key, or the pair of each number.
fn show_found(
    alloc: Global,
    shown: &mut String,
    map: &TreeMap,
    asked: &[Value],
) -> Result<(), CaseFault> {
    for item in asked {
        shown.push(' ')?;
        show_one(alloc, shown, map, item)?;
    }
    Ok(())
}

/// Shows what stands at a key, or the pair of a number.
fn show_one(
    alloc: Global,
    shown: &mut String,
    map: &TreeMap,
    asked: &Value,
) -> Result<(), CaseFault> {
    match asked {
        Value::Text(key) => match map.get(key.as_str()) {
            Some(tree) => show_tree(alloc, shown, tree),
            None => Ok(shown.push_str("none")?),
        },
        Value::Int(number) => {
            let Ok(number) = usize::try_from(*number) else {
                return Err(CaseFault::NoCase);
            };
            match map.entry(number) {
                Some((key, tree)) => show_pair(alloc, shown, key, tree),
                None => Ok(shown.push_str("none")?),
            }
        }
        _ => Err(CaseFault::NoCase),
    }
}
