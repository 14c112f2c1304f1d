// Two maps as one.
ghost use Rattle.std.specs.Prelude.{◌≡◌, IfOk, OnOk, suc};
ghost use Rattle.wf_value.specs.Answers.{IsAnswerOf};
ghost use Rattle.wf_value.specs.LibData.{map_merge, merged};
ghost use Rattle.wf_value.specs.Data.{pairs_of};
ghost use Rattle.wf_value.specs.Maps.{IsInOrder, with_value};
ghost use Rattle.wf_value.specs.Plain.{plain};

use std::alloc::Global;
use std::cmp::Ordering;
use wf_value::{Map, OutOfMemory, Raise, Tag, Text, Value, sized};

/// `map.merge`: the map of the pairs of two maps. Of a key in both the second's value stands.
///
/// A TypeError where `first` or `second` is no map; a ResourceLimitError where the answer is past
/// the limit on size, 4,194,304. The values are shared. Its time is that of going through both
/// maps, with a search in the answer for each pair.
pub fn map_merge(alloc: Global, first: &Value, second: &Value) -> Result<Value, Raise>
    ensures { IsAnswerOf result (map_merge (plain first.now) (plain second.now)) }
{
    match (first, second) {
        (Value::Map(first), Value::Map(second)) => {
            sized(Value::Map(merged(alloc, first, second)?))
        }
        _ => Err(Raise::Error(Tag::TypeError)),
    }
}

/// Takes the pairs of both in the order of their keys, so that each is put at the end.
fn merged(alloc: Global, first: &Map, second: &Map) -> Result<Map, OutOfMemory>
    ensures { IfOk result (λ m. pairs_of m ≡ merged (pairs_of first.now) (pairs_of second.now)) }
{
    // laws that the proof uses
    keys_rise(first);
    keys_rise(second);
    let mut whole = Map::new(alloc)?;
    let mut i = 0;
    let mut j = 0;
    'pairs: loop {
        match (first.entry(i), second.entry(j)) {
            (None, None) => return Ok(whole),
            (Some((key, value)), None) => {
                put(alloc, &mut whole, key, value)?;
                i = next(i)?;
            }
            (None, Some((key, value))) => {
                put(alloc, &mut whole, key, value)?;
                j = next(j)?;
            }
            (Some((key, value)), Some((other, theirs))) => match key.cmp(&other) {
                Ordering::Less => {
                    put(alloc, &mut whole, key, value)?;
                    i = next(i)?;
                }
                Ordering::Equal => {
                    put(alloc, &mut whole, key, theirs)?;
                    i = next(i)?;
                    j = next(j)?;
                }
                Ordering::Greater => {
                    put(alloc, &mut whole, other, theirs)?;
                    j = next(j)?;
                }
            },
        }
    }
}

/// A fact of every map, which a look-up carries.
fn keys_rise(map: &Map)
    ensures { IsInOrder map.now }
{
    map.get("");
}

fn put(alloc: Global, whole: &mut Map, key: &str, value: &Value) -> Result<(), OutOfMemory>
    ensures { OnOk result (whole.new ≡ with_value key.now (plain value.now) whole.old) }
{
    whole.insert(Text::new(alloc, key)?, value.copy(alloc)?)?;
    Ok(())
}

/// No map has so many pairs that an index is past 64 bits.
fn next(i: usize) -> Result<usize, OutOfMemory>
    ensures { IfOk result (λ n. n ≡ suc i) }
{
    match i.checked_add(1) {
        Some(n) => Ok(n),
        None => Err(OutOfMemory),
    }
}
