// The pairs of a map, in the order of their keys.
ghost use Rattle.std.specs.Prelude.{◌≡◌, Err, IfOk, None, Ok, Some, is_ok, length, if◌then◌else◌};
ghost use Rattle.std.specs.List.Sorted.{IsSearchInRange};
ghost use Rattle.std.specs.Option.{option_copied};
ghost use Rattle.std_collections.specs.Layout.BTreeMap.{seek};
ghost use Rattle.wf_value.specs.Data.{map, pairs_of};
ghost use Rattle.wf_value.specs.Maps.{IsInOrder, key_cmp, value_at, with_value, without};
ghost use Rattle.wf_value.specs.Measures.{IsMeasure};
ghost use Rattle.wf_value.specs.Plain.{plain_pairs};

use crate::keys::key_order;
use crate::measure::Measure;
use crate::sharing::own_entries;
use crate::value::Entries;
use crate::{OutOfMemory, Text, Value};
use std::cmp::Ordering;
use std::mem;
use std::rc::Rc;

/// The value at the key.
#[inline(always)]
pub(crate) fn find<'a>(pairs: &'a [(Text, Value)], key: &str) -> Option<&'a Value>
    requires { IsInOrder pairs.now }
    ensures { option_copied result ≡ value_at key.now pairs.now }
{
    match seek(pairs, key) {
        Ok(i) => Some(&pairs[i].1),
        Err(_) => None,
    }
}

/// Puts the value at the key, and gives what was there.
pub(crate) fn insert_pair(
    entries: &mut Rc<Entries>,
    key: Text,
    value: Value,
) -> Result<Option<Value>, OutOfMemory>
    requires order { IsInOrder entries.old.value.pairs.items }
    requires measured { IsMeasure entries.old.value.measure
        (map (pairs_of (plain_pairs entries.old.value.pairs.items))) }
    ensures after { entries.new.value.pairs.items
        ≡ (if is_ok result then with_value key value entries.old.value.pairs.items else
        entries.old.value.pairs.items) }
    ensures old { IfOk result (λ v. v ≡ value_at key entries.old.value.pairs.items) }
    ensures measure { IsMeasure entries.new.value.measure
        (map (pairs_of (plain_pairs entries.new.value.pairs.items))) }
{
    own_entries(entries)?;
    match Rc::get_mut(entries) {
        Some(own) => insert_measured(own, key, value),
        None => Err(OutOfMemory),
    }
}

/// The same at the place where the key stands or belongs. The key is shared only where it isn't there.
#[inline(always)]
pub(crate) fn put_pair(
    entries: &mut Rc<Entries>,
    place: Result<usize, usize>,
    key: &Text,
    value: Value,
) -> Result<Option<Value>, OutOfMemory>
    requires place { place ≡ seek (key_cmp key.now) entries.old.value.pairs.items }
    requires order { IsInOrder entries.old.value.pairs.items }
    requires measured { IsMeasure entries.old.value.measure
        (map (pairs_of (plain_pairs entries.old.value.pairs.items))) }
    ensures after { entries.new.value.pairs.items
        ≡ (if is_ok result then with_value key.now value entries.old.value.pairs.items else
        entries.old.value.pairs.items) }
    ensures old { IfOk result (λ v. v ≡ value_at key.now entries.old.value.pairs.items) }
    ensures measure { IsMeasure entries.new.value.measure
        (map (pairs_of (plain_pairs entries.new.value.pairs.items))) }
{
    own_entries(entries)?;
    match Rc::get_mut(entries) {
        Some(own) => put_measured(own, place, key, value),
        None => Err(OutOfMemory),
    }
}

/// Takes the key and its value away.
pub(crate) fn remove_pair(
    entries: &mut Rc<Entries>,
    key: &str,
) -> Result<Option<Value>, OutOfMemory>
    requires order { IsInOrder entries.old.value.pairs.items }
    requires measured { IsMeasure entries.old.value.measure
        (map (pairs_of (plain_pairs entries.old.value.pairs.items))) }
    ensures after { entries.new.value.pairs.items
        ≡ (if is_ok result then without key.now entries.old.value.pairs.items else
        entries.old.value.pairs.items) }
    ensures old { IfOk result (λ v. v ≡ value_at key.now entries.old.value.pairs.items) }
    ensures measure { IsMeasure entries.new.value.measure
        (map (pairs_of (plain_pairs entries.new.value.pairs.items))) }
{
    if find(entries.pairs.as_slice(), key).is_none() {
        return Ok(None);
    }
    own_entries(entries)?;
    match Rc::get_mut(entries) {
        Some(own) => Ok(take_measured(own, key)),
        None => Err(OutOfMemory),
    }
}

fn insert_measured(
    entries: &mut Entries,
    key: Text,
    value: Value,
) -> Result<Option<Value>, OutOfMemory>
    requires order { IsInOrder entries.old.pairs.items }
    requires measured { IsMeasure entries.old.measure
        (map (pairs_of (plain_pairs entries.old.pairs.items))) }
    ensures after { entries.new.pairs.items
        ≡ (if is_ok result then with_value key value entries.old.pairs.items else
        entries.old.pairs.items) }
    ensures old { IfOk result (λ v. v ≡ value_at key entries.old.pairs.items) }
    ensures measure { IsMeasure entries.new.measure
        (map (pairs_of (plain_pairs entries.new.pairs.items))) }
{
    match seek(entries.pairs.as_slice(), key.as_str()) {
        Ok(i) => Ok(Some(replace_at(entries, i, key.as_str(), value))),
        Err(i) => {
            insert_at(entries, i, key, value)?;
            Ok(None)
        }
    }
}

#[inline(always)]
fn put_measured(
    entries: &mut Entries,
    place: Result<usize, usize>,
    key: &Text,
    value: Value,
) -> Result<Option<Value>, OutOfMemory>
    requires place { place ≡ seek (key_cmp key.now) entries.old.pairs.items }
    requires order { IsInOrder entries.old.pairs.items }
    requires measured { IsMeasure entries.old.measure
        (map (pairs_of (plain_pairs entries.old.pairs.items))) }
    ensures after { entries.new.pairs.items
        ≡ (if is_ok result then with_value key.now value entries.old.pairs.items else
        entries.old.pairs.items) }
    ensures old { IfOk result (λ v. v ≡ value_at key.now entries.old.pairs.items) }
    ensures measure { IsMeasure entries.new.measure
        (map (pairs_of (plain_pairs entries.new.pairs.items))) }
{
    match place {
        Ok(i) => Ok(Some(replace_at(entries, i, key.as_str(), value))),
        Err(i) => {
            let key = key.copy()?;
            insert_at(entries, i, key, value)?;
            Ok(None)
        }
    }
}

/// Puts the value at the key, which stands at this place, and gives what was there.
#[inline(always)]
fn replace_at(entries: &mut Entries, i: usize, key: &str, value: Value) -> Value
    requires place { Ok i ≡ seek (key_cmp key.now) entries.old.pairs.items }
    requires order { IsInOrder entries.old.pairs.items }
    requires measured { IsMeasure entries.old.measure
        (map (pairs_of (plain_pairs entries.old.pairs.items))) }
    ensures after { entries.new.pairs.items ≡ with_value key.now value entries.old.pairs.items }
    ensures old { Some result ≡ value_at key.now entries.old.pairs.items }
    ensures measure { IsMeasure entries.new.measure
        (map (pairs_of (plain_pairs entries.new.pairs.items))) }
{
    let new = Measure::of_value(&value);
    let replaced = mem::replace(&mut entries.pairs[i].1, value);
    let old = Measure::of_value(&replaced);
    let Some(measure) = entries.measure.with_new(old, new) else {
        entries.measure = Measure::of_pairs(entries.pairs.as_slice());
        return replaced;
    };
    entries.measure = measure;
    replaced
}

/// Puts the pair at this place, where its key belongs.
fn insert_at(entries: &mut Entries, i: usize, key: Text, value: Value) -> Result<(), OutOfMemory>
    requires place { Err i ≡ seek (key_cmp key) entries.old.pairs.items }
    requires order { IsInOrder entries.old.pairs.items }
    requires measured { IsMeasure entries.old.measure
        (map (pairs_of (plain_pairs entries.old.pairs.items))) }
    ensures after { entries.new.pairs.items
        ≡ (if is_ok result then with_value key value entries.old.pairs.items else
        entries.old.pairs.items) }
    ensures old { value_at key entries.old.pairs.items ≡ None }
    ensures measure { IsMeasure entries.new.measure
        (map (pairs_of (plain_pairs entries.new.pairs.items))) }
{
    let measure = entries.measure.with_pair(&key, Measure::of_value(&value));
    let Ok(()) = entries.pairs.insert(i, (key, value)) else {
        return Err(OutOfMemory);
    };
    entries.measure = measure;
    Ok(())
}

fn take_measured(entries: &mut Entries, key: &str) -> Option<Value>
    requires order { IsInOrder entries.old.pairs.items }
    ensures after { entries.new.pairs.items ≡ without key.now entries.old.pairs.items }
    ensures old { result ≡ value_at key.now entries.old.pairs.items }
    ensures measure { IsMeasure entries.new.measure
        (map (pairs_of (plain_pairs entries.new.pairs.items))) }
{
    let taken = take(&mut entries.pairs, key);
    entries.measure = Measure::of_pairs(entries.pairs.as_slice());
    taken
}

/// Where the key stands, or where it belongs.
#[inline(always)]
pub(crate) fn seek(pairs: &[(Text, Value)], key: &str) -> Result<usize, usize>
    requires { IsInOrder pairs.now }
    ensures place { result ≡ seek (key_cmp key.now) pairs.now }
    ensures within { IsSearchInRange result (length pairs.now) }
{
    let first = key.as_bytes().first().copied();
    let mut low = 0;
    let mut high = pairs.len();
    while low < high {
        let middle = low + (high - low) / 2;
        match key_order(pairs[middle].0.as_str(), key, first) {
            Ordering::Less => low = middle + 1,
            Ordering::Greater => high = middle,
            Ordering::Equal => return Ok(middle),
        }
    }
    Err(low)
}

fn take(pairs: &mut Vec<(Text, Value)>, key: &str) -> Option<Value>
    requires { IsInOrder pairs.old.items }
    ensures after { pairs.new.items ≡ without key.now pairs.old.items }
    ensures old { result ≡ value_at key.now pairs.old.items }
{
    match seek(pairs.as_slice(), key) {
        Ok(i) => {
            let (_, value) = pairs.remove(i);
            Some(value)
        }
        Err(_) => None,
    }
}
