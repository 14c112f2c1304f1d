// Values: their types, and how lists and maps are built and read.
ghost use Rattle.std.specs.Prelude.{◌≡◌, [], ◌∷◌, ◌++◌, IfOk, is_ok, option_map, if◌then◌else◌};
ghost use Rattle.std.specs.List.{slice_get};
ghost use Rattle.wf_value.specs.Data.{items_of, list, map, pairs_of};
ghost use Rattle.wf_value.specs.Maps.{IsInOrder, place_of, value_at, with_value, without};
ghost use Rattle.wf_value.specs.Measures.{IsMeasure};
ghost use Rattle.wf_value.specs.Plain.{plain, plain_items, plain_pairs};

use crate::entries::{find, insert_pair, put_pair, remove_pair, seek};
use crate::items::push_item;
use crate::measure::Measure;
use crate::{Bytes, OutOfMemory, Text};
use std::alloc::Global;
use std::marker::Model;
use std::rc::Rc;

/// A value of the language. Contracts speak of the plain tree that it is.
#[cycle(value)]
pub enum Value {
    /// No value.
    Null,
    /// True or false.
    Bool(bool),
    /// A whole number of 64 bits.
    Int(i64),
    /// A text.
    Text(Text),
    /// Bytes that are no text.
    Bytes(Bytes),
    /// Values in order.
    List(List),
    /// Values by key.
    Map(Map),
}

// Written, and not derived: it is one call wherever a value is let go.
impl Drop for Value {
    #[cycle(value)]
    #[inline(always)]
    fn drop(self) {
        match self {
            Value::Null | Value::Bool(_) | Value::Int(_) => {}
            Value::Text(_) | Value::Bytes(_) | Value::List(_) | Value::Map(_) => {}
        }
    }
}

/// Values in order, which contracts see as the list of their trees. Copies share the items until
/// one of them is changed.
#[cycle(value)]
#[derive(Drop)]
pub struct List {
    items: Rc<Items>,
}

/// Values by key, which contracts see as the list of the pairs in the order of the keys' bytes.
/// Each key stands once. Copies share the pairs until one of them is changed.
#[cycle(value)]
#[derive(Drop)]
pub struct Map {
    entries: Rc<Entries>,
}

/// What a list holds, and its measure.
#[cycle(value)]
#[derive(Drop)]
pub(crate) struct Items {
    pub(crate) values: Vec<Value>,
    pub(crate) measure: Measure,
}

/// What a map holds, and its measure.
#[cycle(value)]
#[derive(Drop)]
pub(crate) struct Entries {
    pub(crate) pairs: Vec<(Text, Value)>,
    pub(crate) measure: Measure,
}

impl Model for List {
    ghost use Rattle.std.specs.Prelude.{List as Seq};
    ghost use Rattle.wf_value.specs.Data.{Data, items_depth, items_of, list};
    ghost use Rattle.wf_value.specs.Code.{coded_items};

    ghost Value = { Seq Data };

    ghost coded = { coded_items };

    ghost use Rattle.wf_value.specs.Plain.{plain_items};

    ghost view = { λ a. plain_items a.items.value.values.items };

    ghost use Rattle.wf_value.specs.Measures.{IsMeasure};

    ghost invariant = { λ a. IsMeasure a.items.value.measure (list (items_of (plain_items a.items.value.values.items))) };

    ghost size = { λ ds. items_depth (items_of ds) };

    ghost use Rattle.wf_value.specs.Falls.{most_items};

    ghost size_decreases = { λ a h. most_items a.items.value.values.items };
}

impl Model for Map {
    ghost use Rattle.std.specs.Prelude.{List as Seq, ℕ};
    ghost use Rattle.wf_value.specs.Maps.{IsInOrder};
    ghost use Rattle.wf_value.specs.Data.{Data, map, pairs_depth, pairs_of};
    ghost use Rattle.wf_value.specs.Code.{coded_pairs};

    ghost Value = { Seq (Seq ℕ × Data) };

    ghost coded = { coded_pairs };

    ghost use Rattle.wf_value.specs.Plain.{plain_pairs};

    ghost view = { λ a. plain_pairs a.entries.value.pairs.items };

    ghost use Rattle.wf_value.specs.Measures.{IsMeasure};

    ghost invariant = { λ a. IsInOrder a.entries.value.pairs.items × IsMeasure a.entries.value.measure (map (pairs_of (plain_pairs a.entries.value.pairs.items))) };

    ghost size = { λ ps. pairs_depth (pairs_of ps) };

    ghost use Rattle.wf_value.specs.Falls.{most_pairs};

    ghost size_decreases = { λ a h. most_pairs a.entries.value.pairs.items };
}

impl List {
    /// The empty list.
    pub fn new(alloc: Global) -> Result<List, OutOfMemory>
        ensures { IfOk result (λ l. l ≡ []) }
    {
        let values = Vec::new(alloc);
        let measure = Measure::of_nothing();
        match Rc::new(alloc, Items { values, measure }) {
            Ok(items) => Ok(List { items }),
            Err(_) => Err(OutOfMemory),
        }
    }

    /// Adds an item at the end. Without memory the list stays, and the item is dropped.
    pub fn push(&mut self, item: Value) -> Result<(), OutOfMemory>
        ensures { self.new ≡ (if is_ok result then self.old ++ plain item ∷ [] else self.old) }
    {
        push_item(&mut self.items, item)
    }

    /// The items, the first one first.
    pub fn items(&self) -> &[Value]
        ensures { plain_items result.now ≡ self.now }
    {
        self.items.values.as_slice()
    }

    /// What the list counts for, and how deep it nests.
    pub(crate) fn measure(&self) -> Measure
        ensures { IsMeasure result (list (items_of self.now)) }
    {
        self.items.measure
    }

    /// An equal list, which shares the items.
    pub fn copy(&self) -> Result<List, OutOfMemory>
        ensures { IfOk result (λ l. l ≡ self.now) }
    {
        match self.items.clone() {
            Ok(items) => Ok(List { items }),
            Err(_) => Err(OutOfMemory),
        }
    }
}

impl Map {
    /// The empty map, with room for so many pairs.
    #[tactic(auto, using(crate::proofs::Order::in_order_empty))]
    pub fn with_capacity(alloc: Global, count: usize) -> Result<Map, OutOfMemory>
        ensures { IfOk result (λ m. m ≡ []) }
    {
        let pairs = Vec::with_capacity(alloc, count)?;
        let measure = Measure::of_nothing();
        match Rc::new(alloc, Entries { pairs, measure }) {
            Ok(entries) => Ok(Map { entries }),
            Err(_) => Err(OutOfMemory),
        }
    }

    /// The empty map.
    #[tactic(auto, using(crate::proofs::Order::in_order_empty))]
    pub fn new(alloc: Global) -> Result<Map, OutOfMemory>
        ensures { IfOk result (λ m. m ≡ []) }
    {
        let pairs = Vec::new(alloc);
        let measure = Measure::of_nothing();
        match Rc::new(alloc, Entries { pairs, measure }) {
            Ok(entries) => Ok(Map { entries }),
            Err(_) => Err(OutOfMemory),
        }
    }

    /// The map of pairs that stand in order.
    pub(crate) fn of_pairs(alloc: Global, pairs: Vec<(Text, Value)>) -> Result<Map, OutOfMemory>
        requires { IsInOrder pairs.items }
        ensures { IfOk result (λ m. m ≡ plain_pairs pairs.items) }
    {
        let measure = Measure::of_pairs(pairs.as_slice());
        match Rc::new(alloc, Entries { pairs, measure }) {
            Ok(entries) => Ok(Map { entries }),
            Err(_) => Err(OutOfMemory),
        }
    }

    /// The value at a key.
    #[inline(always)]
    pub fn get(&self, key: &str) -> Option<&Value>
        ensures value { option_map (λ v. plain v.now) result ≡ value_at key.now self.now }
        ensures order { IsInOrder self.now }
    {
        find(self.entries.pairs.as_slice(), key)
    }

    /// The pair at an index, from 0 on in the order of the keys' bytes; none past the end.
    pub fn entry(&self, i: usize) -> Option<(&str, &Value)>
        ensures { option_map (λ p. (p.0.now, plain p.1.now)) result ≡ slice_get self.now i }
    {
        let pairs = self.entries.pairs.as_slice();
        if i < pairs.len() {
            Some((pairs[i].0.as_str(), &pairs[i].1))
        } else {
            None
        }
    }

    /// Puts a value at a key, and gives the value that was there. Without memory the map stays,
    /// and the key and the value are dropped.
    pub fn insert(&mut self, key: Text, value: Value) -> Result<Option<Value>, OutOfMemory>
        ensures after { self.new ≡ (if is_ok result then with_value key (plain value) self.old else
            self.old) }
        ensures old { IfOk result (λ v. option_map plain v ≡ value_at key self.old) }
    {
        insert_pair(&mut self.entries, key, value)
    }

    /// The same as `insert`, with a key that is shared, and only where it isn't there. Where it is,
    /// none is let go.
    pub fn put(&mut self, key: &Text, value: Value) -> Result<Option<Value>, OutOfMemory>
        ensures after { self.new ≡ (if is_ok result then with_value key.now (plain value) self.old
            else self.old) }
        ensures old { IfOk result (λ v. option_map plain v ≡ value_at key.now self.old) }
    {
        let place = self.place(key.as_str());
        self.put_at(place, key, value)
    }

    /// Where a key stands, or where it belongs.
    #[inline(always)]
    pub fn place(&self, key: &str) -> Result<usize, usize>
        ensures place { result ≡ place_of key.now self.now }
        ensures order { IsInOrder self.now }
    {
        seek(self.entries.pairs.as_slice(), key)
    }

    /// The same as `put`, at the key's place.
    #[inline(always)]
    pub fn put_at(
        &mut self,
        place: Result<usize, usize>,
        key: &Text,
        value: Value,
    ) -> Result<Option<Value>, OutOfMemory>
        requires { place ≡ place_of key.now self.old }
        ensures after { self.new ≡ (if is_ok result then with_value key.now (plain value) self.old
            else self.old) }
        ensures old { IfOk result (λ v. option_map plain v ≡ value_at key.now self.old) }
    {
        put_pair(&mut self.entries, place, key, value)
    }

    /// Takes a key and its value away, and gives the value. Without memory the map stays.
    pub fn remove(&mut self, key: &str) -> Result<Option<Value>, OutOfMemory>
        ensures after { self.new ≡ (if is_ok result then without key.now self.old else self.old) }
        ensures old { IfOk result (λ v. option_map plain v ≡ value_at key.now self.old) }
    {
        remove_pair(&mut self.entries, key)
    }

    /// The pairs in order.
    pub(crate) fn pairs(&self) -> &[(Text, Value)]
        ensures pairs { plain_pairs result.now ≡ self.now }
        ensures order { IsInOrder result.now }
    {
        self.entries.pairs.as_slice()
    }

    /// What the map counts for, and how deep it nests.
    pub(crate) fn measure(&self) -> Measure
        ensures { IsMeasure result (map (pairs_of self.now)) }
    {
        self.entries.measure
    }

    /// An equal map, which shares the pairs.
    pub fn copy(&self) -> Result<Map, OutOfMemory>
        ensures { IfOk result (λ m. m ≡ self.now) }
    {
        match self.entries.clone() {
            Ok(entries) => Ok(Map { entries }),
            Err(_) => Err(OutOfMemory),
        }
    }
}

impl Value {
    /// An equal value. Lists, maps, texts and bytes are shared, so its cost does not grow with
    /// what they hold, and it allocates nothing.
    pub fn copy(&self, _alloc: Global) -> Result<Value, OutOfMemory>
        ensures { IfOk result (λ v. v ≡ self.now) }
    {
        self.share()
    }

    /// An equal value, which shares what it holds.
    pub(crate) fn share(&self) -> Result<Value, OutOfMemory>
        ensures { IfOk result (λ v. v ≡ self.now) }
    {
        match self {
            Value::Null => Ok(Value::Null),
            Value::Bool(b) => Ok(Value::Bool(*b)),
            Value::Int(n) => Ok(Value::Int(*n)),
            Value::Text(text) => Ok(Value::Text(text.copy()?)),
            Value::Bytes(bytes) => Ok(Value::Bytes(bytes.copy()?)),
            Value::List(list) => Ok(Value::List(list.copy()?)),
            Value::Map(map) => Ok(Value::Map(map.copy()?)),
        }
    }
}
