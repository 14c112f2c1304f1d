// What a value counts for against the limits on size.
ghost use Rattle.std.specs.Prelude.{◌≡◌, ◌+◌, min};
ghost use Rattle.wf_value.specs.Plain.{plain};
ghost use Rattle.wf_value.specs.Data.{size, pairs_size, pairs_of};

use crate::{Map, Value};

impl Value {
    /// What the value counts for against a limit: 1 for null and a truth value, 8 for a number, 2
    /// and the bytes for a text and for bytes, 2 and its members for a list or a map, where each key
    /// counts as a text. A sum past 18,446,744,073,709,551,615 stops there.
    #[inline(always)]
    pub fn size(&self) -> u64
        ensures { result ≡ min (size (plain self.now)) 18446744073709551615 }
    {
        match self {
            Value::Null | Value::Bool(_) => 1,
            Value::Int(_) => 8,
            Value::Text(text) => (text.as_str().len() as u64).saturating_add(2),
            Value::Bytes(bytes) => (bytes.as_slice().len() as u64).saturating_add(2),
            Value::List(list) => list.measure().size,
            Value::Map(map) => map.measure().size,
        }
    }
}

impl Map {
    /// What a map of these pairs counts for against the limits on size: 2, and for each pair 2, the
    /// key's bytes and the value's size. The sum stops at the greatest `u64`.
    pub fn size(&self) -> u64
        ensures { result ≡ min (2 + pairs_size (pairs_of self.now)) 18446744073709551615 }
    {
        self.measure().size
    }
}
