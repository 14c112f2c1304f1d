// What a value counts for and how deep it nests. A list and a map keep this beside what they hold.
ghost use Rattle.std.specs.Prelude.{◌≡◌, ◌+◌, ◌-◌, ◌<◌, ◌≤◌, IfSome, length, max, min};
ghost use Rattle.wf_value.specs.Data.{map, pairs_of};
ghost use Rattle.wf_value.specs.Measures.{IsMeasure};
ghost use Rattle.wf_value.specs.Plain.{plain, plain_pairs};

use crate::{Text, Value};

/// The size and the depth of a value. Each stops at the greatest number of its type.
#[derive(Clone, Copy)]
pub(crate) struct Measure {
    pub(crate) size: u64,
    pub(crate) depth: u32,
}

impl Measure {
    /// Of the empty list, and of the empty map.
    pub(crate) fn of_nothing() -> Measure
        ensures size { result.size ≡ 2 }
        ensures depth { result.depth ≡ 1 }
    {
        Measure { size: 2, depth: 1 }
    }

    /// Of a value.
    pub(crate) fn of_value(value: &Value) -> Measure
        ensures { IsMeasure result (plain value.now) }
    {
        Measure {
            size: value.size(),
            depth: value.depth(),
        }
    }

    /// Of the map of these pairs.
    pub(crate) fn of_pairs(pairs: &[(Text, Value)]) -> Measure
        ensures { IsMeasure result (map (pairs_of (plain_pairs pairs.now))) }
    {
        let mut measure = Measure::of_nothing();
        for pair in pairs {
            measure = measure.with_pair(&pair.0, Measure::of_value(&pair.1));
        }
        measure
    }

    /// Of the list with this item too.
    pub(crate) fn with_item(self, item: Measure) -> Measure
        ensures size { result.size ≡ min (self.size + item.size) 18446744073709551615 }
        ensures depth { result.depth ≡ max self.depth (min (1 + item.depth) 4294967295) }
    {
        Measure {
            size: self.size.saturating_add(item.size),
            depth: self.depth.max(item.depth.saturating_add(1)),
        }
    }

    /// Of the map with this pair too.
    pub(crate) fn with_pair(self, key: &Text, value: Measure) -> Measure
        ensures size { result.size ≡ min (self.size + (2 + length key.now + value.size))
            18446744073709551615 }
        ensures depth { result.depth ≡ max self.depth (min (1 + value.depth) 4294967295) }
    {
        let held = self.with_item(value);
        Measure {
            size: held
                .size
                .saturating_add(2)
                .saturating_add(key.as_str().len() as u64),
            depth: held.depth,
        }
    }

    /// Of the map with the new value for the old one. None where the old one may have been what made
    /// the map so deep, or where the size is no longer known.
    pub(crate) fn with_new(self, old: Measure, new: Measure) -> Option<Measure>
        ensures known { IfSome result (λ m. (self.size < 18446744073709551615)
            × (old.depth ≤ new.depth)) }
        ensures size { IfSome result (λ m. m.size
            ≡ min (self.size - old.size + new.size) 18446744073709551615) }
        ensures depth { IfSome result (λ m. m.depth
            ≡ max self.depth (min (1 + new.depth) 4294967295)) }
    {
        if self.size == u64::MAX || new.depth < old.depth {
            return None;
        }
        Some(Measure {
            size: self.size.saturating_sub(old.size).saturating_add(new.size),
            depth: self.depth.max(new.depth.saturating_add(1)),
        })
    }
}
