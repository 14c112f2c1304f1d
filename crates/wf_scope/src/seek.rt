// A search among names.
ghost use Rattle.std.specs.Prelude.{◌≡◌, length};
ghost use Rattle.std.specs.List.Sorted.{IsSearchInRange};
ghost use Rattle.wf_value.specs.Maps.{IsInOrder, place_of};

use std::cmp::Ordering;
use wf_name::Name;
use wf_value::{Value, key_order};

/// Where a name stands among names in order, or where it belongs.
#[inline(always)]
pub(crate) fn seek(names: &[(Name, Option<Value>)], name: &str) -> Result<usize, usize>
    requires { IsInOrder names.now }
    ensures place { result ≡ place_of name.now names.now }
    ensures within { IsSearchInRange result (length names.now) }
{
    let first = name.as_bytes().first().copied();
    let mut low = 0;
    let mut high = names.len();
    while low < high {
        let middle = low + (high - low) / 2;
        match key_order(names[middle].0.as_str(), name, first) {
            Ordering::Less => low = middle + 1,
            Ordering::Greater => high = middle,
            Ordering::Equal => return Ok(middle),
        }
    }
    Err(low)
}
