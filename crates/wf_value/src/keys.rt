// The order of keys.
ghost use Rattle.std.specs.Prelude.{◌≡◌, slice_get};
ghost use Rattle.wf_value.specs.Maps.{key_cmp};

use std::cmp::Ordering;

/// The order of two keys, by their bytes. `first` is the first byte of `b`, if it has one: a search
/// takes it once, since most keys are settled by their first bytes.
#[inline(always)]
pub fn key_order(a: &str, b: &str, first: Option<u8>) -> Ordering
    requires { first ≡ slice_get b.now 0 }
    ensures { result ≡ key_cmp a.now b.now }
{
    let x = a.as_bytes();
    let Some(y) = first else {
        return a.cmp(b);
    };
    if x.is_empty() {
        return a.cmp(b);
    }
    if x[0] < y {
        return Ordering::Less;
    }
    if x[0] > y {
        return Ordering::Greater;
    }
    if x.len() == 1 && b.len() == 1 {
        return Ordering::Equal;
    }
    a.cmp(b)
}
