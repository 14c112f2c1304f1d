// The pairs of a map, in the order of their keys.
ghost use Rattle.std.specs.Prelude.{◌≡◌, length};
ghost use Rattle.std.specs.List.Sorted.{IsSearchInRange};
ghost use Rattle.std.specs.Option.{option_copied};
ghost use Rattle.std_collections.specs.Layout.BTreeMap.{seek};
ghost use Rattle.wf_value.specs.Maps.{IsInOrder, key_cmp, value_at};

use crate::Tree;
use wf_value::Text;

/// The tree at the key.
pub(crate) fn find<'a>(pairs: &'a [(Text, Tree)], key: &str) -> Option<&'a Tree>
    requires { IsInOrder pairs.now }
    ensures { option_copied result ≡ value_at key.now pairs.now }
{
    match seek(pairs, key) {
        Ok(i) => Some(&pairs[i].1),
        Err(_) => None,
    }
}

/// Where the key stands, or where it belongs.
fn seek(pairs: &[(Text, Tree)], key: &str) -> Result<usize, usize>
    requires { IsInOrder pairs.now }
    ensures place { result ≡ seek (key_cmp key.now) pairs.now }
    ensures within { IsSearchInRange result (length pairs.now) }
{
    pairs.binary_search_by(|pair| pair.0.as_str().cmp(&key))
}
