// How deep the lists and objects of some JSON nest.
ghost use Rattle.std.specs.Prelude.{◌≡◌, ◌<◌, min, Decides};
ghost use Rattle.serde_json.specs.Data.{depth, items_depth, members_depth};
ghost use Rattle.serde_json.specs.View.{view, items_view, members_view};

use serde_json::{Map as Members, Value as Json};

/// Whether lists and objects nest deeper than 100.
pub(crate) fn is_too_deep(json: &Json) -> bool
    ensures { Decides result (100 < depth (view json.now)) }
{
    depth_of(json) > 100
}

/// A depth past 4,294,967,295 counts as that.
#[cycle(depth)]
fn depth_of(json: &Json) -> u32
    ensures { result ≡ min (depth (view json.now)) 4294967295 }
{
    match json {
        Json::Array(items) => depth_of_items(items).saturating_add(1),
        Json::Object(members) => depth_of_members(members).saturating_add(1),
        _ => 0,
    }
}

#[cycle(depth)]
fn depth_of_items(items: &Vec<Json>) -> u32
    ensures { result ≡ min (items_depth (items_view items.now.items)) 4294967295 }
{
    let mut deepest = 0u32;
    for json in items {
        deepest = deepest.max(depth_of(json));
    }
    deepest
}

#[cycle(depth)]
fn depth_of_members(members: &Members<String, Json>) -> u32
    ensures { result ≡ min (members_depth (members_view members.now.entries)) 4294967295 }
{
    let mut deepest = 0u32;
    for (_, json) in members.iter() {
        deepest = deepest.max(depth_of(json));
    }
    deepest
}
