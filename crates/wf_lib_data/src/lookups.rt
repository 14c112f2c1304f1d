// Values inside maps.
ghost use Rattle.std.specs.Prelude.{◌≡◌};
ghost use Rattle.wf_lib_data.specs.Lent.{or_null};
ghost use Rattle.wf_value.specs.Answers.{IsAnswerOf};
ghost use Rattle.wf_value.specs.LibData.{follow, follow_all, map_get, texts_in};
ghost use Rattle.wf_value.specs.Data.{items_of};
ghost use Rattle.wf_value.specs.Errors.{sized};
ghost use Rattle.wf_value.specs.Plain.{plain, plain_items};

use std::alloc::Global;
use wf_value::{Raise, Tag, Value, sized};

/// `map.get`: the value at a key of a map; with a list of keys, the value at the first, in that the
/// value at the second, and so on. It is null where a key is missing, or the value is no map.
///
/// A TypeError where `keys` is neither a text nor a list of texts; a ResourceLimitError where the
/// value is past the limit on size, 4,194,304. `map` may be of any kind.
pub fn map_get(alloc: Global, map: &Value, keys: &Value) -> Result<Value, Raise>
    ensures { IsAnswerOf result (map_get (plain map.now) (plain keys.now)) }
{
    match keys {
        Value::Text(key) => found(alloc, at_key(Some(map), key.as_str())),
        Value::List(keys) => at_all(alloc, map, keys.items()),
        _ => Err(Raise::Error(Tag::TypeError)),
    }
}

/// The value at each key in turn.
fn at_all(alloc: Global, map: &Value, keys: &[Value]) -> Result<Value, Raise>
    ensures { IsAnswerOf result (follow_all (plain map.now)
        (texts_in (items_of (plain_items keys.now)))) }
{
    let mut value = Some(map);
    for key in keys {
        match key {
            Value::Text(key) => value = at_key(value, key.as_str()),
            _ => return Err(Raise::Error(Tag::TypeError)),
        }
    }
    found(alloc, value)
}

/// The value at a key; none where it is missing, or the value is no map.
fn at_key<'a>(value: Option<&'a Value>, key: &str) -> Option<&'a Value>
    ensures { or_null result ≡ follow (or_null value.entry) key.now }
{
    match value? {
        Value::Map(map) => map.get(key),
        _ => None,
    }
}

/// The value, or null for none, if it keeps within the limit on size.
fn found(alloc: Global, value: Option<&Value>) -> Result<Value, Raise>
    ensures { IsAnswerOf result (sized (or_null value.entry)) }
{
    let Some(value) = value else {
        return sized(Value::Null);
    };
    sized(value.copy(alloc)?)
}
