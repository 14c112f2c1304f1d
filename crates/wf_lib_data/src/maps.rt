// Maps without a key.
ghost use Rattle.wf_value.specs.Answers.{IsAnswerOf};
ghost use Rattle.wf_value.specs.LibData.{map_delete};
ghost use Rattle.wf_value.specs.Data.{text};
ghost use Rattle.wf_value.specs.Plain.{plain};

use std::alloc::Global;
use wf_value::{Raise, Tag, Value, sized};

/// `map.delete`: the map without a key.
///
/// A TypeError where `map` is no map or `key` no text; a KeyError where the map hasn't the key; a
/// ResourceLimitError where the answer is past the limit on size, 4,194,304. The map is copied,
/// its values are shared.
pub fn map_delete(alloc: Global, map: &Value, key: &Value) -> Result<Value, Raise>
    ensures { IsAnswerOf result (map_delete (plain map.now) (plain key.now)) }
{
    match key {
        Value::Text(key) => without(alloc, map, key.as_str()),
        _ => Err(Raise::Error(Tag::TypeError)),
    }
}

fn without(alloc: Global, map: &Value, key: &str) -> Result<Value, Raise>
    ensures { IsAnswerOf result (map_delete (plain map.now) (text key.now)) }
{
    let mut rest = map.copy(alloc)?;
    match &mut rest {
        Value::Map(pairs) => match pairs.remove(key)? {
            Some(_) => {}
            None => return Err(Raise::Error(Tag::KeyError)),
        },
        _ => return Err(Raise::Error(Tag::TypeError)),
    }
    sized(rest)
}
