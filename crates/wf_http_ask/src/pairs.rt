// The fields and the query of a call as texts.
ghost use Rattle.std.specs.Prelude.{◌≡◌, IfOk, if◌then◌else◌, codes};
ghost use Rattle.std.specs.Fmt.{signed_decimal};
ghost use Rattle.wf_http_ask.specs.Answers.{Answers};
ghost use Rattle.wf_http_ask.specs.Asking.{text_in};
ghost use Rattle.wf_value.specs.HttpRequest.{texts_by};
ghost use Rattle.wf_value.specs.Data.{pairs_of};
ghost use Rattle.wf_value.specs.Plain.{plain};

use std::alloc::Global;
use wf_value::{Map, OutOfMemory, Pairs, Raise, Tag, Text, Value};

/// Where a map of values is sent.
#[derive(Clone, Copy)]
pub(crate) enum Place {
    Headers,
    Query,
}

/// The pairs of a map in their order, each value as its text.
pub(crate) fn texts_of(alloc: Global, map: &Map, place: Place) -> Result<Pairs, Raise>
    ensures { Answers (λ ps. ps) result (texts_by (text_in place) (pairs_of map.now)) }
{
    let mut pairs = Pairs::new(alloc);
    while let Some((key, value)) = map.entry(pairs.items().len()) {
        let text = text_of(alloc, value, place)?;
        let key = Text::new(alloc, key)?;
        pairs.push(key, text)?;
    }
    Ok(pairs)
}

/// A text as it is, a whole number in decimal digits, and in a query a truth value as its name.
fn text_of(alloc: Global, value: &Value, place: Place) -> Result<Text, Raise>
    ensures { Answers (λ t. t) result (text_in place (plain value.now)) }
{
    let text = match (place, value) {
        (_, Value::Text(text)) => text.copy(),
        (_, Value::Int(number)) => shown(alloc, *number),
        (Place::Query, Value::Bool(truth)) => Text::new(alloc, truth_name(*truth)),
        _ => return Err(Raise::Error(Tag::TypeError)),
    };
    Ok(text?)
}

fn shown(alloc: Global, number: i64) -> Result<Text, OutOfMemory>
    ensures { IfOk result (λ t. t ≡ signed_decimal number) }
{
    let digits = number.to_string(alloc)?;
    Text::new(alloc, digits.as_str())
}

fn truth_name(truth: bool) -> &'static str
    ensures { result.now ≡ (if truth then codes "true" else codes "false") }
{
    if truth { "true" } else { "false" }
}
