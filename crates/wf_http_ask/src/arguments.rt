// The arguments of a call, by their kinds.
ghost use Rattle.std.specs.Prelude.{◌≡◌, option_map};
ghost use Rattle.wf_http_ask.specs.Answers.{Answers};
ghost use Rattle.wf_http_ask.specs.Asking.{text_in};
ghost use Rattle.wf_value.specs.HttpRequest.{as_text, as_whole, pairs_by};
ghost use Rattle.wf_value.specs.Data.{pairs_of};
ghost use Rattle.wf_value.specs.Pairs.{get};
ghost use Rattle.wf_value.specs.Plain.{plain};

use crate::pairs::{Place, texts_of};
use std::alloc::Global;
use wf_value::{Map, Pairs, Raise, Tag, Text, Value};

/// The argument of this name.
pub(crate) fn argument<'a>(args: &'a Map, name: &str) -> Option<&'a Value>
    ensures { option_map (λ v. plain v.now) result ≡ get name.now (pairs_of args.now) }
{
    args.get(name)
}

/// A text that must be there.
pub(crate) fn text_at<'a>(args: &'a Map, name: &str) -> Result<&'a Text, Raise>
    ensures { Answers (λ t. t.now) result (as_text (get name.now (pairs_of args.now))) }
{
    match argument(args, name) {
        Some(Value::Text(text)) => Ok(text),
        _ => Err(Raise::Error(Tag::TypeError)),
    }
}

/// A whole number; `absent` where the argument is.
pub(crate) fn whole_at(args: &Map, name: &str, absent: i64) -> Result<i64, Raise>
    ensures { Answers (λ n. n) result (as_whole absent (get name.now (pairs_of args.now))) }
{
    match argument(args, name) {
        Some(Value::Int(number)) => Ok(*number),
        Some(_) => Err(Raise::Error(Tag::TypeError)),
        None => Ok(absent),
    }
}

/// The pairs of a map, as texts; none where the argument is absent.
pub(crate) fn pairs_at(alloc: Global, args: &Map, name: &str, place: Place) -> Result<Pairs, Raise>
    ensures { Answers (λ ps. ps) result
        (pairs_by (text_in place) (get name.now (pairs_of args.now))) }
{
    match argument(args, name) {
        Some(Value::Map(map)) => texts_of(alloc, map, place),
        Some(_) => Err(Raise::Error(Tag::TypeError)),
        None => Ok(Pairs::new(alloc)),
    }
}
