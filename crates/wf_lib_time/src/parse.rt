// The moment that a text tells.
ghost use Rattle.std.specs.Prelude.{◌≡◌, ◌-ℤ◌, option_map, pos};
ghost use Rattle.wf_value.specs.Answers.{IsAnswerOf};
ghost use Rattle.wf_lib_time.specs.Moments.{IsShort};
ghost use Rattle.wf_value.specs.LibTime.{parsed_time, second_in_range, time_parse};
ghost use Rattle.wf_value.specs.Data.{text};
ghost use Rattle.wf_value.specs.Plain.{plain};

use crate::civil::civil_seconds;
use crate::format::is_in_time;
use crate::zone::{seconds_ahead, without_fraction};
use std::alloc::Global;
use wf_value::{Raise, Tag, Value};

/// `time.parse`: the seconds since 1970-01-01T00:00:00Z that a text tells. It is
/// `YYYY-MM-DDTHH:MM:SS`, then optionally a point and 1 to 9 digits, which are dropped, then `Z` or
/// `+HH:MM` or `-HH:MM` with hours to 23 and minutes to 59. It allocates nothing.
///
/// A TypeError where `value` is no text; a ValueError where the text has another form, the date is
/// not one of the calendar, the hours are past 23, the minutes or seconds past 59, or the moment
/// lies outside the range of `time.format`.
pub fn time_parse(_alloc: Global, value: &Value) -> Result<Value, Raise>
    ensures { IsAnswerOf result (time_parse (plain value.now)) }
{
    match value {
        Value::Text(text) => moment(text.as_str()),
        _ => Err(Raise::Error(Tag::TypeError)),
    }
}

fn moment(s: &str) -> Result<Value, Raise>
    ensures { IsAnswerOf result (time_parse (text s.now)) }
{
    match parsed(s.as_bytes()) {
        Some(seconds) => Ok(Value::Int(seconds)),
        None => Err(Raise::Error(Tag::ValueError)),
    }
}

/// How many bytes a date and a time of day have.
const CIVIL_LENGTH: usize = 19;

fn parsed(text: &[u8]) -> Option<i64>
    ensures { result ≡ option_map (λ n. pos n) (parsed_time text.now) }
{
    if text.len() < CIVIL_LENGTH {
        return None;
    }
    let (front, behind) = text.split_at(CIVIL_LENGTH);
    let local = civil_seconds(front)?;
    let ahead = seconds_ahead(without_fraction(behind)?)?;
    in_range(local, ahead)
}

/// The moment of a local time, if `time.format` has it.
fn in_range(local: i64, ahead: i64) -> Option<i64>
    requires local { IsShort local }
    requires ahead { IsShort ahead }
    ensures { result ≡ option_map (λ n. pos n) (second_in_range (local -ℤ ahead)) }
{
    let seconds = local - ahead;
    if is_in_time(seconds) {
        Some(seconds)
    } else {
        None
    }
}
