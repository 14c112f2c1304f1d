// The text of a moment.
ghost use Rattle.std.specs.Prelude.{◌≡◌, ◌*ℤ◌, ◌↔◌, IfOk, IsTrue, pos};
ghost use Rattle.jiff.specs.Words.{civil_nanos};
ghost use Rattle.wf_value.specs.Answers.{IsAnswerOf};
ghost use Rattle.wf_lib_time.specs.Moments.{IsInTime, stamp_text};
ghost use Rattle.wf_value.specs.LibTime.{time_format};
ghost use Rattle.wf_value.specs.Data.{integer};
ghost use Rattle.wf_value.specs.Plain.{plain};

use jiff::Timestamp;
use jiff::civil::DateTime;
use jiff::tz::Offset;
use std::alloc::Global;
use wf_value::{OutOfMemory, Raise, Tag, Text, Value};

/// 9998-12-31T23:59:59Z, the last second that has a text.
const LAST_SECOND: i64 = 253_370_764_799;

/// `time.format`: the text `YYYY-MM-DDTHH:MM:SSZ` of some seconds since 1970-01-01T00:00:00Z.
///
/// A TypeError where `seconds` is no whole number; a ValueError unless it lies from 0 to
/// 253,370,764,799, the last second of the year 9998.
pub fn time_format(alloc: Global, seconds: &Value) -> Result<Value, Raise>
    ensures { IsAnswerOf result (time_format (plain seconds.now)) }
{
    match seconds {
        Value::Int(seconds) => written(alloc, *seconds),
        _ => Err(Raise::Error(Tag::TypeError)),
    }
}

fn written(alloc: Global, seconds: i64) -> Result<Value, Raise>
    ensures { IsAnswerOf result (time_format (integer seconds)) }
{
    if is_in_time(seconds) {
        Ok(Value::Text(stamp(alloc, seconds)?))
    } else {
        Err(Raise::Error(Tag::ValueError))
    }
}

/// Whether the moment has a text.
pub(crate) fn is_in_time(seconds: i64) -> bool
    ensures { IsTrue result ↔ IsInTime seconds }
{
    seconds >= 0 && seconds <= LAST_SECOND
}

fn stamp(alloc: Global, seconds: i64) -> Result<Text, OutOfMemory>
    requires { IsInTime seconds }
    ensures { IfOk result (λ t. t ≡ stamp_text seconds) }
{
    let at = date_time(seconds);
    let text = format!(in alloc; "{at}Z")?;
    Text::new(alloc, text.as_str())
}

/// The date and the time of day in UTC.
fn date_time(seconds: i64) -> DateTime
    requires { IsInTime seconds }
    ensures { civil_nanos result ≡ seconds *ℤ pos 1_000_000_000 }
{
    Offset::UTC.to_datetime(Timestamp::from_second(seconds).unwrap())
}
