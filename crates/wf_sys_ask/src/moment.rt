// The moments for which the arguments of sleeps ask.
ghost use Rattle.std.specs.Prelude.{◌≡◌, ◌*◌, ℕ, Ok, codes, pos};
ghost use Rattle.wf_eval.specs.Answers.{Answers};
ghost use Rattle.wf_model.specs.Calls as calls;
ghost use Rattle.wf_value.specs.Data.{integer, pairs_of};
ghost use Rattle.wf_value.specs.Errors.{later};
ghost use Rattle.wf_value.specs.HttpRequest.{whole_between};
ghost use Rattle.wf_value.specs.Pairs.{get};
ghost use Rattle.wf_value.specs.Plain.{plain};

use crate::argument::argument;
use std::alloc::Global;
use wf_lib_time::time_parse;
use wf_value::{Map, Raise, Tag, Value};

/// The longest sleep, in seconds.
const LONGEST_SLEEP: i64 = 31_536_000;

/// The moment so many seconds after a reading. A sum past the greatest moment is that moment.
pub fn due_of(now: u64, timeout: u64) -> u64
    ensures { result ≡ later now (timeout * 1000) }
{
    now.saturating_add(timeout.saturating_mul(1_000))
}

/// An argument that is a whole number.
fn whole_at(args: &Map, name: &str) -> Result<i64, Raise>
    ensures { Answers (λ n. n) result (calls.whole_arg (get name.now (pairs_of args.now))) }
{
    match argument(args, name) {
        Some(Value::Int(number)) => Ok(*number),
        _ => Err(Raise::Error(Tag::TypeError)),
    }
}

/// So many seconds, where no sleep is too long for them.
fn seconds_of(seconds: i64) -> Result<u64, Raise>
    ensures { Answers (λ n. n) result (whole_between 0 31536000 seconds) }
{
    if (0..=LONGEST_SLEEP).contains(&seconds) {
        Ok(seconds as u64)
    } else {
        Err(Raise::Error(Tag::ValueError))
    }
}

/// When a sleep of `seconds` ends that begins at a reading, in milliseconds since 1970. `seconds` must be a whole number (else a
/// `TypeError`) from 0 to 31,536,000 (else a `ValueError`).
pub fn sleep_due(args: &Map, now: u64) -> Result<u64, Raise>
    ensures { Answers (λ n. n) result (calls.sleep_due now (pairs_of args.now)) }
{
    let seconds = whole_at(args, "seconds")?;
    let seconds = seconds_of(seconds)?;
    Ok(due_of(now, seconds))
}

/// The moment of some seconds since 1970. No text tells one before that, nor one past the greatest.
fn moment_of(seconds: i64) -> Result<u64, Raise>
    ensures { (n : ℕ) → seconds ≡ pos n → Answers (λ m. m) result (Ok (n * 1000)) }
{
    let Ok(seconds) = u64::try_from(seconds) else {
        return Err(Raise::OutOfMemory);
    };
    match seconds.checked_mul(1_000) {
        Some(moment) => Ok(moment),
        None => Err(Raise::OutOfMemory),
    }
}

/// That of the seconds that a text tells.
fn moment_in(parsed: &Value) -> Result<u64, Raise>
    ensures { (n : ℕ) → plain parsed.now ≡ integer (pos n)
        → Answers (λ m. m) result (Ok (n * 1000)) }
{
    match parsed {
        Value::Int(seconds) => moment_of(*seconds),
        _ => Err(Raise::OutOfMemory),
    }
}

/// When a sleep until `time` ends, in milliseconds since 1970. `time` must be a text (else a `TypeError`) that `time.parse` reads (else
/// its error).
pub fn until_due(alloc: Global, args: &Map) -> Result<u64, Raise>
    ensures { Answers (λ n. n) result (calls.until_due (get (codes "time") (pairs_of args.now))) }
{
    let Some(time) = argument(args, "time") else {
        return Err(Raise::Error(Tag::TypeError));
    };
    match time_parse(alloc, time) {
        Ok(parsed) => moment_in(&parsed),
        Err(raise) => Err(raise),
    }
}
