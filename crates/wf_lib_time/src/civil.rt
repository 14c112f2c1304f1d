// Dates and times of day.
ghost use Rattle.std.specs.Prelude.{◌≡◌, ◌≤◌, ◌&&◌, IfSome, MatchOption, codes, false, true};
ghost use Rattle.wf_lib_time.specs.Moments.{IsShort, date_seconds};
ghost use Rattle.wf_value.specs.LibTime.{civil_seconds, has_form, is_civil, is_real_date, is_real_time, number_at};

use crate::form::{has_form, two_digits};
use jiff::civil::DateTime;

/// The seconds from 1970 to a date and a time of day, both real.
pub(crate) fn civil_seconds(text: &[u8]) -> Option<i64>
    ensures time { MatchOption result (is_civil text.now ≡ false) (λ n. (is_civil text.now ≡ true)
        × (n ≡ civil_seconds text.now)) }
    ensures short { IfSome result IsShort }
{
    if !has_form(b"dddd-dd-ddTdd:dd:dd", text) {
        return None;
    }
    let year = u16::from(two_digits(text, 0)) * 100 + u16::from(two_digits(text, 2));
    let month = two_digits(text, 5);
    let day = two_digits(text, 8);
    let hour = two_digits(text, 11);
    let minute = two_digits(text, 14);
    let second = two_digits(text, 17);
    seconds_at(year, month, day, hour, minute, second)
}

fn seconds_at(year: u16, month: u8, day: u8, hour: u8, minute: u8, second: u8) -> Option<i64>
    requires year { year ≤ 9999 }
    requires month { month ≤ 99 }
    requires day { day ≤ 99 }
    requires hour { hour ≤ 99 }
    requires minute { minute ≤ 99 }
    requires second { second ≤ 99 }
    ensures time { MatchOption result ((is_real_date year month day && is_real_time hour minute
        second) ≡ false) (λ n. ((is_real_date year month day && is_real_time hour minute second)
        ≡ true) × (n ≡ date_seconds year month day hour minute second)) }
    ensures short { IfSome result IsShort }
{
    let (month, day) = (month as i8, day as i8);
    let (hour, minute, second) = (hour as i8, minute as i8, second as i8);
    match DateTime::new(year as i16, month, day, hour, minute, second, 0) {
        Ok(at) => Some(at.to_plain().to_second()),
        Err(_) => None,
    }
}
