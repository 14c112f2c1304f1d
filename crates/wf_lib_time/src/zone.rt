// What stands behind the seconds.
ghost use Rattle.std.specs.Prelude.{◌≡◌, ◌*◌, ◌≤◌, IfSome, MatchOption, None, Some, false, length, pos, true};
ghost use Rattle.std.specs.Char.{is_ascii_digit};
ghost use Rattle.std.specs.List.{prefix_len};
ghost use Rattle.wf_lib_time.specs.Moments.{HasTwoDigits, IsShort};
ghost use Rattle.wf_value.specs.LibTime.{is_real_offset, minutes_ahead, offset_of, without_fraction};

use crate::form::{has_form, two_digits};

/// How many digits a text begins with.
fn digit_count(text: &[u8]) -> usize
    ensures value { result ≡ prefix_len is_ascii_digit text.now }
    ensures within { result ≤ length text.now }
{
    text.iter().take_while(|b| b.is_ascii_digit()).count()
}

/// What follows a point and one to nine digits, if a point stands there.
#[tactic(auto, using(crate::proofs::Zones::no_text, crate::proofs::Zones::no_point, crate::proofs::Zones::no_digits, crate::proofs::Zones::many_digits, crate::proofs::Zones::few_digits))]
pub(crate) fn without_fraction(text: &[u8]) -> Option<&[u8]>
    ensures { MatchOption result (without_fraction text.now ≡ None) (λ r. without_fraction text.now
        ≡ Some r.now) }
{
    let Some((point, digits)) = text.split_first() else {
        return Some(text);
    };
    if *point != b'.' {
        return Some(text);
    }
    let count = digit_count(digits);
    if count == 0 || count > 9 {
        return None;
    }
    Some(&digits[count..])
}

/// The seconds that a zone is ahead: `Z`, or hours and minutes with a sign.
pub(crate) fn seconds_ahead(zone: &[u8]) -> Option<i64>
    ensures zone { result ≡ offset_of zone.now }
    ensures short { IfSome result IsShort }
{
    if zone == b"Z".as_slice() {
        Some(0)
    } else if has_form(b"+dd:dd", zone) {
        offset(zone)
    } else if has_form(b"-dd:dd", zone) {
        Some(-offset(zone)?)
    } else {
        None
    }
}

/// The seconds of the hours and minutes behind a sign.
fn offset(zone: &[u8]) -> Option<i64>
    requires hours { HasTwoDigits zone.now 1 }
    requires minutes { HasTwoDigits zone.now 4 }
    ensures zone { MatchOption result (is_real_offset zone.now
        ≡ false) (λ n. (is_real_offset zone.now ≡ true) × (n ≡ pos (minutes_ahead zone.now * 60))) }
    ensures short { IfSome result IsShort }
{
    let hours = two_digits(zone, 1);
    let minutes = two_digits(zone, 4);
    if hours > 23 || minutes > 59 {
        return None;
    }
    Some((i64::from(hours) * 60 + i64::from(minutes)) * 60)
}
