// Numbers that a Content-Length tells.
ghost use Rattle.std.specs.Prelude.{◌≡◌, ◌+◌, ◌==◌, ◌≤◌, true, min};
ghost use Rattle.std.specs.Char.{is_ascii_digit};
ghost use Rattle.std.specs.List.{list_all};
ghost use Rattle.std.specs.Str.Parse.{digits_value};
ghost use Rattle.wf_value.specs.HttpBody as body;

/// Whether a value is of decimal digits.
pub(crate) fn is_number(value: &[u8]) -> bool
    ensures { result ≡ body.is_number value.now }
{
    for byte in value {
        if !byte.is_ascii_digit() {
            return false;
        }
    }
    !value.is_empty()
}

/// The number that digits tell, or one more than the limit where it is greater.
pub(crate) fn length_told(digits: &[u8], limit: usize) -> usize
    requires digits { list_all is_ascii_digit digits.now ≡ true }
    requires limit { limit ≤ 16777216 }
    ensures { result ≡ min (digits_value 10 digits.now) (limit + 1) }
{
    let mut length: usize = 0;
    for digit in digits {
        length = (length * 10 + (*digit - b'0') as usize).min(limit + 1);
    }
    length
}

/// Whether digits tell the same number. Their last digits are compared first; what one has more in
/// front is zeros.
pub(crate) fn is_same_number(mut one: &[u8], mut other: &[u8]) -> bool
    requires one { list_all is_ascii_digit one.now ≡ true }
    requires other { list_all is_ascii_digit other.now ≡ true }
    ensures { result ≡ (digits_value 10 other.now == digits_value 10 one.now) }
{
    while let [one_front @ .., one_last] = one
        && let [other_front @ .., other_last] = other
    {
        if *one_last != *other_last {
            return false;
        }
        one = one_front;
        other = other_front;
    }
    is_zero(one) && is_zero(other)
}

fn is_zero(digits: &[u8]) -> bool
    requires { list_all is_ascii_digit digits.now ≡ true }
    ensures { result ≡ (digits_value 10 digits.now == 0) }
{
    for digit in digits {
        if *digit != b'0' {
            return false;
        }
    }
    true
}
