// What plain scalars are.
ghost use Rattle.std.specs.Prelude.{◌≡◌, ◌≤◌, ◌^◌, MatchOption};
ghost use Rattle.wf_yaml_line.specs.Marks as texts;
ghost use Rattle.wf_yaml_line.specs.Scalars as scalars;
ghost use Rattle.wf_yaml_line.specs.Words as words;

use crate::marks::{behind_first, is_digit, skip_digits};

/// What a plain scalar is.
#[derive(Clone, Copy, Drop)]
pub enum Plain {
    /// Nothing at all, `~`, or a word for null.
    Null,
    /// A word for true or for false.
    Truth(bool),
    /// A whole number of 64 bits, in decimal, octal or hexadecimal digits.
    Whole(i64),
    /// A number that is no whole number of 64 bits, or isn't written as one.
    Decimal,
    /// Anything else.
    Text,
}

/// The value of a digit, 16 where it is none.
fn digit_of(c: char) -> u64
    ensures value { result ≡ words.digit_of c }
    ensures small { result ≤ 16 }
{
    match c {
        '0'..='9' => c as u64 - '0' as u64,
        'a'..='f' => c as u64 - 'a' as u64 + 10,
        'A'..='F' => c as u64 - 'A' as u64 + 10,
        _ => 16,
    }
}

/// Whether there are only digits of the base.
pub(crate) fn all_digits(base: u64, s: &[char]) -> bool
    ensures { result ≡ words.all_digits base s.now }
{
    for c in s {
        if digit_of(*c) >= base {
            return false;
        }
    }
    true
}

/// Whether there are only digits of the base, and one at least.
fn is_number(base: u64, s: &[char]) -> bool
    ensures { result ≡ words.is_number base s.now }
{
    !s.is_empty() && all_digits(base, s)
}

/// The number that digits spell; none where it needs more than 64 bits.
pub(crate) fn number(base: u64, s: &[char]) -> Option<u64>
    requires { 1 ≤ base }
    ensures { MatchOption result (2 ^ 64 ≤ words.number_from base 0 s.now) (λ n. n
        ≡ words.number_from base 0 s.now) }
{
    let mut n: u64 = 0;
    for c in s {
        n = base.checked_mul(n)?.checked_add(digit_of(*c))?;
    }
    Some(n)
}

/// The whole number n, where it has 64 bits.
fn positive(n: u64) -> Option<i64>
    ensures { result ≡ words.whole_of words.plus n }
{
    0_i64.checked_add_unsigned(n)
}

/// The whole number -n, where it has 64 bits.
fn negative(n: u64) -> Option<i64>
    ensures { result ≡ words.whole_of words.minus n }
{
    0_i64.checked_sub_unsigned(n)
}

/// The whole number that digits spell, where it has 64 bits.
fn whole(is_negative: bool, base: u64, s: &[char]) -> Option<i64>
    requires { 1 ≤ base }
    ensures { result ≡ words.whole_of is_negative (words.number_from base 0 s.now) }
{
    let n = number(base, s)?;
    if is_negative {
        negative(n)
    } else {
        positive(n)
    }
}

/// What stands behind a sign, where there is one.
fn unsigned(s: &[char]) -> &[char]
    ensures { result.now ≡ words.unsigned s.now }
{
    match s {
        ['+' | '-', rest @ ..] => rest,
        _ => s,
    }
}

/// Whether a text starts with `-`.
fn is_negative(s: &[char]) -> bool
    ensures { result ≡ words.is_negative s.now }
{
    matches!(s, ['-', ..])
}

/// Whether a text starts with a character.
fn starts_with(c: char, s: &[char]) -> bool
    ensures { result ≡ words.starts_with c s.now }
{
    matches!(s, [d, ..] if *d == c)
}

/// Whether a text starts with `0` and a letter.
fn has_prefix(letter: char, s: &[char]) -> bool
    ensures { result ≡ words.has_prefix letter s.now }
{
    starts_with('0', s) && starts_with(letter, behind_first(s))
}

/// Whether a text has the form `([eE][-+]?[0-9]+)?`.
fn is_exponent(s: &[char]) -> bool
    ensures { result ≡ words.is_exponent s.now }
{
    s.is_empty()
        || (starts_with('e', s) || starts_with('E', s)) && is_number(10, unsigned(behind_first(s)))
}

/// Whether a text starts with a digit.
fn starts_digit(s: &[char]) -> bool
    ensures { result ≡ texts.starts texts.is_digit s.now }
{
    matches!(s, [c, ..] if is_digit(*c))
}

/// Whether a text has the form `(\.[0-9]+|[0-9]+(\.[0-9]*)?)([eE][-+]?[0-9]+)?`.
fn is_unsigned_float(s: &[char]) -> bool
    ensures { result ≡ words.is_unsigned_float s.now }
{
    let rest = skip_digits(s);
    if starts_with('.', rest) {
        let fraction = behind_first(rest);
        (starts_digit(s) || starts_digit(fraction)) && is_exponent(skip_digits(fraction))
    } else {
        starts_digit(s) && is_exponent(rest)
    }
}

/// `null`, `Null`, `NULL`, `~`, or nothing.
fn is_null_word(s: &[char]) -> bool
    ensures { result ≡ texts.is_one_of words.null_words s.now }
{
    matches!(
        s,
        [] | ['~'] | ['n', 'u', 'l', 'l'] | ['N', 'u', 'l', 'l'] | ['N', 'U', 'L', 'L']
    )
}

/// `true`, `True`, `TRUE`.
fn is_true_word(s: &[char]) -> bool
    ensures { result ≡ texts.is_one_of words.true_words s.now }
{
    matches!(
        s,
        ['t', 'r', 'u', 'e'] | ['T', 'r', 'u', 'e'] | ['T', 'R', 'U', 'E']
    )
}

/// `false`, `False`, `FALSE`.
fn is_false_word(s: &[char]) -> bool
    ensures { result ≡ texts.is_one_of words.false_words s.now }
{
    matches!(
        s,
        ['f', 'a', 'l', 's', 'e'] | ['F', 'a', 'l', 's', 'e'] | ['F', 'A', 'L', 'S', 'E']
    )
}

/// `.inf`, `.Inf`, `.INF`.
fn is_infinity_word(s: &[char]) -> bool
    ensures { result ≡ texts.is_one_of words.infinity_words s.now }
{
    matches!(
        s,
        ['.', 'i', 'n', 'f'] | ['.', 'I', 'n', 'f'] | ['.', 'I', 'N', 'F']
    )
}

/// `.nan`, `.NaN`, `.NAN`.
fn is_nan_word(s: &[char]) -> bool
    ensures { result ≡ texts.is_one_of words.nan_words s.now }
{
    matches!(
        s,
        ['.', 'n', 'a', 'n'] | ['.', 'N', 'a', 'N'] | ['.', 'N', 'A', 'N']
    )
}

/// Whether a text is a number with a point or an exponent, an infinity, or no number.
fn is_float(s: &[char]) -> bool
    ensures { result ≡ words.is_float s.now }
{
    is_unsigned_float(unsigned(s)) || is_infinity_word(unsigned(s)) || is_nan_word(s)
}

/// What a whole number is, which may need more than 64 bits.
fn whole_or_decimal(n: Option<i64>) -> Plain
    ensures { result ≡ words.whole_or_decimal n }
{
    match n {
        Some(n) => Plain::Whole(n),
        None => Plain::Decimal,
    }
}

/// Whether a text has the form `[0-9]{1,8}\.[0-9]{1,3}`, as a retry's delay may.
pub(crate) fn is_delay(s: &[char]) -> bool
    ensures { result ≡ scalars.is_delay s.now }
{
    let rest = skip_digits(s);
    let fraction = behind_first(rest);
    let whole = s.len() - rest.len();
    (1..=8).contains(&whole)
        && starts_with('.', rest)
        && (1..=3).contains(&fraction.len())
        && all_digits(10, fraction)
}

/// What a plain scalar is, by the words and numbers of YAML 1.2's core schema. The text has no
/// blanks at its ends.
pub fn plain_kind(s: &[char]) -> Plain
    ensures { result ≡ words.plain_kind s.now }
{
    let behind_prefix = behind_first(behind_first(s));
    if is_null_word(s) {
        Plain::Null
    } else if is_true_word(s) {
        Plain::Truth(true)
    } else if is_false_word(s) {
        Plain::Truth(false)
    } else if is_number(10, unsigned(s)) {
        whole_or_decimal(whole(is_negative(s), 10, unsigned(s)))
    } else if has_prefix('o', s) && is_number(8, behind_prefix) {
        whole_or_decimal(whole(false, 8, behind_prefix))
    } else if has_prefix('x', s) && is_number(16, behind_prefix) {
        whole_or_decimal(whole(false, 16, behind_prefix))
    } else if is_float(s) {
        Plain::Decimal
    } else {
        Plain::Text
    }
}
