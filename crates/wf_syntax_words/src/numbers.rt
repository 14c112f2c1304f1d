// The numbers of retry policies and limits.
ghost use Rattle.std.specs.Prelude.{◌≡◌, ◌*◌, ◌+◌, ◌-◌, ◌^◌, Some, length, true};
ghost use Rattle.std.specs.Str.Parse.{digits_value};
ghost use Rattle.std.specs.List.{list_all};
ghost use Rattle.wf_span.specs.Tokens.{is_digit};
ghost use Rattle.wf_syntax_words.specs.Numbers as numbers;
ghost use Rattle.wf_tree.specs.Plain.{plain_tree};
ghost use Rattle.wf_tree.specs.Trees.{integer, text};

use wf_tree::Tree;

/// A whole number from a least to a greatest.
pub fn whole_within(tree: &Tree, least: u32, most: u32) -> Option<u32>
    ensures { result ≡ numbers.whole_within least most (plain_tree tree.now) }
{
    match tree {
        Tree::Int(n) => {
            if least as i64 <= *n && *n <= most as i64 {
                Some(*n as u32)
            } else {
                None
            }
        }
        _ => None,
    }
}

/// A number in thousandths, up to a greatest.
pub fn thousandths_to(tree: &Tree, most: u64) -> Option<u64>
    ensures { result ≡ numbers.thousandths_to most (plain_tree tree.now) }
{
    let found = match tree {
        Tree::Int(n) => of_whole(*n)?,
        Tree::Decimal(digits) => of_decimal(digits.as_str())?,
        Tree::Text(text) => of_text(text.as_str())?,
        _ => return None,
    };
    if found <= most { Some(found) } else { None }
}

/// The thousandths of a whole number, where they are a number of 64 bits.
fn of_whole(number: i64) -> Option<u64>
    ensures { result ≡ numbers.at_most (2 ^ 64 - 1) (numbers.thousandths (integer number)) }
{
    match u64::try_from(number) {
        Ok(number) => number.checked_mul(1000),
        Err(_) => None,
    }
}

/// The thousandths of digits, or of a decimal.
fn of_text(written: &str) -> Option<u64>
    ensures { result ≡ numbers.at_most (2 ^ 64 - 1) (numbers.thousandths (text written.now)) }
{
    if are_digits(written, written.len()) {
        parsed(written)?.checked_mul(1000)
    } else {
        of_decimal(written)
    }
}

/// The thousandths of one to eight digits, a point and one to three digits.
fn of_decimal(text: &str) -> Option<u64>
    ensures { result ≡ numbers.of_decimal text.now }
{
    match text.split_once('.') {
        Some((whole, part)) => {
            if are_digits(whole, 8) && are_digits(part, 3) {
                joined(whole, part)
            } else {
                None
            }
        }
        None => None,
    }
}

/// The thousandths of the digits before a point and behind it.
fn joined(whole: &str, part: &str) -> Option<u64>
    requires whole { numbers.is_digits 8 whole.now ≡ true }
    requires part { numbers.is_digits 3 part.now ≡ true }
    ensures { result ≡ Some (digits_value 10 whole.now * 1000
        + digits_value 10 part.now * 10 ^ (3 - length part.now)) }
{
    Some(parsed(whole)? * 1000 + parsed(part)? * scale(part.len()))
}

/// The number that digits write, where it is one of 64 bits.
fn parsed(digits: &str) -> Option<u64>
    requires { numbers.is_digits (length digits.now) digits.now ≡ true }
    ensures { result ≡ numbers.at_most (2 ^ 64 - 1) (Some (digits_value 10 digits.now)) }
{
    digits.parse::<u64>().ok()
}

/// What a number of so many digits behind the point is multiplied with.
fn scale(digits: usize) -> u64
    ensures { result ≡ 10 ^ (3 - digits) }
{
    match digits {
        0 => 1000,
        1 => 100,
        2 => 10,
        _ => 1,
    }
}

/// Whether a text is of digits, one at least and so many at most.
fn are_digits(text: &str, most: usize) -> bool
    ensures { result ≡ numbers.is_digits most text.now }
{
    !text.is_empty() && text.len() <= most && are_all_digits(text.as_bytes())
}

fn are_all_digits(bytes: &[u8]) -> bool
    ensures { result ≡ list_all is_digit bytes.now }
{
    bytes.iter().all(|byte| byte.is_ascii_digit())
}
