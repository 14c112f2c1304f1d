// The words of numbers.
ghost use Rattle.std.specs.Prelude.{◌≡◌, if◌then◌else◌, nat_le, None, Some};
ghost use Rattle.wf_args.specs.Lines.{number_to, turn_in, waits_in};

/// The number that decimal digits write, of which the first isn't 0, where it is at most so large.
pub(crate) fn number_to(greatest: u32, word: &str) -> Option<u32>
    ensures { result ≡ number_to greatest word.now }
{
    if word.starts_with('0') || word.starts_with('+') {
        return None;
    }
    match word.parse::<u32>() {
        Ok(number) => at_most(greatest, number),
        Err(_) => None,
    }
}

/// The number, where it is at most so large.
fn at_most(greatest: u32, number: u32) -> Option<u32>
    ensures { result ≡ (if nat_le number greatest then Some number else None) }
{
    if number <= greatest {
        Some(number)
    } else {
        None
    }
}

/// The number that the word of `--turn` says: 0 to 4,294,967,295.
pub(crate) fn turn_in(word: &str) -> Option<u32>
    ensures { result ≡ turn_in word.now }
{
    if word == "0" {
        return Some(0);
    }
    number_to(u32::MAX, word)
}

/// The number that the word of `--waits` says: 1 to 1,000,000,000.
pub(crate) fn waits_in(word: &str) -> Option<u32>
    ensures { result ≡ waits_in word.now }
{
    number_to(1_000_000_000, word)
}
