// The delays of a retry.
ghost use Rattle.std.specs.Prelude.{◌≡◌};
ghost use Rattle.wf_value.specs.Policies.{next_delay};

use wf_value::Backoff;

/// The delay before the next retry, in milliseconds, from the one before it; none was before the first retry.
///
/// The first delay is `initial`, which `max` does not bound. Each later one is the one before it times the multiplier, rounded down,
/// and at most `max`. It holds for all numbers of 64 bits; in a policy they are at most 31,536,000,000.
pub fn next_delay(b: &Backoff, last: Option<u64>) -> u64
    ensures { result ≡ next_delay b.now last }
{
    match last {
        None => b.initial,
        Some(delay) => {
            let grown = u128::from(delay) * u128::from(b.multiplier) / 1000;
            grown.min(u128::from(b.max)) as u64
        }
    }
}
