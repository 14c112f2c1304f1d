// What a retry waits, and what the predefined predicates say.
use std::alloc::Global;
use wf_cases::{Case, CaseFault};
use wf_retry::{default_says, next_delay};
use wf_value::{Backoff, DefaultKind, Value};

/// The first delays of a backoff, as many as are asked for.
pub(crate) fn delays(alloc: Global, case: &Case<'_>) -> Result<String, CaseFault> {
    let backoff = backoff_of(case)?;
    let count = natural(case.number(3)?)?;
    let mut shown = String::new(alloc);
    let mut last = None;
    for _ in 0..count {
        let delay = next_delay(&backoff, last);
        if last.is_some() {
            shown.push(' ')?;
        }
        shown.push_str(delay.to_string(alloc)?.as_str())?;
        last = Some(delay);
    }
    Ok(shown)
}

/// The backoff that the first three items of a case are.
fn backoff_of(case: &Case<'_>) -> Result<Backoff, CaseFault> {
    Ok(Backoff {
        initial: natural(case.number(0)?)?,
        max: natural(case.number(1)?)?,
        multiplier: natural(case.number(2)?)?,
    })
}

/// Whether a predicate retries an error.
pub(crate) fn says(alloc: Global, kind: &str, error: &Value) -> Result<String, CaseFault> {
    let kind = match kind {
        "idempotent" => DefaultKind::Idempotent,
        "non_idempotent" => DefaultKind::NonIdempotent,
        _ => return Err(CaseFault::NoCase),
    };
    let says = default_says(kind, error);
    Ok(format!(in alloc; "{says}")?)
}

/// A number without a sign.
pub(crate) fn natural(number: i64) -> Result<u64, CaseFault> {
    match u64::try_from(number) {
        Ok(number) => Ok(number),
        Err(_) => Err(CaseFault::NoCase),
    }
}
