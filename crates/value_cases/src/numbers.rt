// Whole numbers, and the delays of a retry.
use std::alloc::Global;
use wf_cases::{Case, CaseFault};
use wf_value::{Backoff, NumFault, add, div, mul, neg, rem, sub, trunc_div};

/// What an operation gives for two numbers, `neg` for one; or why there is none.
pub(crate) fn whole(alloc: Global, case: &Case<'_>) -> Result<String, CaseFault> {
    let word = case.text(0)?;
    let a = case.number(1)?;
    let found = if word == "neg" {
        neg(a)
    } else {
        of_two(word, a, case.number(2)?)?
    };
    match found {
        Ok(number) => Ok(format!(in alloc; "{number}")?),
        Err(fault) => Ok(format!(in alloc; "{fault:?}")?),
    }
}

fn of_two(word: &str, a: i64, b: i64) -> Result<Result<i64, NumFault>, CaseFault> {
    match word {
        "add" => Ok(add(a, b)),
        "sub" => Ok(sub(a, b)),
        "mul" => Ok(mul(a, b)),
        "div" => Ok(div(a, b)),
        "trunc_div" => Ok(trunc_div(a, b)),
        "rem" => Ok(rem(a, b)),
        _ => Err(CaseFault::NoCase),
    }
}

/// A backoff of three numbers, its fields by their names.
pub(crate) fn backoff(alloc: Global, case: &Case<'_>) -> Result<String, CaseFault> {
    let backoff = Backoff {
        initial: natural(case, 0)?,
        max: natural(case, 1)?,
        multiplier: natural(case, 2)?,
    };
    Ok(format!(in alloc; "{backoff:?}")?)
}

fn natural(case: &Case<'_>, i: usize) -> Result<u64, CaseFault> {
    match u64::try_from(case.number(i)?) {
        Ok(number) => Ok(number),
        Err(_) => Err(CaseFault::NoCase),
    }
}
