// Numbers, lists and bytes, as cases have them.
use std::alloc::Global;
use wf_cases::{CaseFault, hex_of};
use wf_value::Value;

/// So many equal bytes in a row are written as one pair.
const LONG_RUN: u64 = 64;

/// The whole number that a value is, or that stands in a text since it is past those of JSON.
pub fn number_of(value: &Value) -> Result<u64, CaseFault> {
    let number = match value {
        Value::Int(number) => u64::try_from(*number).ok(),
        Value::Text(digits) => digits.as_str().parse::<u64>().ok(),
        _ => None,
    };
    number.ok_or(CaseFault::NoCase)
}

/// The items of a list.
pub fn items_of(value: &Value) -> Result<&[Value], CaseFault> {
    match value {
        Value::List(list) => Ok(list.items()),
        _ => Err(CaseFault::NoCase),
    }
}

/// The whole numbers of a list.
pub fn numbers_of(alloc: Global, value: &Value) -> Result<Vec<u64>, CaseFault> {
    let mut numbers = Vec::new(alloc);
    for item in items_of(value)? {
        if numbers.push(number_of(item)?).is_err() {
            return Err(CaseFault::OutOfMemory);
        }
    }
    Ok(numbers)
}

/// A blank behind what is written already.
pub fn gap(out: &mut String) -> Result<(), CaseFault> {
    if !out.is_empty() {
        out.push(' ')?;
    }
    Ok(())
}

/// Bytes with how often each of them stands in a row.
fn runs_of(alloc: Global, bytes: &[u8]) -> Result<Vec<(u8, u64)>, CaseFault> {
    let mut runs = Vec::new(alloc);
    let mut last = 0u8;
    let mut times = 0u64;
    for byte in bytes {
        if *byte != last && times > 0 {
            if runs.push((last, times)).is_err() {
                return Err(CaseFault::OutOfMemory);
            }
            times = 0;
        }
        last = *byte;
        times = times.saturating_add(1);
    }
    if times > 0 && runs.push((last, times)).is_err() {
        return Err(CaseFault::OutOfMemory);
    }
    Ok(runs)
}

/// Bytes as cases have them: a text in hex, or where a byte stands often in a row a list of such texts and of pairs `[hex, times]`.
pub fn write_bytes(out: &mut String, alloc: Global, bytes: &[u8]) -> Result<(), CaseFault> {
    let runs = runs_of(alloc, bytes)?;
    if runs.iter().all(|(_, times)| *times < LONG_RUN) {
        let hex = hex_of(alloc, bytes)?;
        return Ok(write!(out, "\"{hex}\"")?);
    }
    let mut plain = String::new(alloc);
    out.push('[')?;
    let mut before = "";
    for (byte, times) in &runs {
        if *times < LONG_RUN {
            for _ in 0..*times {
                write!(plain, "{byte:02x}")?;
            }
            continue;
        }
        if !plain.is_empty() {
            write!(out, "{before}\"{plain}\"")?;
            plain.clear();
            before = ",";
        }
        write!(out, "{before}[\"{byte:02x}\",{times}]")?;
        before = ",";
    }
    if !plain.is_empty() {
        write!(out, "{before}\"{plain}\"")?;
    }
    Ok(out.push(']')?)
}
