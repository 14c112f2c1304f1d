// The functions of time.
use std::alloc::Global;
use wf_cases::CaseFault;
use wf_lib_time::{time_format, time_parse};
use wf_value::{Raise, Value};

/// What a function of time gives.
pub(crate) fn called(
    alloc: Global,
    name: &str,
    args: &[Value],
) -> Result<Result<Value, Raise>, CaseFault> {
    Ok(match (name, args) {
        ("time.format", [seconds]) => time_format(alloc, seconds),
        ("time.parse", [text]) => time_parse(alloc, text),
        _ => return Err(CaseFault::NoCase),
    })
}
