// What the answers of services and the requests to callbacks give.
use crate::answers::reading_of;
use std::alloc::Global;
use wf_callbacks::{Fields, Method, Visitor};
use wf_cases::{Case, CaseFault, blob_of, bytes_of, json_of};
use wf_http_value::{ReplyFault, reply_value, response_value, visit_value};
use wf_value::{Bytes, Value};

/// A code, fields and a body: the value that they give, or the error that they raise, as JSON.
pub(crate) fn results(alloc: Global, case: &Case<'_>) -> Result<String, CaseFault> {
    let Ok(code) = u16::try_from(case.number(0)?) else {
        return Err(CaseFault::NoCase);
    };
    let fields = fields_of(alloc, case.item(1)?)?;
    let body = bytes_of(alloc, case.item(2)?)?;
    given(
        alloc,
        &response_value(alloc, code, fields.items(), body.as_slice()),
    )
}

/// The same of all bytes that were heard of an answer, and of how the connection stands.
pub(crate) fn results_of_bytes(alloc: Global, case: &Case<'_>) -> Result<String, CaseFault> {
    let reading = reading_of(alloc, case)?;
    match reading.answer() {
        None => Ok(String::from_str(alloc, "none")?),
        Some(answer) => given(alloc, &reply_value(alloc, &answer)),
    }
}

/// The same of the method, the fields and the body of a request to a callback.
pub(crate) fn results_of_visits(alloc: Global, case: &Case<'_>) -> Result<String, CaseFault> {
    let Some(method) = Method::named(case.text(0)?) else {
        return Err(CaseFault::NoCase);
    };
    let visitor = Visitor {
        method,
        headers: fields_of(alloc, case.item(1)?)?,
        body: blob_of(alloc, case.item(2)?)?,
    };
    given(alloc, &visit_value(alloc, &visitor))
}

fn fields_of(alloc: Global, list: &Value) -> Result<Fields, CaseFault> {
    let Value::List(list) = list else {
        return Err(CaseFault::NoCase);
    };
    let mut fields = Fields::new(alloc)?;
    for field in list.items() {
        fields.push(part_of(alloc, field, 0)?, part_of(alloc, field, 1)?)?;
    }
    Ok(fields)
}

fn part_of(alloc: Global, field: &Value, i: usize) -> Result<Bytes, CaseFault> {
    let Value::List(parts) = field else {
        return Err(CaseFault::NoCase);
    };
    match parts.items().get(i) {
        Some(part) => blob_of(alloc, part),
        None => Err(CaseFault::NoCase),
    }
}

fn given(alloc: Global, answer: &Result<Value, ReplyFault>) -> Result<String, CaseFault> {
    match answer {
        Ok(value) => json_of(alloc, value),
        Err(ReplyFault::Raised(error)) => json_of(alloc, error),
        Err(ReplyFault::OutOfMemory) => Err(CaseFault::OutOfMemory),
    }
}
