// HTTP calls of an execution, one after another.
use crate::queues::text;
use crate::retries::natural;
use std::alloc::Global;
use wf_calls::{Calls, Closed};
use wf_cases::CaseFault;
use wf_host::Address;
use wf_http_ask::Request;
use wf_value::{Bytes, Value};

/// What each of some questions and changes answers, from no calls on.
pub(crate) fn answers(alloc: Global, asked: &[Value]) -> Result<String, CaseFault> {
    let mut calls = Calls::new(alloc);
    let mut shown = String::new(alloc);
    for one in asked {
        if !shown.is_empty() {
            shown.push_str("; ")?;
        }
        shown.push_str(answer(alloc, &mut calls, one)?.as_str())?;
    }
    Ok(shown)
}

/// What one of them answers.
fn answer(alloc: Global, calls: &mut Calls, asked: &Value) -> Result<String, CaseFault> {
    let Value::List(asked) = asked else {
        return Err(CaseFault::NoCase);
    };
    let [Value::Text(word), rest @ ..] = asked.items() else {
        return Err(CaseFault::NoCase);
    };
    let word = word.as_str();
    match rest {
        [Value::Int(number)] => told(alloc, calls, word, natural(*number)?),
        [Value::Int(number), Value::Text(how)] if word == "close" => {
            calls.close(natural(*number)?, closed(how.as_str())?);
            shown(alloc, Some(calls.count()))
        }
        [
            Value::Int(task),
            address,
            Value::Text(bytes),
            Value::Int(due),
        ] if word == "send" => {
            let request = Request {
                address: address_of(address)?,
                bytes: Bytes::new(alloc, bytes.as_str().as_bytes())?,
            };
            calls.send(task_of(*task)?, request, natural(*due)?)?;
            shown(alloc, Some(calls.count()))
        }
        _ => Err(CaseFault::NoCase),
    }
}

/// What is told of the call of a number.
fn told(alloc: Global, calls: &Calls, word: &str, number: u64) -> Result<String, CaseFault> {
    match word {
        "task" => shown(alloc, calls.task(number).map(u64::from)),
        "due" => shown(alloc, calls.due(number)),
        "next_open" => shown(alloc, calls.next_open(number)),
        "request" => sent(alloc, calls.request(number)),
        _ => Err(CaseFault::NoCase),
    }
}

/// A number, or `none`.
fn shown(alloc: Global, number: Option<u64>) -> Result<String, CaseFault> {
    match number {
        Some(number) => Ok(number.to_string(alloc)?),
        None => Ok(String::from_str(alloc, "none")?),
    }
}

/// Where a request is sent, a bar, and its bytes; or `none`.
fn sent(alloc: Global, request: Option<&Request>) -> Result<String, CaseFault> {
    let Some(request) = request else {
        return Ok(String::from_str(alloc, "none")?);
    };
    let (name, port) = (request.address.name.as_str(), request.address.port);
    let bytes = text(&request.bytes)?;
    Ok(format!(in alloc; "{name}:{port} | {bytes}")?)
}

/// An address: a name and a port.
fn address_of(value: &Value) -> Result<Address, CaseFault> {
    let Value::List(parts) = value else {
        return Err(CaseFault::NoCase);
    };
    let [Value::Text(name), Value::Int(port)] = parts.items() else {
        return Err(CaseFault::NoCase);
    };
    let Ok(port) = u16::try_from(*port) else {
        return Err(CaseFault::NoCase);
    };
    Ok(Address {
        name: name.copy()?,
        port,
    })
}

fn task_of(number: i64) -> Result<u32, CaseFault> {
    match u32::try_from(number) {
        Ok(number) => Ok(number),
        Err(_) => Err(CaseFault::NoCase),
    }
}

fn closed(how: &str) -> Result<Closed, CaseFault> {
    match how {
        "answered" => Ok(Closed::Answered),
        "timed_out" => Ok(Closed::TimedOut),
        _ => Err(CaseFault::NoCase),
    }
}
