// Events that cases give to machines.
use std::alloc::Global;
use wf_callbacks::{Fields, Method, Visitor};
use wf_cases::{CaseFault, text_of};
use wf_events::Event;
use wf_host_cases::{items_of, number_of};
use wf_record_parts::{Reply, Response};
use wf_value::{Bytes, Value};

/// A number of 32 bits: that of a task.
fn task_of(value: &Value) -> Result<u32, CaseFault> {
    u32::try_from(number_of(value)?).map_err(|_| CaseFault::NoCase)
}

/// Bytes: a text, or a list of its pieces.
fn content_of(alloc: Global, value: &Value) -> Result<Bytes, CaseFault> {
    match value {
        Value::Text(text) => Ok(Bytes::new(alloc, text.as_str().as_bytes())?),
        pieces => {
            let text = text_of(alloc, items_of(pieces)?)?;
            Ok(Bytes::new(alloc, text.as_str().as_bytes())?)
        }
    }
}

/// The fields of a head: a list of pairs of names and values.
fn fields_of(alloc: Global, value: &Value) -> Result<Fields, CaseFault> {
    let mut fields = Fields::new(alloc)?;
    for field in items_of(value)? {
        let [name, value] = items_of(field)? else {
            return Err(CaseFault::NoCase);
        };
        fields.push(content_of(alloc, name)?, content_of(alloc, value)?)?;
    }
    Ok(fields)
}

/// What is kept of an answer: `"broken"`, `"too long"`, or a list of its code, its fields and its body.
fn reply_of(alloc: Global, value: &Value) -> Result<Reply, CaseFault> {
    if let Value::Text(word) = value {
        return match word.as_str() {
            "broken" => Ok(Reply::Broken),
            "too long" => Ok(Reply::TooLong),
            _ => Err(CaseFault::NoCase),
        };
    }
    let [code, fields, body] = items_of(value)? else {
        return Err(CaseFault::NoCase);
    };
    let Ok(code) = u16::try_from(number_of(code)?) else {
        return Err(CaseFault::NoCase);
    };
    Ok(Reply::Response(Response {
        code,
        headers: fields_of(alloc, fields)?,
        body: content_of(alloc, body)?,
    }))
}

/// A request by POST without fields and without a body.
fn visitor(alloc: Global) -> Result<Visitor, CaseFault> {
    Ok(Visitor {
        method: Method::Post,
        headers: Fields::new(alloc)?,
        body: Bytes::new(alloc, b"")?,
    })
}

/// An event with a reading: a move, an issue or a due moment of a task, or a request that came to an endpoint.
fn timed_event(
    alloc: Global,
    name: &str,
    number: &Value,
    reading: u64,
) -> Result<Event, CaseFault> {
    match name {
        "move" => Ok(Event::MoveAt(task_of(number)?, reading)),
        "issue" => Ok(Event::Issue(task_of(number)?, reading)),
        "due" => Ok(Event::Due(task_of(number)?, reading)),
        "arrive" => {
            let Ok(visitor) = Box::new(alloc, visitor(alloc)?) else {
                return Err(CaseFault::OutOfMemory);
            };
            Ok(Event::Arrive(number_of(number)?, reading, visitor))
        }
        _ => Err(CaseFault::NoCase),
    }
}

/// The event that a list tells: `["move", task]`, `["begin", task]`, `["move", task, reading]`, `["issue", task, reading]`,
/// `["due", task, reading]`, `["arrive", endpoint, reading]`, or `["answer", call, reading, reply]`.
pub fn event_of(alloc: Global, items: &[Value]) -> Result<Event, CaseFault> {
    let [Value::Text(name), number, rest @ ..] = items else {
        return Err(CaseFault::NoCase);
    };
    match rest {
        [] => plain_event(name.as_str(), task_of(number)?),
        [reading] => timed_event(alloc, name.as_str(), number, number_of(reading)?),
        [reading, reply] if name.as_str() == "answer" => {
            let (call, reading) = (number_of(number)?, number_of(reading)?);
            let Ok(reply) = Box::new(alloc, reply_of(alloc, reply)?) else {
                return Err(CaseFault::OutOfMemory);
            };
            Ok(Event::Answer(call, reading, reply))
        }
        _ => Err(CaseFault::NoCase),
    }
}

/// An event without a reading.
fn plain_event(name: &str, task: u32) -> Result<Event, CaseFault> {
    match name {
        "move" => Ok(Event::Move(task)),
        "begin" => Ok(Event::Begin(task)),
        _ => Err(CaseFault::NoCase),
    }
}
