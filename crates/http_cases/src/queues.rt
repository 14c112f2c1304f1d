// Calls of endpoints, one after another.
use crate::retries::natural;
use std::alloc::Global;
use std::str;
use wf_callbacks::{ArriveFault, Endpoints, Fields, Method, Visitor};
use wf_cases::{CaseFault, text_of};
use wf_value::{Bytes, Value};

/// The name of the method that a text names, or `none`.
pub(crate) fn method(alloc: Global, name: &str) -> Result<String, CaseFault> {
    let shown = match Method::named(name) {
        Some(method) => method.name(),
        None => "none",
    };
    Ok(String::from_str(alloc, shown)?)
}

/// What each of some calls answers, from no endpoints on.
pub(crate) fn answers(alloc: Global, calls: &[Value]) -> Result<String, CaseFault> {
    let mut endpoints = Endpoints::new(alloc)?;
    let mut shown = String::new(alloc);
    for call in calls {
        if !shown.is_empty() {
            shown.push_str("; ")?;
        }
        shown.push_str(called(alloc, &mut endpoints, call)?.as_str())?;
    }
    Ok(shown)
}

/// What a call answers.
fn called(alloc: Global, endpoints: &mut Endpoints, call: &Value) -> Result<String, CaseFault> {
    let Value::List(call) = call else {
        return Err(CaseFault::NoCase);
    };
    let [Value::Text(word), rest @ ..] = call.items() else {
        return Err(CaseFault::NoCase);
    };
    let word = word.as_str();
    match rest {
        [Value::Text(method)] if word == "create" => {
            let number = endpoints.create(named(method.as_str())?)?;
            Ok(format!(in alloc; "{number}")?)
        }
        [Value::Int(n)] => emptied(alloc, endpoints, word, natural(*n)?),
        [Value::Int(n), what, Value::Int(count)] => {
            filled(alloc, endpoints, word, natural(*n)?, what, *count)
        }
        _ => Err(CaseFault::NoCase),
    }
}

/// One request is taken, or all.
fn emptied(
    alloc: Global,
    endpoints: &mut Endpoints,
    word: &str,
    n: u64,
) -> Result<String, CaseFault> {
    match word {
        "take" => taken(alloc, endpoints.take(n)),
        "drain" => drain(alloc, endpoints, n),
        _ => Err(CaseFault::NoCase),
    }
}

/// One request arrives, or many.
fn filled(
    alloc: Global,
    endpoints: &mut Endpoints,
    word: &str,
    n: u64,
    what: &Value,
    count: i64,
) -> Result<String, CaseFault> {
    match (word, what) {
        ("arrive", visitor) => {
            let visitor = visitor_of(alloc, visitor)?;
            joined(alloc, endpoints.arrive(n, visitor, natural(count)?))
        }
        ("fill", Value::Text(method)) => {
            fill(alloc, endpoints, n, named(method.as_str())?, count)
        }
        _ => Err(CaseFault::NoCase),
    }
}

/// `joined`, or why a request didn't join.
fn joined(alloc: Global, answer: Result<(), ArriveFault>) -> Result<String, CaseFault> {
    match answer {
        Ok(()) => Ok(String::from_str(alloc, "joined")?),
        Err(fault) => Ok(format!(in alloc; "{fault:?}")?),
    }
}

/// A request: its method, each field as `NAME=VALUE`, a bar, and its body if it has one; or `none`.
fn taken(alloc: Global, visitor: Option<Visitor>) -> Result<String, CaseFault> {
    let Some(visitor) = visitor else {
        return Ok(String::from_str(alloc, "none")?);
    };
    let mut shown = String::from_str(alloc, visitor.method.name())?;
    for field in visitor.headers.items() {
        let (name, value) = (text(&field.0)?, text(&field.1)?);
        shown.push_str(format!(in alloc; " {name}={value}")?.as_str())?;
    }
    shown.push_str(" |")?;
    let body = text(&visitor.body)?;
    if !body.is_empty() {
        shown.push_str(format!(in alloc; " {body}")?.as_str())?;
    }
    Ok(shown)
}

/// So many requests arrive, whose bodies are the numbers from 1 on: how many joined, and how many found the queue full.
fn fill(
    alloc: Global,
    endpoints: &mut Endpoints,
    n: u64,
    method: Method,
    count: i64,
) -> Result<String, CaseFault> {
    let mut joined = 0u64;
    let mut full = 0u64;
    for number in 1..=natural(count)? {
        let body = number.to_string(alloc)?;
        let visitor = Visitor {
            method,
            headers: Fields::new(alloc)?,
            body: Bytes::new(alloc, body.as_bytes())?,
        };
        match endpoints.arrive(n, visitor, 20) {
            Ok(()) => joined = joined.saturating_add(1),
            Err(ArriveFault::QueueFull) => full = full.saturating_add(1),
            Err(_) => return Err(CaseFault::NoCase),
        }
    }
    Ok(format!(in alloc; "{joined} joined {full} QueueFull")?)
}

/// The bodies of all requests that wait, the first one that is taken first.
fn drain(alloc: Global, endpoints: &mut Endpoints, n: u64) -> Result<String, CaseFault> {
    let mut shown = String::new(alloc);
    for _ in 0..1000 {
        let Some(visitor) = endpoints.take(n) else {
            shown.push_str("none")?;
            return Ok(shown);
        };
        shown.push_str(text(&visitor.body)?)?;
        shown.push(' ')?;
    }
    Err(CaseFault::NoCase)
}

/// A request: its method, its fields as pairs, and the pieces of its body.
fn visitor_of(alloc: Global, value: &Value) -> Result<Visitor, CaseFault> {
    let Value::List(parts) = value else {
        return Err(CaseFault::NoCase);
    };
    let [Value::Text(method), Value::List(fields), Value::List(body)] = parts.items() else {
        return Err(CaseFault::NoCase);
    };
    let method = named(method.as_str())?;
    let body = text_of(alloc, body.items())?;
    Ok(Visitor {
        method,
        headers: fields_of(alloc, fields.items())?,
        body: Bytes::new(alloc, body.as_bytes())?,
    })
}

/// The fields of a request, each a pair.
fn fields_of(alloc: Global, pairs: &[Value]) -> Result<Fields, CaseFault> {
    let mut fields = Fields::new(alloc)?;
    for pair in pairs {
        let (name, value) = field_of(pair)?;
        let name = Bytes::new(alloc, name.as_bytes())?;
        fields.push(name, Bytes::new(alloc, value.as_bytes())?)?;
    }
    Ok(fields)
}

/// The name and the value of a field.
fn field_of(pair: &Value) -> Result<(&str, &str), CaseFault> {
    let Value::List(pair) = pair else {
        return Err(CaseFault::NoCase);
    };
    match pair.items() {
        [Value::Text(name), Value::Text(value)] => Ok((name.as_str(), value.as_str())),
        _ => Err(CaseFault::NoCase),
    }
}

fn named(name: &str) -> Result<Method, CaseFault> {
    match Method::named(name) {
        Some(method) => Ok(method),
        None => Err(CaseFault::NoCase),
    }
}

/// Bytes as a text.
pub(crate) fn text(bytes: &Bytes) -> Result<&str, CaseFault> {
    match str::from_utf8(bytes.as_slice()) {
        Ok(text) => Ok(text),
        Err(_) => Err(CaseFault::NoCase),
    }
}
