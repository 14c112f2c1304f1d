// Services of plans.
use crate::{items_of, number_of};
use std::alloc::Global;
use wf_cases::{CaseFault, bytes_of};
use wf_host::{Address, Close, Reply, Service};
use wf_value::Value;

/// The address of a name and a port.
pub fn address_of(name: &Value, port: &Value) -> Result<Address, CaseFault> {
    let Value::Text(name) = name else {
        return Err(CaseFault::NoCase);
    };
    let Ok(port) = u16::try_from(number_of(port)?) else {
        return Err(CaseFault::NoCase);
    };
    Ok(Address {
        name: name.copy()?,
        port,
    })
}

fn close_of(close: &Value) -> Result<Close, CaseFault> {
    let Value::Text(word) = close else {
        return Err(CaseFault::NoCase);
    };
    match word.as_str() {
        "End" => Ok(Close::End),
        "Broken" => Ok(Close::Broken),
        "Silent" => Ok(Close::Silent),
        _ => Err(CaseFault::NoCase),
    }
}

fn pieces_of(alloc: Global, pieces: &Value) -> Result<Vec<Vec<u8>>, CaseFault> {
    let mut all = Vec::new(alloc);
    for piece in items_of(pieces)? {
        if all.push(bytes_of(alloc, piece)?).is_err() {
            return Err(CaseFault::OutOfMemory);
        }
    }
    Ok(all)
}

/// A reply: `[after, pieces, close]`.
fn reply_of(alloc: Global, reply: &Value) -> Result<Reply, CaseFault> {
    let [after, pieces, close] = items_of(reply)? else {
        return Err(CaseFault::NoCase);
    };
    let Ok(after) = u32::try_from(number_of(after)?) else {
        return Err(CaseFault::NoCase);
    };
    Ok(Reply {
        after,
        pieces: pieces_of(alloc, pieces)?,
        close: close_of(close)?,
    })
}

/// A service: `[name, port, again, replies]`.
fn service_of(alloc: Global, service: &Value) -> Result<Service, CaseFault> {
    let [name, port, Value::Bool(again), replies] = items_of(service)? else {
        return Err(CaseFault::NoCase);
    };
    let mut all = Vec::new(alloc);
    for reply in items_of(replies)? {
        if all.push(reply_of(alloc, reply)?).is_err() {
            return Err(CaseFault::OutOfMemory);
        }
    }
    Ok(Service {
        to: address_of(name, port)?,
        replies: all,
        again: *again,
    })
}

/// The services of a list.
pub fn services_of(alloc: Global, services: &Value) -> Result<Vec<Service>, CaseFault> {
    let mut all = Vec::new(alloc);
    for service in items_of(services)? {
        if all.push(service_of(alloc, service)?).is_err() {
            return Err(CaseFault::OutOfMemory);
        }
    }
    Ok(all)
}
