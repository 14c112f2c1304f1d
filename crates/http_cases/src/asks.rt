// What the arguments of calls ask for.
use crate::arguments::Stop;
use crate::requests::{is_shallow, told};
use std::alloc::Global;
use wf_callbacks::Method;
use wf_cases::{Case, CaseFault, hex_of, json_of, value_of};
use wf_host::Routes;
use wf_http_ask::{Request, asked_of, request_of};
use wf_http_out::Asked;
use wf_value::{List, Pairs, Text, Value};

/// The method that the call's own name tells, or null, and the arguments: a list of the method, the
/// URL, the fields and the query, each pair a list, the body, which is null for none, and the
/// timeout, as JSON; or the tag of the error that is raised.
pub(crate) fn asks(alloc: Global, case: &Case<'_>) -> Result<String, CaseFault> {
    told(alloc, asked_text(alloc, case))
}

/// The same, the id of the execution and the number of the call: the name and the port that its
/// request is sent to and its bytes in hex, or the tag of the error that is raised. There are no
/// routes.
pub(crate) fn asks_to_send(alloc: Global, case: &Case<'_>) -> Result<String, CaseFault> {
    told(alloc, sent_text(alloc, case))
}

fn asked_text(alloc: Global, case: &Case<'_>) -> Result<String, Stop> {
    let asked = asked_in(alloc, case)?;
    Ok(json_of(alloc, &listed(alloc, &asked)?)?)
}

fn sent_text(alloc: Global, case: &Case<'_>) -> Result<String, Stop> {
    let id = case.text(2)?;
    let Ok(number) = u64::try_from(case.number(3)?) else {
        return Err(Stop::Case(CaseFault::NoCase));
    };
    let asked = asked_in(alloc, case)?;
    if !is_shallow(&asked.body) {
        return Err(Stop::Case(CaseFault::NoCase));
    }
    let request = request_of(alloc, &Routes::new(alloc), &asked, id, number)?;
    Ok(sent(alloc, &request)?)
}

fn asked_in(alloc: Global, case: &Case<'_>) -> Result<Asked, Stop> {
    let method = match case.item(0)? {
        Value::Null => None,
        _ => Some(named(case.text(0)?)?),
    };
    match &value_of(alloc, case.item(1)?)? {
        Value::Map(args) => Ok(asked_of(alloc, method, args)?),
        _ => Err(Stop::Case(CaseFault::NoCase)),
    }
}

fn named(name: &str) -> Result<Method, CaseFault> {
    match Method::named(name) {
        Some(method) => Ok(method),
        None => Err(CaseFault::NoCase),
    }
}

fn listed(alloc: Global, asked: &Asked) -> Result<Value, CaseFault> {
    let Ok(timeout) = i64::try_from(asked.timeout) else {
        return Err(CaseFault::NoCase);
    };
    let mut list = parts_of(alloc, asked)?;
    list.push(match &asked.body {
        Some(body) => body.copy(alloc)?,
        None => Value::Null,
    })?;
    list.push(Value::Int(timeout))?;
    Ok(Value::List(list))
}

/// The method, the URL, the fields and the query.
fn parts_of(alloc: Global, asked: &Asked) -> Result<List, CaseFault> {
    let mut list = List::new(alloc)?;
    list.push(Value::Text(Text::new(alloc, asked.method.name())?))?;
    list.push(Value::Text(asked.url.copy()?))?;
    list.push(pair_lists(alloc, &asked.fields)?)?;
    list.push(pair_lists(alloc, &asked.query)?)?;
    Ok(list)
}

fn pair_lists(alloc: Global, pairs: &Pairs) -> Result<Value, CaseFault> {
    let mut lists = List::new(alloc)?;
    for (name, value) in pairs.items() {
        lists.push(pair_list(alloc, name, value)?)?;
    }
    Ok(Value::List(lists))
}

fn pair_list(alloc: Global, name: &Text, value: &Text) -> Result<Value, CaseFault> {
    let mut list = List::new(alloc)?;
    list.push(Value::Text(name.copy()?))?;
    list.push(Value::Text(value.copy()?))?;
    Ok(Value::List(list))
}

fn sent(alloc: Global, request: &Request) -> Result<String, CaseFault> {
    let bytes = hex_of(alloc, request.bytes.as_slice())?;
    Ok(format!(in alloc;
        "{} {} {}",
        request.address.name.as_str(),
        request.address.port,
        bytes.as_str()
    )?)
}
