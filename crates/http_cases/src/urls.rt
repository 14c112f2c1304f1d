// Where URLs lead.
use std::alloc::Global;
use wf_cases::{Case, CaseFault, text_of};
use wf_host::{Address, Routes};
use wf_http_out::{OutFault, address};
use wf_value::{Text, Value};

/// A URL, a text or a list whose items are joined, and the routes, each `[host, name, port]`: the
/// name, the port, the authority and the target, or the fault.
pub(crate) fn leads(alloc: Global, case: &Case<'_>) -> Result<String, CaseFault> {
    let url = match case.item(0)? {
        Value::Text(text) => String::from_str(alloc, text.as_str())?,
        Value::List(items) => text_of(alloc, items.items())?,
        _ => return Err(CaseFault::NoCase),
    };
    let routes = routes_of(alloc, case.item(1)?)?;
    match address(alloc, url.as_str(), &routes) {
        Ok(goal) => Ok(format!(in alloc;
            "{} {} {} {}",
            goal.address.name.as_str(),
            goal.address.port,
            goal.authority.as_str(),
            goal.target.as_str()
        )?),
        Err(OutFault::OutOfMemory) => Err(CaseFault::OutOfMemory),
        Err(fault) => Ok(format!(in alloc; "{fault:?}")?),
    }
}

fn routes_of(alloc: Global, value: &Value) -> Result<Routes, CaseFault> {
    let mut routes = Routes::new(alloc);
    let Value::List(items) = value else {
        return Err(CaseFault::NoCase);
    };
    for item in items.items() {
        let Value::List(route) = item else {
            return Err(CaseFault::NoCase);
        };
        let [Value::Text(host), Value::Text(name), Value::Int(port)] = route.items() else {
            return Err(CaseFault::NoCase);
        };
        let Ok(port) = u16::try_from(*port) else {
            return Err(CaseFault::NoCase);
        };
        let to = Address {
            name: name.copy()?,
            port,
        };
        routes.push(host.copy()?, to)?;
    }
    Ok(routes)
}
