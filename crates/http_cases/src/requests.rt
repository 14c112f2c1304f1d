// The bytes of requests.
ghost use Rattle.std.specs.Prelude.{◌≤◌, IsTrue};
ghost use Rattle.std.specs.Option.{ForSome};
ghost use Rattle.wf_value.specs.Data.{depth};
ghost use Rattle.wf_value.specs.Plain.{plain};

use crate::arguments::{Stop, asked_of};
use std::alloc::Global;
use wf_cases::{Case, CaseFault, hex_of};
use wf_host::Routes;
use wf_http_out::{Asked, OutFault, address, request_bytes};
use wf_value::{Bytes, Tag, Value};

/// The method, the URL, the fields, the query and the body of a call, the id of its execution and
/// its number: the bytes of its request in hex, or the tag of the error that it raises. There are
/// no routes.
pub(crate) fn sends(alloc: Global, case: &Case<'_>) -> Result<String, CaseFault> {
    told(alloc, sent(alloc, case))
}

/// The same, where a request that is refused tells the fault itself.
pub(crate) fn refuses(alloc: Global, case: &Case<'_>) -> Result<String, CaseFault> {
    match sent(alloc, case) {
        Err(Stop::Refused(fault)) => Ok(format!(in alloc; "{fault:?}")?),
        answer => told(alloc, answer),
    }
}

/// The answer, or the tag of the error that is raised.
pub(crate) fn told(alloc: Global, answer: Result<String, Stop>) -> Result<String, CaseFault> {
    match answer {
        Ok(text) => Ok(text),
        Err(Stop::Raised(tag)) => Ok(String::from_str(alloc, tag.name())?),
        Err(Stop::Refused(fault)) => Ok(String::from_str(alloc, tag_of(fault)?.name())?),
        Err(Stop::Case(fault)) => Err(fault),
    }
}

/// The tag of the error that is raised.
fn tag_of(fault: OutFault) -> Result<Tag, CaseFault> {
    match fault {
        OutFault::BadUrl | OutFault::BadHeader | OutFault::BadBody => Ok(Tag::ValueError),
        OutFault::NoRoute => Ok(Tag::ConnectionError),
        OutFault::OutOfMemory => Err(CaseFault::OutOfMemory),
    }
}

fn sent(alloc: Global, case: &Case<'_>) -> Result<String, Stop> {
    let asked = asked_of(alloc, case)?;
    let id = case.text(5)?;
    let Ok(k) = u64::try_from(case.number(6)?) else {
        return Err(Stop::Case(CaseFault::NoCase));
    };
    if !is_shallow(&asked.body) {
        return Err(Stop::Case(CaseFault::NoCase));
    }
    match request_of(alloc, &asked, id, k) {
        Ok(bytes) => Ok(hex_of(alloc, bytes.as_slice())?),
        Err(fault) => Err(Stop::Refused(fault)),
    }
}

/// Whether a body nests at most 100 deep.
pub(crate) fn is_shallow(body: &Option<Value>) -> bool
    ensures { IsTrue result → ForSome body.now (λ v. depth (plain v) ≤ 100) }
{
    match body {
        Some(value) => value.depth() <= 100,
        None => true,
    }
}

fn request_of(alloc: Global, asked: &Asked, id: &str, k: u64) -> Result<Bytes, OutFault>
    requires { ForSome asked.now.body (λ v. depth (plain v) ≤ 100) }
{
    let goal = address(alloc, asked.url.as_str(), &Routes::new(alloc))?;
    request_bytes(alloc, &goal, asked, id, k)
}
