// The arguments of calls.
use std::alloc::Global;
use wf_cases::{Case, CaseFault, value_of};
use wf_http_out::{Asked, OutFault};
use wf_value::{Map, OutOfMemory, Raise, Tag, Text};

/// The arguments that the first items of a case are.
const NAMES: [&str; 5] = ["method", "url", "headers", "query", "body"];

/// Why a case has no bytes: the arguments raise an error, the request is refused, or the line is no
/// case.
#[derive(Drop)]
pub(crate) enum Stop {
    Raised(Tag),
    Refused(OutFault),
    Case(CaseFault),
}

impl From<CaseFault> for Stop {
    fn from(fault: CaseFault) -> Stop {
        Stop::Case(fault)
    }
}

impl From<OutOfMemory> for Stop {
    fn from(_fault: OutOfMemory) -> Stop {
        Stop::Case(CaseFault::OutOfMemory)
    }
}

impl From<Raise> for Stop {
    fn from(raise: Raise) -> Stop {
        match raise {
            Raise::Error(tag) => Stop::Raised(tag),
            Raise::OutOfMemory => Stop::Case(CaseFault::OutOfMemory),
        }
    }
}

/// What the first five items of a case ask for.
pub(crate) fn asked_of(alloc: Global, case: &Case<'_>) -> Result<Asked, Stop> {
    let mut args = Map::new(alloc)?;
    for i in 0..NAMES.len() {
        let value = value_of(alloc, case.item(i)?)?;
        args.insert(Text::new(alloc, NAMES[i])?, value)?;
    }
    Ok(wf_http_ask::asked_of(alloc, None, &args)?)
}
