// Hosts in memory, by the plans that cases tell, and what they leave.
use crate::services::services_of;
use crate::{number_of, numbers_of, write_bytes};
use std::alloc::Global;
use wf_cases::{CaseFault, bytes_of};
use wf_host::{MemHost, Plan};
use wf_value::{Map, Value};

/// The numbers of a plan's list, none where it has no such key.
fn plan_numbers(alloc: Global, plan: &Map, key: &str) -> Result<Vec<u64>, CaseFault> {
    match plan.get(key) {
        Some(list) => numbers_of(alloc, list),
        None => Ok(Vec::new(alloc)),
    }
}

/// The number of a plan, if it has one.
fn limit_of(plan: &Map, key: &str) -> Result<Option<u64>, CaseFault> {
    match plan.get(key) {
        Some(value) => Ok(Some(number_of(value)?)),
        None => Ok(None),
    }
}

/// A host by a plan of at most `image`, `clock`, `fail`, `stop`, `services` and `print_room`.
pub fn host_of(alloc: Global, plan: &Value) -> Result<MemHost, CaseFault> {
    let Value::Map(plan) = plan else {
        return Err(CaseFault::NoCase);
    };
    let plan = Plan {
        image: match plan.get("image") {
            Some(image) => bytes_of(alloc, image)?,
            None => Vec::new(alloc),
        },
        clock: plan_numbers(alloc, plan, "clock")?,
        fail: plan_numbers(alloc, plan, "fail")?,
        stop: limit_of(plan, "stop")?,
        services: match plan.get("services") {
            Some(services) => services_of(alloc, services)?,
            None => Vec::new(alloc),
        },
        visits: Vec::new(alloc),
        print_room: limit_of(plan, "print_room")?,
    };
    Ok(MemHost::new(alloc, plan)?)
}

/// The file that is left where all that was written stays, and where all that was synced does, if that is another.
pub fn write_left(out: &mut String, alloc: Global, host: MemHost) -> Result<(), CaseFault> {
    let written = Vec::from_slice(alloc, host.image())?;
    let synced = host.crash(alloc, false)?;
    out.push_str(" | ")?;
    write_bytes(out, alloc, &written)?;
    if written.as_slice() != synced.as_slice() {
        out.push_str(" or ")?;
        write_bytes(out, alloc, &synced)?;
    }
    Ok(())
}
