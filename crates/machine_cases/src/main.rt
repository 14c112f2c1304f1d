//! Cases of machines, replays and engines: a line of standard input is a table's name and a case, and the line that is printed for it is
//! what came.
#![tactic(auto)]

mod engines;
mod events;
mod machines;
mod records;
mod replays;

use anyhow::Result;
use std::alloc::Global;
use wf_cases::{Case, CaseFault, case_of};

/// What is printed for a case.
fn answer(alloc: Global, case: &Case<'_>) -> Result<String, CaseFault> {
    match case.table {
        "replays" => replays::twice(alloc, case),
        "machines" => machines::calls(alloc, case),
        "turns" => engines::turns(alloc, case),
        "engines" => engines::sessions(alloc, case),
        "fault_texts" => replays::fault_texts(alloc),
        _ => Err(CaseFault::NoCase),
    }
}

/// What is printed for a line.
fn line_answer(alloc: Global, line: &str) -> Result<String, CaseFault> {
    answer(alloc, &case_of(alloc, line)?)
}

fn main(rt: HostRuntime) -> Result<()> {
    for line in rt.lines(rt.alloc()) {
        let text = line_answer(rt.alloc(), line?.as_str())?;
        println!(rt; "{text}")?;
    }
    Ok(())
}
