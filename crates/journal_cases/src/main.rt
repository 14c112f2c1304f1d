//! Cases of hosts, sources, journals, histories and records: a line of standard input is a table's name and a case, and the line that is
//! printed for it is what came.
#![tactic(auto)]

mod histories;
mod hosts;
mod journals;
mod records;

use anyhow::Result;
use std::alloc::Global;
use std::fs::{File, Files};
use std::io::Print;
use std::net::Net;
use std::time::Clock;
use wf_cases::{Case, CaseFault, case_of};

/// What is printed for a case.
fn answer<R>(rt: R, case: &Case<'_>) -> Result<String, CaseFault>
where
    R: Files<File = File> + Clock + Print + Net + AllocGlobal + Copy + Drop,
{
    let alloc = rt.alloc();
    match case.table {
        "hosts" => hosts::calls(alloc, case),
        "sources" => hosts::reads(alloc, case),
        "prints" => hosts::print(alloc, case),
        "file_hosts" => hosts::file_calls(rt, case),
        "file_sources" => hosts::file_reads(rt, case),
        "journals" => journals::calls(alloc, case),
        "file_journals" => journals::in_a_file(rt, case),
        _ => record_answer(alloc, case),
    }
}

/// The same, where it is of histories and records, which need no real file.
fn record_answer(alloc: Global, case: &Case<'_>) -> Result<String, CaseFault> {
    match case.table {
        "histories" => histories::calls(alloc, case),
        "fault_texts" => journals::fault_texts(alloc),
        "records" => records::kind(alloc, case),
        "spellings" => records::spelling(alloc, case),
        "fronts" => records::fronts(alloc, case),
        "arguments" => records::argument(alloc, case),
        "routes" => records::routes(alloc, case),
        "record_fault_texts" => records::fault_texts(alloc),
        _ => Err(CaseFault::NoCase),
    }
}

/// What is printed for a line.
fn line_answer<R>(rt: R, line: &str) -> Result<String, CaseFault>
where
    R: Files<File = File> + Clock + Print + Net + AllocGlobal + Copy + Drop,
{
    answer(rt, &case_of(rt.alloc(), line)?)
}

fn main(rt: HostRuntime) -> Result<()> {
    for line in rt.lines(rt.alloc()) {
        let text = line_answer(rt, line?.as_str())?;
        println!(rt; "{text}")?;
    }
    Ok(())
}
