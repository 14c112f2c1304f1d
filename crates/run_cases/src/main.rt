//! Whole runs of the top call over a source and a host in memory: each line is a case, and a line tells what it comes to.
//!
//! The tables `runs_control`, `runs_errors`, `runs_calls`, `runs_retry`, `stops` and `reports` have the case `[words, source, plan]` and the
//! answer `STATUS "printed" Nr Me`, with the counts of the records and of the events in the journal left. The others are our own:
//!
//! - `commands`: the same case, and behind the same answer the count of readings with an `n`, that of the deeds that are neither readings nor
//!   prints with a `d`, whether the journal was `kept` or `changed`, and whether what was written of it is `synced` or `unsynced`.
//! - `journal_left`: the same case, and the journal left in hex.
//! - `series`: commands that follow each other on one journal (see `series`).
//! - `calls`: the same, and behind each answer the deeds (see `deeds`).
//! - `lines` and `options`: words, and what line they are, and where paths and addresses are found in them (see `lines`).
//! - `statuses`: a status, and its number and text (see `statuses`).
#![tactic(auto)]

mod command;
mod deeds;
mod ended;
mod lines;
mod plan;
mod records;
mod series;
mod statuses;

use command::Command;
use ended::Ended;
use std::alloc::Global;
use wf_cases::{Case, CaseFault, case_of, hex_of};

/// What the command that a case is comes to.
fn made(alloc: Global, case: &Case<'_>) -> Result<Ended, CaseFault> {
    let command = Command::new(alloc, case.item(0)?, case.item(1)?, case.item(2)?)?;
    command.run(alloc)
}

fn line_of(alloc: Global, case: &Case<'_>) -> Result<String, CaseFault> {
    made(alloc, case)?.line(alloc)
}

fn full_line_of(alloc: Global, case: &Case<'_>) -> Result<String, CaseFault> {
    made(alloc, case)?.full_line(alloc)
}

fn journal_left(alloc: Global, case: &Case<'_>) -> Result<String, CaseFault> {
    let ended = made(alloc, case)?;
    hex_of(alloc, ended.journal.as_slice())
}

/// What is printed of a case.
fn answer(alloc: Global, case: &Case<'_>) -> Result<String, CaseFault> {
    match case.table {
        "runs_control" | "runs_errors" | "runs_calls" | "runs_retry" | "stops" | "reports" => {
            line_of(alloc, case)
        }
        "commands" => full_line_of(alloc, case),
        "journal_left" => journal_left(alloc, case),
        "series" => series::answer(alloc, case.items(), false),
        "calls" => series::answer(alloc, case.items(), true),
        "lines" => lines::line(alloc, case.items()),
        "options" => lines::options(alloc, case.items()),
        "statuses" => statuses::answer(alloc, case),
        _ => Err(CaseFault::NoCase),
    }
}

/// What is printed of a line.
fn line_answer(alloc: Global, line: &str) -> Result<String, CaseFault> {
    answer(alloc, &case_of(alloc, line)?)
}

fn main(rt: HostRuntime) -> anyhow::Result<()> {
    for line in rt.lines(rt.alloc()) {
        let text = line_answer(rt.alloc(), line?.as_str())?;
        println!(rt; "{text}")?;
    }
    Ok(())
}
