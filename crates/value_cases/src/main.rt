//! Cases of values, of the library's functions and of assignments: each line is a table's name, a blank and a case, and a line of answer is
//! printed for it.
#![tactic(auto)]

mod answers;
mod assigns;
mod data;
mod errors;
mod helpers;
mod json;
mod library;
mod lists;
mod long;
mod maps;
mod numbers;
mod places;
mod text;
mod time;

use std::alloc::Global;
use wf_cases::{Case, CaseFault, case_of};

/// What is printed of a case.
fn answer(alloc: Global, case: &Case<'_>) -> Result<String, CaseFault> {
    let items = case.items();
    match case.table {
        "lists" => lists::built(alloc, items),
        "copies_of_lists" => lists::copied(alloc, case.item(0)?, case.item(1)?),
        "maps" => maps::changed(alloc, items),
        "copies_of_maps" => maps::copied(alloc, items),
        "pairs" => maps::pairs(alloc, items),
        "places" | "layers" | "limits" => assigns::answer(alloc, case),
        _ => plain_answer(alloc, case),
    }
}

/// The same, where it is of JSON, or of what a program meets beside values.
fn plain_answer(alloc: Global, case: &Case<'_>) -> Result<String, CaseFault> {
    match case.table {
        "paths" => places::path(alloc, case.items()),
        "errors" => errors::map_of(alloc, case.text(0)?),
        "messages" => errors::message(alloc, case.text(0)?),
        "whole_numbers" => numbers::whole(alloc, case),
        "backoffs" => numbers::backoff(alloc, case),
        _ => json_answer(alloc, case),
    }
}

/// The same, where it is of JSON, or of a function of the library.
fn json_answer(alloc: Global, case: &Case<'_>) -> Result<String, CaseFault> {
    let items = case.items();
    match case.table {
        "json" | "json_examples" => json::read(alloc, items),
        "json_bytes" => json::read_bytes(alloc, items),
        "compact" => json::compacted(alloc, items),
        "again" => json::again(alloc, items),
        "measures" => json::measures(alloc, items),
        "bytes" => json::bytes(alloc, case.item(0)?),
        "texts" => json::texts(alloc, case.text(0)?),
        "same" => json::same(case.item(0)?, case.item(1)?, alloc),
        _ => library::answered(alloc, case),
    }
}

/// What is printed of a line.
fn line_answer(alloc: Global, line: &str) -> Result<String, CaseFault> {
    answer(alloc, &case_of(alloc, line)?)
}

fn main(rt: HostRuntime) -> anyhow::Result<()> {
    for line in rt.lines(rt.alloc()) {
        let text = line_answer(rt.alloc(), line?.as_str())?;
        println!(rt; "{text}")?;
    }
    Ok(())
}
