//! Cases of HTTP and of retries: each line is a table's name, a blank and a case, and a line of answer is printed for it.
#![tactic(auto)]

mod answers;
mod arguments;
mod asks;
mod calls;
mod queues;
mod requests;
mod results;
mod retries;
mod urls;
mod visits;

use std::alloc::Global;
use wf_cases::{Case, CaseFault, case_of};

/// What is printed of a line.
fn line_answer(alloc: Global, line: &str) -> Result<String, CaseFault> {
    answer(alloc, &case_of(alloc, line)?)
}

/// What is printed of a case: of an answer, of where a request leads and what it is, or of another one.
fn answer(alloc: Global, case: &Case<'_>) -> Result<String, CaseFault> {
    match case.table {
        "answers" | "answers_at_edges" => answers::answers(alloc, case),
        "answers_of_fronts" => answers::answers_of_fronts(alloc, case),
        "urls" | "urls_at_edges" => urls::leads(alloc, case),
        "requests" | "requests_at_edges" => requests::sends(alloc, case),
        "refused_requests" => requests::refuses(alloc, case),
        "asked" => asks::asks(alloc, case),
        "asked_and_sent" => asks::asks_to_send(alloc, case),
        _ => visit_answer(alloc, case),
    }
}

/// What is printed of results and visits, or of another case.
fn visit_answer(alloc: Global, case: &Case<'_>) -> Result<String, CaseFault> {
    match case.table {
        "results" | "results_at_edges" => results::results(alloc, case),
        "results_of_bytes" => results::results_of_bytes(alloc, case),
        "results_of_visits" => results::results_of_visits(alloc, case),
        "visits" | "visits_at_edges" => visits::knows(alloc, case),
        "visits_of_fronts" => visits::knows_of_fronts(alloc, case),
        "replies" => visits::replies(alloc, case),
        _ => part_answer(alloc, case),
    }
}

/// What is printed of retries, calls, and queues.
fn part_answer(alloc: Global, case: &Case<'_>) -> Result<String, CaseFault> {
    match case.table {
        "delays" | "delays_at_edges" => retries::delays(alloc, case),
        "predicates" | "predicates_at_edges" => {
            retries::says(alloc, case.text(0)?, case.item(1)?)
        }
        "calls" | "calls_made" => calls::answers(alloc, case.items()),
        "methods" => queues::method(alloc, case.text(0)?),
        "queues" | "queues_made" => queues::answers(alloc, case.items()),
        _ => Err(CaseFault::NoCase),
    }
}

fn main(rt: HostRuntime) -> anyhow::Result<()> {
    for line in rt.lines(rt.alloc()) {
        let text = line_answer(rt.alloc(), line?.as_str())?;
        println!(rt; "{text}")?;
    }
    Ok(())
}
