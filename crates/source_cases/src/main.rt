//! Cases of sources: their trees, their programs, what the checker says of these, and their tables. Each line is a table's name, a blank and a
//! case, and its answer is printed for it: a line, or a line for each node of a table.
#![tactic(auto)]

mod checks;
mod faults;
mod first_faults;
mod gathered;
mod json;
mod keys;
mod kinds;
mod lines;
mod long;
mod node_kinds;
mod nodes;
mod programs;
mod scalars;
mod sources;
mod texts;
mod trees;
mod yaml;

use std::alloc::Global;
use wf_ast::Program;
use wf_cases::{Case, CaseFault, case_of, text_of};

/// What is printed of a case: of a source's program or its table, or else of trees.
fn answer(alloc: Global, case: &Case<'_>) -> Result<String, CaseFault> {
    match case.table {
        "syntax"
        | "first_faults"
        | "decimals_in_sources"
        | "flows"
        | "forms"
        | "policies"
        | "step_counts"
        | "check" => program_answer(alloc, case),
        "nodes" => nodes::lines(alloc, case.text(0)?),
        "found_flows" => nodes::found(alloc, case.text(0)?, case.text(1)?),
        _ => tree_answer(alloc, case),
    }
}

/// What is printed of a source in JSON and its program.
fn program_answer(alloc: Global, case: &Case<'_>) -> Result<String, CaseFault> {
    let source = text_of(alloc, case.items())?;
    source_answer(alloc, case.table, source.as_str())
}

/// What a table wants of a source.
fn source_answer(alloc: Global, table: &str, source: &str) -> Result<String, CaseFault> {
    match table {
        "syntax" | "first_faults" => {
            first_faults::first_fault(alloc, &trees::tree_of(alloc, source)?)
        }
        "decimals_in_sources" => {
            first_faults::first_fault(alloc, &trees::tree_with_decimals(alloc, source)?)
        }
        "check" => checks::said(alloc, source),
        _ => form_answer(alloc, table, &trees::program_of(alloc, source)?),
    }
}

/// What a table wants of a program.
fn form_answer(alloc: Global, table: &str, program: &Program) -> Result<String, CaseFault> {
    match table {
        "flows" => programs::flows(alloc, program),
        "forms" => programs::forms(alloc, program),
        "policies" => programs::policies(alloc, program),
        _ => programs::step_count(alloc, program),
    }
}

/// What is printed of trees, sources, YAML and layouts.
fn tree_answer(alloc: Global, case: &Case<'_>) -> Result<String, CaseFault> {
    let items = case.items();
    match case.table {
        "trees" | "tree_examples" => json::tree(alloc, items),
        "sources" | "source_examples" => sources::source(alloc, items),
        "yaml" | "yaml_examples" => yaml::layout(alloc, items),
        "json_layouts" => json::layout(alloc, items),
        "decimals" => json::decimal(alloc, items),
        "gathered" => gathered::gathered(alloc, case.item(0)?, case.item(1)?),
        "programs" => sources::program(alloc, items),
        "round_trips" => yaml::round_trip(alloc, items),
        _ => part_answer(alloc, case),
    }
}

/// What is printed of what is written, of long sources, and of lines.
fn part_answer(alloc: Global, case: &Case<'_>) -> Result<String, CaseFault> {
    let items = case.items();
    match case.table {
        "written_texts" => yaml::written_text(alloc, case.text(0)?),
        "written_delays" => yaml::written_delays(alloc, case),
        "long_sources" => long::long(alloc, items),
        "counted_keys" => long::counted(alloc, case),
        "lines" => lines::line(alloc, case),
        "last_lines" => lines::last(alloc, items),
        _ => scalar_answer(alloc, case),
    }
}

/// What is printed of scalars and keys.
fn scalar_answer(alloc: Global, case: &Case<'_>) -> Result<String, CaseFault> {
    match case.table {
        "plain_scalars" => scalars::plain(alloc, case.text(0)?),
        "scalars_of_lines" => scalars::one_line(alloc, case.item(0)?, case.text(1)?),
        "keys" => keys::key(alloc, case.text(0)?),
        "delay_keys" => keys::delay_key(alloc, case.text(0)?),
        "key_sets" => keys::held(alloc, case.item(0)?, case.text(1)?),
        "parts" => scalars::parts(alloc, case.text(0)?),
        "ends" => scalars::ends(alloc, case.text(0)?),
        "blanks" => scalars::blank(alloc, case.text(0)?),
        _ => faults::fault(alloc, case),
    }
}

/// What is printed of a line.
fn line_answer(alloc: Global, line: &str) -> Result<String, CaseFault> {
    answer(alloc, &case_of(alloc, line)?)
}

fn main(rt: HostRuntime) -> anyhow::Result<()> {
    for line in rt.lines(rt.alloc()) {
        let text = line_answer(rt.alloc(), line?.as_str())?;
        println!(rt; "{text}")?;
    }
    Ok(())
}
