//! Cases of expressions, read from standard input. Each line is a table's name, a blank and the case as a JSON list;
//! a line of answer is printed for each.
//!
//! A source of several pieces is joined: a text stands for itself, and `[text, times]` for it so many times over.
//!
//! - `faults`, `targets` [source ..]: whether it is an expression, or the target of an assignment: `ok`, or its fault.
//! - `tokens` [source ..]: its tokens, each `[kind, text, place]`, or its fault.
//! - `token_counts` [source ..]: how many tokens it has, and the kind, the place and the length of the last.
//! - `expressions`, `target_trees`, `template_trees` [source ..]: the tree of an expression, of a target (the key as it
//!   stands, the variable, and the places below it), of a text of a source; or its fault.
//! - `has_expressions` [source ..]: whether a text of a source has expressions.
//! - `values`, `texts` [source, names, now, made]: the value of an expression, of a text of a source.
//! - `facts` [source, names, now, pairs, id]: the same, with the environment and the id.
//! - `templates` [value, names]: the value of a value of a source.
//! - `evaluations`, `fillings` [tree, names, now, made]: the value of the tree of an expression, of a template.
//!
//! `now` is the clock's reading in milliseconds, `made` a list of further names (see `names.rt`); both may be absent.
//! Values are told as JSON, those over 100,000 in size by it; errors by their tag. Trees are told in prefix form (see
//! `trees.rt`).
#![tactic(auto)]

mod answers;
mod names;
mod shown;
mod signs;
mod sources;
mod trees;
mod values;

use std::alloc::Global;
use wf_cases::{Case, CaseFault, case_of, text_of};
use wf_value::Value;

/// What is printed of a line.
fn line_answer(alloc: Global, line: &str) -> Result<String, CaseFault> {
    answer(alloc, &case_of(alloc, line)?)
}

/// What is printed of a case.
fn answer(alloc: Global, case: &Case<'_>) -> Result<String, CaseFault> {
    match case.table {
        "values" | "facts" => values::of_expression(alloc, case),
        "templates" => values::of_value(alloc, case),
        "texts" => values::of_text(alloc, case),
        "evaluations" => values::of_tree(alloc, case),
        "fillings" => values::of_template(alloc, case),
        table => of_source(alloc, table, case.items()),
    }
}

/// What a table wants of a source of these pieces.
fn of_source(alloc: Global, table: &str, pieces: &[Value]) -> Result<String, CaseFault> {
    let source = text_of(alloc, pieces)?;
    sources::answer(alloc, table, source.as_str())
}

fn main(rt: HostRuntime) -> anyhow::Result<()> {
    for line in rt.lines(rt.alloc()) {
        let text = line_answer(rt.alloc(), line?.as_str())?;
        println!(rt; "{text}")?;
    }
    Ok(())
}
