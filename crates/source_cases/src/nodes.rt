// The tables `nodes` and `found_flows`: the nodes of a program's table, and the numbers of its workflows.
use crate::node_kinds;
use crate::trees::program_of;
use std::alloc::Global;
use wf_cases::CaseFault;
use wf_model::Node;
use wf_table::table_of;

/// A line for each node, in the order of their numbers, and one with the workflows and their numbers.
pub(crate) fn lines(alloc: Global, source: &str) -> Result<String, CaseFault> {
    let program = program_of(alloc, source)?;
    let table = table_of(alloc, &program)?;
    let mut lines = String::new(alloc);
    for number in 0..u32::MAX {
        let Some(node) = table.node(number) else {
            break;
        };
        lines.push_str(node_line(alloc, number, node)?.as_str())?;
    }
    lines.push_str("workflows")?;
    for flow in program.flows.items() {
        let name = flow.name.as_str();
        let Some(number) = table.flow(name) else {
            return Err(CaseFault::NoCase);
        };
        lines.push_str(format!(in alloc; " {name} {number}")?.as_str())?;
    }
    Ok(lines)
}

/// The number of the workflow of a name, or `none`.
pub(crate) fn found(alloc: Global, source: &str, name: &str) -> Result<String, CaseFault> {
    let table = table_of(alloc, &program_of(alloc, source)?)?;
    match table.flow(name) {
        Some(number) => Ok(format!(in alloc; "{number}")?),
        None => Ok(String::from_str(alloc, "none")?),
    }
}

/// A node: its number, what it is, whose list it stands in, and what is next.
fn node_line(alloc: Global, number: u32, node: &Node) -> Result<String, CaseFault> {
    let kind = node_kinds::told(alloc, node)?;
    let codes = codes_text(alloc, node.codes.items().len())?;
    let owner = owner_text(alloc, node.owner)?;
    let next = next_text(alloc, node)?;
    Ok(format!(in alloc; "{number} {kind}{codes}{owner}{next}\n")?)
}

/// How many expressions it has.
fn codes_text(alloc: Global, count: usize) -> Result<String, CaseFault> {
    match count {
        0 => Ok(String::new(alloc)),
        _ => Ok(format!(in alloc; "; codes {count}")?),
    }
}

fn owner_text(alloc: Global, owner: Option<u32>) -> Result<String, CaseFault> {
    match owner {
        Some(owner) => Ok(format!(in alloc; "; in {owner}")?),
        None => Ok(String::new(alloc)),
    }
}

/// What is next, and where that leads.
fn next_text(alloc: Global, node: &Node) -> Result<String, CaseFault> {
    let Some(next) = &node.next else {
        return Ok(String::new(alloc));
    };
    let next = next.as_str();
    match node.jump {
        Some(jump) => Ok(format!(in alloc; "; next {next} keep {} to {}", jump.keep, jump.to)?),
        None => Ok(format!(in alloc; "; next {next}")?),
    }
}
