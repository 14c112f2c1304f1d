// What a node is, in words.
use std::alloc::Global;
use wf_ast::Texts;
use wf_cases::CaseFault;
use wf_model::{
    Block, CallNode, LoopNode, Node, NodeKind, OverShape, ParallelNode, TryNode, WorkNode,
};

/// The kind and the name of a node, and its parts.
pub(crate) fn told(alloc: Global, node: &Node) -> Result<String, CaseFault> {
    let (word, parts) = parts_of(alloc, &node.kind)?;
    let name = node.name.as_str();
    let blank = if name.is_empty() { "" } else { " " };
    let colon = if parts.is_empty() { "" } else { ": " };
    Ok(format!(in alloc; "{word}{blank}{name}{colon}{parts}")?)
}

/// The word for a kind, and its parts.
fn parts_of(alloc: Global, kind: &NodeKind) -> Result<(&'static str, String), CaseFault> {
    match kind {
        NodeKind::Flow(flow) => Ok(("flow", steps_text(alloc, &flow.block)?)),
        NodeKind::Nothing => Ok(("nothing", String::new(alloc))),
        NodeKind::Assign(entries) => Ok(("assign", numbers_text(alloc, entries.as_slice())?)),
        NodeKind::Call(call) => Ok(("call", call_text(alloc, call)?)),
        NodeKind::Switch(arms) => Ok(("switch", numbers_text(alloc, arms.as_slice())?)),
        NodeKind::For(repeated) => Ok(("for", loop_text(alloc, repeated)?)),
        NodeKind::Parallel(parallel) => Ok(("parallel", parallel_text(alloc, parallel)?)),
        NodeKind::Block(block) => Ok(("steps", steps_text(alloc, block)?)),
        NodeKind::Try(tried) => Ok(("try", try_text(alloc, tried)?)),
        NodeKind::Raise(_) => Ok(("raise", String::new(alloc))),
        NodeKind::Return(_) => Ok(("return", String::new(alloc))),
        NodeKind::Arm(_) => Ok(("arm", String::new(alloc))),
        NodeKind::Entry(entry) => Ok(("entry", String::from_str(alloc, entry.text.as_str())?)),
        NodeKind::Branch(block) => Ok(("branch", steps_text(alloc, block)?)),
    }
}

/// A list of steps, and how many lists a jump from inside it may reach.
fn steps_text(alloc: Global, block: &Block) -> Result<String, CaseFault> {
    let steps = numbers_text(alloc, block.steps.as_slice())?;
    Ok(format!(in alloc; "{steps} depth {}", block.depth)?)
}

/// As in `[3, 4]`.
fn numbers_text(alloc: Global, numbers: &[u32]) -> Result<String, CaseFault> {
    let mut text = String::new(alloc);
    for number in numbers {
        push_item(&mut text, format!(in alloc; "{number}")?.as_str())?;
    }
    Ok(format!(in alloc; "[{text}]")?)
}

/// As in `sub(a, b) result r`.
fn call_text(alloc: Global, call: &CallNode) -> Result<String, CaseFault> {
    let mut args = String::new(alloc);
    for arg in call.args.items() {
        push_item(&mut args, arg.name.as_str())?;
    }
    let name = call.name.as_str();
    match &call.result {
        Some(result) => Ok(format!(in alloc; "{name}({args}) result {}", result.as_str())?),
        None => Ok(format!(in alloc; "{name}({args})")?),
    }
}

/// As in `x, i in list [3, 4] depth 1`.
fn loop_text(alloc: Global, repeated: &LoopNode) -> Result<String, CaseFault> {
    let mut names = String::from_str(alloc, repeated.value.as_str())?;
    if let Some(index) = &repeated.index {
        push_item(&mut names, index.as_str())?;
    }
    let over = match &repeated.over {
        OverShape::List(_) => "list",
        OverShape::Range(_, _) => "range",
    };
    let steps = steps_text(alloc, &repeated.block)?;
    Ok(format!(in alloc; "{names} in {over} {steps}")?)
}

/// As in `shared x limit 2 branches [3, 5]`.
fn parallel_text(alloc: Global, parallel: &ParallelNode) -> Result<String, CaseFault> {
    let shared = shared_text(alloc, &parallel.shared)?;
    let limit = match parallel.limit {
        Some(limit) => format!(in alloc; "limit {limit} ")?,
        None => String::new(alloc),
    };
    match &parallel.work {
        WorkNode::Branches(numbers) => {
            let branches = numbers_text(alloc, numbers.as_slice())?;
            Ok(format!(in alloc; "{shared}{limit}branches {branches}")?)
        }
        WorkNode::Loop(repeated) => {
            let repeated = loop_text(alloc, repeated)?;
            Ok(format!(in alloc; "{shared}{limit}for {repeated}")?)
        }
    }
}

fn shared_text(alloc: Global, shared: &Texts) -> Result<String, CaseFault> {
    let mut names = String::new(alloc);
    for name in shared.items() {
        push_item(&mut names, name.as_str())?;
    }
    match names.is_empty() {
        true => Ok(names),
        false => Ok(format!(in alloc; "shared {names} ")?),
    }
}

/// As in `4 retry except e [5, 6] depth 2`.
fn try_text(alloc: Global, tried: &TryNode) -> Result<String, CaseFault> {
    let body = tried.body;
    let retry = match &tried.policy {
        Some(_) => " retry",
        None => "",
    };
    match &tried.except {
        Some(except) => {
            let steps = steps_text(alloc, &except.block)?;
            Ok(format!(in alloc; "{body}{retry} except {} {steps}", except.name.as_str())?)
        }
        None => Ok(format!(in alloc; "{body}{retry}")?),
    }
}

fn push_item(texts: &mut String, item: &str) -> Result<(), CaseFault> {
    if !texts.is_empty() {
        texts.push_str(", ")?;
    }
    Ok(texts.push_str(item)?)
}
