// The tables `flows`, `forms`, `policies` and `step_counts`: what a program holds.
use std::alloc::Global;
use wf_ast::{Body, Flow, Over, Param, Policy, Predicate, Program, Step, StepList, Work};
use wf_cases::{CaseFault, json_of};
use wf_value::DefaultKind;

/// Each workflow with its parameters, as in `main(a, b = 7), sub()`.
pub(crate) fn flows(alloc: Global, program: &Program) -> Result<String, CaseFault> {
    let mut texts = String::new(alloc);
    for flow in program.flows.items() {
        push_item(&mut texts, flow_text(alloc, flow)?.as_str())?;
    }
    Ok(texts)
}

fn flow_text(alloc: Global, flow: &Flow) -> Result<String, CaseFault> {
    let mut texts = String::new(alloc);
    for param in flow.params.items() {
        push_item(&mut texts, param_text(alloc, param)?.as_str())?;
    }
    Ok(format!(in alloc; "{}({texts})", flow.name.as_str())?)
}

fn param_text(alloc: Global, param: &Param) -> Result<String, CaseFault> {
    let name = param.name.as_str();
    let Some(default) = &param.default else {
        return Ok(String::from_str(alloc, name)?);
    };
    let default = json_of(alloc, default)?;
    Ok(format!(in alloc; "{name} = {default}")?)
}

/// How many named steps a program has, on all levels.
pub(crate) fn step_count(alloc: Global, program: &Program) -> Result<String, CaseFault> {
    Ok(format!(in alloc; "{}", program.step_count())?)
}

/// Each step of `main` with its form, as in `a assign, b return`.
pub(crate) fn forms(alloc: Global, program: &Program) -> Result<String, CaseFault> {
    let mut texts = String::new(alloc);
    for step in main_of(program)?.items() {
        let text = format!(in alloc; "{} {}", step.name.as_str(), form_of(&step.body))?;
        push_item(&mut texts, text.as_str())?;
    }
    Ok(texts)
}

fn form_of(body: &Body) -> &'static str {
    match body {
        Body::Nothing => "nothing",
        Body::Assign(_) => "assign",
        Body::Call(_) => "call",
        Body::Switch(_) => "switch",
        Body::For(repeated) => match &repeated.over {
            Over::List(_) => "for in",
            Over::Range(_, _) => "for range",
        },
        Body::Parallel(parallel) => match &parallel.work {
            Work::Branches(_) => "parallel branches",
            Work::Loop(_) => "parallel for",
        },
        Body::Block(_) => "steps",
        Body::Try(_) => "try",
        Body::Raise(_) => "raise",
        Body::Return(_) => "return",
    }
}

/// The policy of each `try` of `main`: the predicate, how many retries, the first and the longest delay in milliseconds,
/// and the multiplier in thousandths.
pub(crate) fn policies(alloc: Global, program: &Program) -> Result<String, CaseFault> {
    let mut texts = String::new(alloc);
    for step in main_of(program)?.items() {
        push_item(&mut texts, policy_text(alloc, policy_of(step)?)?.as_str())?;
    }
    Ok(texts)
}

fn policy_of(step: &Step) -> Result<&Policy, CaseFault> {
    match &step.body {
        Body::Try(tried) => match &tried.policy {
            Some(policy) => Ok(policy),
            None => Err(CaseFault::NoCase),
        },
        _ => Err(CaseFault::NoCase),
    }
}

fn policy_text(alloc: Global, policy: &Policy) -> Result<String, CaseFault> {
    let predicate = predicate_text(alloc, &policy.predicate)?;
    let retries = policy.max_retries;
    let backoff = &policy.backoff;
    let (initial, max, multiplier) = (backoff.initial, backoff.max, backoff.multiplier);
    Ok(format!(in alloc; "{predicate} {retries} {initial} {max} {multiplier}")?)
}

fn predicate_text(alloc: Global, predicate: &Predicate) -> Result<String, CaseFault> {
    let word = match predicate {
        Predicate::Always => "always",
        Predicate::Never => "never",
        Predicate::Default(DefaultKind::Idempotent) => "idempotent",
        Predicate::Default(DefaultKind::NonIdempotent) => "non_idempotent",
        Predicate::Flow(name) => return Ok(format!(in alloc; "flow {}", name.as_str())?),
    };
    Ok(String::from_str(alloc, word)?)
}

/// The steps of the first workflow.
fn main_of(program: &Program) -> Result<&StepList, CaseFault> {
    match program.flows.items() {
        [main, ..] => Ok(&main.steps),
        [] => Err(CaseFault::NoCase),
    }
}

fn push_item(texts: &mut String, item: &str) -> Result<(), CaseFault> {
    if !texts.is_empty() {
        texts.push_str(", ")?;
    }
    Ok(texts.push_str(item)?)
}
