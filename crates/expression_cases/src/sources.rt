// What is read of a source.
use crate::answers::{fault_text, value_text};
use crate::shown::{shown, shown_target, shown_template};
use std::alloc::Global;
use wf_cases::CaseFault;
use wf_expr::{ExprFault, has_expressions, parse, parse_target, parse_template};
use wf_span::{Token, TokenKind, Tokens, tokens};
use wf_value::{List, Text, Value};

/// What a table wants of a source.
pub(crate) fn answer(alloc: Global, table: &str, source: &str) -> Result<String, CaseFault> {
    match table {
        "faults" => expression_fault(alloc, source),
        "expressions" => expression(alloc, source),
        "targets" => target_fault(alloc, source),
        "target_trees" => target(alloc, source),
        "template_trees" => template(alloc, source),
        "has_expressions" => {
            let has = has_expressions(source);
            Ok(format!(in alloc; "{has}")?)
        }
        "tokens" | "token_counts" => lexed(alloc, table, source),
        _ => Err(CaseFault::NoCase),
    }
}

fn expression_fault(alloc: Global, source: &str) -> Result<String, CaseFault> {
    let fault = match parse(alloc, source) {
        Ok(_) => return ok(alloc),
        Err(fault) => fault,
    };
    fault_text(alloc, fault)
}

fn target_fault(alloc: Global, source: &str) -> Result<String, CaseFault> {
    let fault = match parse_target(alloc, source) {
        Ok(_) => return ok(alloc),
        Err(fault) => fault,
    };
    fault_text(alloc, fault)
}

fn ok(alloc: Global) -> Result<String, CaseFault> {
    Ok(String::from_str(alloc, "ok")?)
}

fn expression(alloc: Global, source: &str) -> Result<String, CaseFault> {
    match parse(alloc, source) {
        Ok(e) => shown(alloc, &e),
        Err(fault) => fault_text(alloc, fault),
    }
}

fn target(alloc: Global, source: &str) -> Result<String, CaseFault> {
    match parse_target(alloc, source) {
        Ok(target) => shown_target(alloc, &target),
        Err(fault) => fault_text(alloc, fault),
    }
}

fn template(alloc: Global, source: &str) -> Result<String, CaseFault> {
    match parse_template(alloc, source) {
        Ok(template) => shown_template(alloc, &template),
        Err(fault) => fault_text(alloc, fault),
    }
}

fn lexed(alloc: Global, table: &str, source: &str) -> Result<String, CaseFault> {
    if source.len() > 1_000_000 {
        return Err(CaseFault::NoCase);
    }
    match tokens(alloc, source) {
        Ok(found) => {
            if table == "tokens" {
                listed(alloc, &found)
            } else {
                counted(alloc, &found)
            }
        }
        Err(fault) => fault_text(alloc, ExprFault::Lex(fault)),
    }
}

fn kind_name(kind: TokenKind) -> &'static str {
    match kind {
        TokenKind::Name => "Name",
        TokenKind::Number => "Number",
        TokenKind::Text => "Text",
        TokenKind::Mark => "Mark",
    }
}

/// All tokens.
fn listed(alloc: Global, tokens: &Tokens<'_>) -> Result<String, CaseFault> {
    let mut all = List::new(alloc)?;
    for i in 0..usize::MAX {
        let Some(token) = tokens.get(i) else {
            break;
        };
        all.push(token_value(alloc, token)?)?;
    }
    value_text(alloc, &Value::List(all))
}

fn token_value(alloc: Global, token: Token<'_>) -> Result<Value, CaseFault> {
    let mut one = List::new(alloc)?;
    push_text(alloc, &mut one, kind_name(token.kind))?;
    push_text(alloc, &mut one, token.text)?;
    one.push(Value::Int(i64::from(token.at)))?;
    Ok(Value::List(one))
}

fn push_text(alloc: Global, list: &mut List, text: &str) -> Result<(), CaseFault> {
    let text = Text::new(alloc, text)?;
    Ok(list.push(Value::Text(text))?)
}

/// How many tokens there are, and the last.
fn counted(alloc: Global, tokens: &Tokens<'_>) -> Result<String, CaseFault> {
    let (count, last) = count_and_last(tokens);
    match last {
        None => Ok(format!(in alloc; "{count}")?),
        Some(token) => {
            let kind = kind_name(token.kind);
            let (at, length) = (token.at, token.text.len());
            Ok(format!(in alloc; "{count} {kind} {at} {length}")?)
        }
    }
}

fn count_and_last<'a>(tokens: &Tokens<'a>) -> (usize, Option<Token<'a>>) {
    let mut last: Option<Token<'_>> = None;
    for i in 0..usize::MAX {
        match tokens.get(i) {
            Some(token) => last = Some(token),
            None => return (i, last),
        }
    }
    (usize::MAX, last)
}
