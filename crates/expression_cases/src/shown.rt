// Trees as they are printed (see `trees.rt`).
use crate::answers::{quoted, value_text};
use crate::signs::{name, sign};
use std::alloc::Global;
use wf_ast::{Expr, Func, Part, Target, Template};
use wf_cases::CaseFault;
use wf_value::Value;

/// What stands at the head of an expression, behind its bracket.
fn head(e: &Expr) -> &'static str {
    match e {
        Expr::Lit(_) => "",
        Expr::Name(_) => "name",
        Expr::Neg(_) => "neg",
        Expr::Not(_) => "not",
        Expr::And(_, _) => "and",
        Expr::Or(_, _) => "or",
        Expr::Bin(op, _, _) => sign(*op),
        Expr::Key(_, _) => "key",
        Expr::Index(_, _) => "index",
        Expr::Call(_, _) => "call",
    }
}

/// An expression.
pub(crate) fn shown(alloc: Global, e: &Expr) -> Result<String, CaseFault> {
    let mut out = String::new(alloc);
    show(alloc, &mut out, e)?;
    Ok(out)
}

/// Writes a value.
fn push_value(alloc: Global, out: &mut String, value: &Value) -> Result<(), CaseFault> {
    let text = value_text(alloc, value)?;
    Ok(out.push_str(text.as_str())?)
}

/// Writes a text as JSON.
fn push_quoted(alloc: Global, out: &mut String, text: &str) -> Result<(), CaseFault> {
    let text = quoted(alloc, text)?;
    Ok(out.push_str(text.as_str())?)
}

/// Writes an expression.
#[cycle(show)]
fn show(alloc: Global, out: &mut String, e: &Expr) -> Result<(), CaseFault> {
    if let Expr::Lit(value) = e {
        return push_value(alloc, out, value);
    }
    out.push_str("[\"")?;
    out.push_str(head(e))?;
    out.push_str("\",")?;
    match e {
        Expr::Lit(_) => {}
        Expr::Name(name) => push_quoted(alloc, out, name.as_str())?,
        Expr::Neg(a) | Expr::Not(a) => show(alloc, out, a)?,
        Expr::And(a, b) | Expr::Or(a, b) | Expr::Bin(_, a, b) | Expr::Index(a, b) => {
            show(alloc, out, a)?;
            out.push_str(",")?;
            show(alloc, out, b)?;
        }
        Expr::Key(a, key) => {
            show(alloc, out, a)?;
            out.push_str(",")?;
            push_quoted(alloc, out, key.as_str())?;
        }
        Expr::Call(func, args) => show_call(alloc, out, *func, args.items())?,
    }
    Ok(out.push_str("]")?)
}

/// Writes a function and its arguments.
#[cycle(show)]
fn show_call(alloc: Global, out: &mut String, func: Func, args: &[Expr]) -> Result<(), CaseFault> {
    push_quoted(alloc, out, name(func))?;
    for arg in args {
        out.push_str(",")?;
        show(alloc, out, arg)?;
    }
    Ok(())
}

/// A target: the key as it stands in the source, the variable, and the places below it.
pub(crate) fn shown_target(alloc: Global, target: &Target) -> Result<String, CaseFault> {
    let mut out = String::new(alloc);
    show_target(alloc, &mut out, target)?;
    Ok(out)
}

fn show_target(alloc: Global, out: &mut String, target: &Target) -> Result<(), CaseFault> {
    out.push_str("[")?;
    push_quoted(alloc, out, target.text.as_str())?;
    out.push_str(",")?;
    push_quoted(alloc, out, target.name.as_str())?;
    for place in target.places.items() {
        out.push_str(",")?;
        show(alloc, out, place)?;
    }
    Ok(out.push_str("]")?)
}

/// The template that a text of a source is.
pub(crate) fn shown_template(alloc: Global, template: &Template) -> Result<String, CaseFault> {
    let mut out = String::new(alloc);
    show_template(alloc, &mut out, template)?;
    Ok(out)
}

fn show_template(alloc: Global, out: &mut String, template: &Template) -> Result<(), CaseFault> {
    match template {
        Template::Lit(value) => {
            out.push_str("[\"literal\",")?;
            push_value(alloc, out, value)?;
        }
        Template::Expr(e) => return show_alone(alloc, out, e),
        Template::Join(parts) => {
            out.push_str("[\"join\"")?;
            for part in parts.items() {
                out.push_str(",")?;
                show_part(alloc, out, part)?;
            }
        }
        Template::List(_) | Template::Literals(_) | Template::Map(_) => {
            return Err(CaseFault::NoCase);
        }
    }
    Ok(out.push_str("]")?)
}

fn show_part(alloc: Global, out: &mut String, part: &Part) -> Result<(), CaseFault> {
    match part {
        Part::Text(text) => push_quoted(alloc, out, text.as_str()),
        Part::Expr(e) => show_alone(alloc, out, e),
    }
}

fn show_alone(alloc: Global, out: &mut String, e: &Expr) -> Result<(), CaseFault> {
    out.push_str("[\"expression\",")?;
    show(alloc, out, e)?;
    Ok(out.push_str("]")?)
}
