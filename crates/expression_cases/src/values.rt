// The values of expressions and of templates.
use crate::answers::{fault_text, outcome};
use crate::names::{Names, names_of};
use crate::trees::{DEEPEST, expression, template};
use std::alloc::Global;
use wf_ast::{Expr, NamedTemplate, NamedTemplates, Postfix, Template, Templates, compile};
use wf_cases::{Case, CaseFault};
use wf_eval::eval;
use wf_expr::{parse, parse_template};
use wf_frames::fill_shape;
use wf_model::{Codes, shape_of};
use wf_value::{Map, Text, Value};

/// The clock's reading, where a case has one.
fn reading(case: &Case<'_>) -> Result<u64, CaseFault> {
    match case.items().get(2) {
        None => Ok(0),
        Some(Value::Int(now)) => match u64::try_from(*now) {
            Ok(now) => Ok(now),
            Err(_) => Err(CaseFault::NoCase),
        },
        Some(_) => Err(CaseFault::NoCase),
    }
}

/// What an expression comes to.
fn evaluated(alloc: Global, case: &Case<'_>, e: &Expr) -> Result<String, CaseFault> {
    run(alloc, case, &compile(alloc, e)?)
}

/// What a compiled expression comes to.
fn run(alloc: Global, case: &Case<'_>, code: &Postfix) -> Result<String, CaseFault> {
    let now = reading(case)?;
    let names = names_of(alloc, case)?;
    outcome(alloc, eval(alloc, code, &names, now))
}

/// What a template comes to: its shape is filled, as the program fills it.
fn filled(alloc: Global, case: &Case<'_>, t: &Template) -> Result<String, CaseFault> {
    let now = reading(case)?;
    let names = names_of(alloc, case)?;
    let mut codes = Codes::new(alloc);
    let shape = shape_of(alloc, t, &mut codes)?;
    outcome(alloc, fill_shape(alloc, &shape, codes.items(), &names, now))
}

/// What an expression comes to.
pub(crate) fn of_expression(alloc: Global, case: &Case<'_>) -> Result<String, CaseFault> {
    match parse(alloc, case.text(0)?) {
        Ok(e) => evaluated(alloc, case, &e),
        Err(fault) => fault_text(alloc, fault),
    }
}

/// What the tree of an expression comes to.
pub(crate) fn of_tree(alloc: Global, case: &Case<'_>) -> Result<String, CaseFault> {
    let e = expression(alloc, case.item(0)?, DEEPEST)?;
    evaluated(alloc, case, &e)
}

/// What a text of a source comes to.
pub(crate) fn of_text(alloc: Global, case: &Case<'_>) -> Result<String, CaseFault> {
    match parse_template(alloc, case.text(0)?) {
        Ok(t) => filled(alloc, case, &t),
        Err(fault) => fault_text(alloc, fault),
    }
}

/// What the tree of a template comes to.
pub(crate) fn of_template(alloc: Global, case: &Case<'_>) -> Result<String, CaseFault> {
    let t = template(alloc, case.item(0)?, DEEPEST)?;
    filled(alloc, case, &t)
}

/// What a value of a source comes to.
pub(crate) fn of_value(alloc: Global, case: &Case<'_>) -> Result<String, CaseFault> {
    let t = source_value(alloc, case.item(0)?, DEEPEST + 1)?;
    filled(alloc, case, &t)
}

fn parsed(alloc: Global, text: &str) -> Result<Template, CaseFault> {
    match parse_template(alloc, text) {
        Ok(template) => Ok(template),
        Err(_) => Err(CaseFault::NoCase),
    }
}

/// Adds a template with a name.
fn push_named(
    alloc: Global,
    all: &mut NamedTemplates,
    name: &str,
    template: Template,
) -> Result<(), CaseFault> {
    let name = Text::new(alloc, name)?;
    Ok(all.push(NamedTemplate { name, template })?)
}

/// A value of a source, whose texts are read.
#[cycle(source_value)]
fn source_value(alloc: Global, value: &Value, depth: u32) -> Result<Template, CaseFault> {
    if depth == 0 {
        return Err(CaseFault::NoCase);
    }
    match value {
        Value::Text(text) => parsed(alloc, text.as_str()),
        Value::List(list) => source_list(alloc, list.items(), depth - 1),
        Value::Map(map) => source_map(alloc, map, depth - 1),
        _ => Ok(Template::Lit(value.copy(alloc)?)),
    }
}

#[cycle(source_value)]
fn source_list(alloc: Global, items: &[Value], depth: u32) -> Result<Template, CaseFault> {
    let mut all = Templates::new(alloc)?;
    for item in items {
        all.push(source_value(alloc, item, depth)?)?;
    }
    Ok(Template::List(all))
}

#[cycle(source_value)]
fn source_map(alloc: Global, map: &Map, depth: u32) -> Result<Template, CaseFault> {
    let mut all = NamedTemplates::new(alloc)?;
    for i in 0..usize::MAX {
        let Some((key, item)) = map.entry(i) else {
            break;
        };
        let template = source_value(alloc, item, depth)?;
        push_named(alloc, &mut all, key, template)?;
    }
    Ok(Template::Map(all))
}
