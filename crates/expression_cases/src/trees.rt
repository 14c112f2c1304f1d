// Trees in prefix form, as JSON. An expression is
//
// - a literal as it stands, or `["value", v]`, which a list or a map has to be;
// - `["name", x]`, `["neg", a]`, `["not", a]`, `["and", a, b]`, `["or", a, b]`, `["key", a, k]` for `a.k` and
//   `["index", a, b]` for `a[b]`;
// - `[sign, a, b]` for an operator, and `["call", function, a ..]`.
//
// A template is `["literal", v]`, `["expression", e]`, `["join", part ..]` with a text or an expression
// `["expression", e]` as each part, `["list", t ..]` or `["map", [key, t] ..]`.
use crate::signs::{function, operator};
use std::alloc::Global;
use wf_ast::{Expr, Exprs, NamedTemplate, NamedTemplates, Part, Parts, Template, Templates, boxed};
use wf_cases::CaseFault;
use wf_value::{Text, Value};

/// The items of a list.
pub(crate) fn items(value: &Value) -> Result<&[Value], CaseFault> {
    match value {
        Value::List(list) => Ok(list.items()),
        _ => Err(CaseFault::NoCase),
    }
}

/// A text of its own.
pub(crate) fn text(alloc: Global, value: &Value) -> Result<Text, CaseFault> {
    match value {
        Value::Text(text) => Ok(Text::new(alloc, text.as_str())?),
        _ => Err(CaseFault::NoCase),
    }
}

/// Trees are at most so deep.
pub(crate) const DEEPEST: u32 = 100;

/// The expression of a tree.
#[cycle(expression)]
pub(crate) fn expression(alloc: Global, tree: &Value, depth: u32) -> Result<Expr, CaseFault> {
    if depth == 0 {
        return Err(CaseFault::NoCase);
    }
    let Value::List(parts) = tree else {
        return Ok(Expr::Lit(tree.copy(alloc)?));
    };
    let [Value::Text(head), rest @ ..] = parts.items() else {
        return Err(CaseFault::NoCase);
    };
    match head.as_str() {
        "value" | "name" => leaf(alloc, head.as_str(), rest),
        "key" => keyed(alloc, rest, depth - 1),
        "call" => called(alloc, rest, depth - 1),
        head => operated(alloc, head, rest, depth - 1),
    }
}

/// A literal or a name.
fn leaf(alloc: Global, head: &str, rest: &[Value]) -> Result<Expr, CaseFault> {
    let [value] = rest else {
        return Err(CaseFault::NoCase);
    };
    if head == "name" {
        return Ok(Expr::Name(text(alloc, value)?));
    }
    Ok(Expr::Lit(value.copy(alloc)?))
}

/// The expression of a value and a key.
#[cycle(expression)]
fn keyed(alloc: Global, rest: &[Value], depth: u32) -> Result<Expr, CaseFault> {
    let [a, key] = rest else {
        return Err(CaseFault::NoCase);
    };
    on_key(alloc, expression(alloc, a, depth)?, key)
}

/// The expression of a function and its arguments.
#[cycle(expression)]
fn called(alloc: Global, rest: &[Value], depth: u32) -> Result<Expr, CaseFault> {
    let [func, args @ ..] = rest else {
        return Err(CaseFault::NoCase);
    };
    let mut all = Exprs::new(alloc)?;
    for arg in args {
        all.push(expression(alloc, arg, depth)?)?;
    }
    on_all(func, all)
}

/// The expression of an operator on one or two values.
#[cycle(expression)]
fn operated(alloc: Global, head: &str, rest: &[Value], depth: u32) -> Result<Expr, CaseFault> {
    match rest {
        [a] => on_one(alloc, head, expression(alloc, a, depth)?),
        [a, b] => {
            let a = expression(alloc, a, depth)?;
            on_two(alloc, head, a, expression(alloc, b, depth)?)
        }
        _ => Err(CaseFault::NoCase),
    }
}

/// What stands at a key of a value.
fn on_key(alloc: Global, a: Expr, key: &Value) -> Result<Expr, CaseFault> {
    let a = boxed(alloc, a)?;
    Ok(Expr::Key(a, text(alloc, key)?))
}

/// A function on some values.
fn on_all(func: &Value, all: Exprs) -> Result<Expr, CaseFault> {
    let Value::Text(name) = func else {
        return Err(CaseFault::NoCase);
    };
    match function(name.as_str()) {
        Some(func) => Ok(Expr::Call(func, all)),
        None => Err(CaseFault::NoCase),
    }
}

/// An operator on one value.
fn on_one(alloc: Global, head: &str, a: Expr) -> Result<Expr, CaseFault> {
    let a = boxed(alloc, a)?;
    match head {
        "neg" => Ok(Expr::Neg(a)),
        "not" => Ok(Expr::Not(a)),
        _ => Err(CaseFault::NoCase),
    }
}

/// An operator on two values.
fn on_two(alloc: Global, head: &str, a: Expr, b: Expr) -> Result<Expr, CaseFault> {
    let a = boxed(alloc, a)?;
    let b = boxed(alloc, b)?;
    match head {
        "and" => Ok(Expr::And(a, b)),
        "or" => Ok(Expr::Or(a, b)),
        "index" => Ok(Expr::Index(a, b)),
        _ => match operator(head) {
            Some(op) => Ok(Expr::Bin(op, a, b)),
            None => Err(CaseFault::NoCase),
        },
    }
}

/// The template of a tree.
#[cycle(template)]
pub(crate) fn template(alloc: Global, tree: &Value, depth: u32) -> Result<Template, CaseFault> {
    if depth == 0 {
        return Err(CaseFault::NoCase);
    }
    let [Value::Text(head), rest @ ..] = items(tree)? else {
        return Err(CaseFault::NoCase);
    };
    match head.as_str() {
        "literal" | "expression" => single(alloc, head.as_str(), rest),
        "join" => joined(alloc, rest),
        "list" => list_of(alloc, rest, depth - 1),
        "map" => map_of(alloc, rest, depth - 1),
        _ => Err(CaseFault::NoCase),
    }
}

/// The template of a literal or an expression.
fn single(alloc: Global, head: &str, rest: &[Value]) -> Result<Template, CaseFault> {
    let [tree] = rest else {
        return Err(CaseFault::NoCase);
    };
    if head == "literal" {
        return Ok(Template::Lit(tree.copy(alloc)?));
    }
    let e = expression(alloc, tree, DEEPEST)?;
    Ok(Template::Expr(boxed(alloc, e)?))
}

/// The template of a list of trees.
#[cycle(template)]
fn list_of(alloc: Global, trees: &[Value], depth: u32) -> Result<Template, CaseFault> {
    let mut all = Templates::new(alloc)?;
    for tree in trees {
        all.push(template(alloc, tree, depth)?)?;
    }
    Ok(Template::List(all))
}

/// The template of keys with their trees.
#[cycle(template)]
fn map_of(alloc: Global, pairs: &[Value], depth: u32) -> Result<Template, CaseFault> {
    let mut all = NamedTemplates::new(alloc)?;
    for pair in pairs {
        let [key, tree] = items(pair)? else {
            return Err(CaseFault::NoCase);
        };
        let template = template(alloc, tree, depth)?;
        push_named(alloc, &mut all, key, template)?;
    }
    Ok(Template::Map(all))
}

/// Adds a template with the name that a value is.
fn push_named(
    alloc: Global,
    all: &mut NamedTemplates,
    key: &Value,
    template: Template,
) -> Result<(), CaseFault> {
    let name = text(alloc, key)?;
    Ok(all.push(NamedTemplate { name, template })?)
}

/// The template of texts and expressions in a row.
fn joined(alloc: Global, parts: &[Value]) -> Result<Template, CaseFault> {
    let mut all = Parts::new(alloc)?;
    for part in parts {
        all.push(part_of(alloc, part)?)?;
    }
    Ok(Template::Join(all))
}

fn part_of(alloc: Global, part: &Value) -> Result<Part, CaseFault> {
    if let Value::Text(text) = part {
        return Ok(Part::Text(Text::new(alloc, text.as_str())?));
    }
    match items(part)? {
        [_, e] => Ok(Part::Expr(expression(alloc, e, DEEPEST)?)),
        _ => Err(CaseFault::NoCase),
    }
}
