// Values with expressions in them.
ghost use Rattle.std.specs.Prelude.{option_map, MatchResult};
ghost use Rattle.wf_ast.specs.Tree.{fields as fields_of, no_fields, templates};
ghost use Rattle.wf_ast.specs.View.{fields_view, template_view, templates_view};
ghost use Rattle.wf_syntax.specs.Forms.{ends_view};
ghost use Rattle.wf_syntax.specs.Answers.{Fails, FailsAmong, IsSoundAnd, AreSoundAnd};
ghost use Rattle.wf_syntax_rules.specs.Meaning.{AreArguments, AreNamed, AreValues, IsRange, IsValue, Else, Maybe};
ghost use Rattle.wf_syntax_rules.specs.Rules.{Arguments, Range, Value as AValue, at, each, every};
ghost use Rattle.wf_tree.specs.Plain.{plain_items, plain_pairs, plain_tree};
ghost use Rattle.wf_expr.specs.Texts.{IsTemplateOf};
ghost use Rattle.wf_tree.specs.Trees.{items_of, pairs_of, text as a_text};

use crate::scalars::scalars;
use crate::stop::Stop;
use std::alloc::Global;
use wf_ast::{NamedTemplate, NamedTemplates, Template, Templates};
use wf_expr::{ExprFault, one_template, parse_template};
use wf_syntax_rules::SyntaxKind;
use wf_syntax_words::field;
use wf_tree::{Tree, TreeMap};
use wf_value::{Text, Value};

/// A value with expressions in it.
#[cycle(value)]
pub(crate) fn value(alloc: Global, tree: &Tree) -> Result<Template, Stop>
    ensures { MatchResult result (λ v. IsSoundAnd AValue (plain_tree tree.now)
        (IsValue (template_view v) (plain_tree tree.now)))
        (λ stop. Fails AValue (plain_tree tree.now) stop) }
{
    match tree {
        Tree::Null => Ok(Template::Lit(Value::Null)),
        Tree::Bool(b) => Ok(Template::Lit(Value::Bool(*b))),
        Tree::Int(n) => Ok(Template::Lit(Value::Int(*n))),
        Tree::Decimal(_) => Err(Stop::here(alloc, SyntaxKind::WrongKind)),
        Tree::Text(text) => text_value(alloc, text.as_str()),
        Tree::List(items) => {
            let items = items.items();
            match scalars(alloc, items)? {
                Some(list) => Ok(Template::Literals(list)),
                None => Ok(Template::List(values(alloc, items)?)),
            }
        }
        Tree::Map(pairs) => Ok(Template::Map(named_values(alloc, pairs.pairs())?)),
    }
}

/// A text as a value.
fn text_value(alloc: Global, text: &str) -> Result<Template, Stop>
    ensures { MatchResult result (λ v. IsSoundAnd AValue (a_text text.now)
        (IsTemplateOf text.now (template_view v))) (λ stop. Fails AValue (a_text text.now) stop) }
{
    // laws that the proof uses
    one_template();
    match parse_template(alloc, text) {
        Ok(template) => Ok(template),
        Err(ExprFault::OutOfMemory) => Err(Stop::OutOfMemory),
        Err(fault) => Err(Stop::here(alloc, SyntaxKind::Expression(fault))),
    }
}

#[cycle(value)]
fn values(alloc: Global, items: &[Tree]) -> Result<Templates, Stop>
    ensures { MatchResult result (λ vs. AreSoundAnd
        (each AValue 0 (items_of (plain_items items.now)))
        (AreValues (templates (templates_view vs)) (items_of (plain_items items.now))))
        (λ stop. FailsAmong (each AValue 0 (items_of (plain_items items.now))) stop) }
{
    let mut made = Templates::new(alloc)?;
    'each: for index in 0..items.len() {
        match value(alloc, &items[index]) {
            Ok(value) => made.push(value)?,
            Err(stop) => return Err(stop.at_index(index)),
        }
    }
    Ok(made)
}

#[cycle(value)]
fn named_values(alloc: Global, pairs: &[(Text, Tree)]) -> Result<NamedTemplates, Stop>
    ensures { MatchResult result (λ vs. AreSoundAnd
        (every (λ x. AValue) (pairs_of (plain_pairs pairs.now)))
        (AreNamed (fields_of (fields_view vs)) (pairs_of (plain_pairs pairs.now))))
        (λ stop. FailsAmong (every (λ x. AValue) (pairs_of (plain_pairs pairs.now))) stop) }
{
    let mut made = NamedTemplates::new(alloc)?;
    'each: for pair in pairs {
        let key = pair.0.as_str();
        let name = Text::new(alloc, key)?;
        match value(alloc, &pair.1) {
            Ok(template) => made.push(NamedTemplate { name, template })?,
            Err(stop) => return Err(stop.at_key(alloc, key)),
        }
    }
    Ok(made)
}

/// Values by name.
fn arguments(alloc: Global, tree: &Tree) -> Result<NamedTemplates, Stop>
    ensures { MatchResult result (λ vs. IsSoundAnd Arguments (plain_tree tree.now)
        (AreArguments (fields_of (fields_view vs)) (plain_tree tree.now)))
        (λ stop. Fails Arguments (plain_tree tree.now) stop) }
{
    match tree {
        Tree::Map(pairs) => named_values(alloc, pairs.pairs()),
        _ => Err(Stop::here(alloc, SyntaxKind::WrongKind)),
    }
}

/// The two ends of a range, the first and the last.
pub(crate) type Ends = (Template, Template);

fn range(alloc: Global, tree: &Tree) -> Result<Ends, Stop>
    ensures { MatchResult result (λ r. IsSoundAnd Range (plain_tree tree.now)
        (IsRange (template_view r.0) (template_view r.1) (plain_tree tree.now)))
        (λ stop. Fails Range (plain_tree tree.now) stop) }
{
    let Tree::List(items) = tree else {
        return Err(Stop::here(alloc, SyntaxKind::WrongKind));
    };
    let [first, last] = items.items() else {
        return Err(Stop::here(alloc, SyntaxKind::WrongKind));
    };
    let first = match value(alloc, first) {
        Ok(value) => value,
        Err(stop) => return Err(stop.at_index(0)),
    };
    match value(alloc, last) {
        Ok(last) => Ok((first, last)),
        Err(stop) => Err(stop.at_index(1)),
    }
}

/// The value at a key, if there is one.
pub(crate) fn value_at(alloc: Global, fields: &TreeMap, key: &str) -> Result<Option<Template>, Stop>
    ensures { MatchResult result (λ o. AreSoundAnd (at key.now AValue (pairs_of fields.now))
        (Maybe (option_map template_view o) key.now (pairs_of fields.now) IsValue))
        (λ stop. FailsAmong (at key.now AValue (pairs_of fields.now)) stop) }
{
    match field(fields, key) {
        None => Ok(None),
        Some(tree) => match value(alloc, tree) {
            Ok(value) => Ok(Some(value)),
            Err(stop) => Err(stop.at_key(alloc, key)),
        },
    }
}

/// The arguments at a key, and none where they aren't there.
pub(crate) fn arguments_at(
    alloc: Global,
    fields: &TreeMap,
    key: &str,
) -> Result<NamedTemplates, Stop>
    ensures { MatchResult result (λ vs. AreSoundAnd (at key.now Arguments (pairs_of fields.now))
        (Else (fields_of (fields_view vs)) no_fields key.now (pairs_of fields.now) AreArguments))
        (λ stop. FailsAmong (at key.now Arguments (pairs_of fields.now)) stop) }
{
    match field(fields, key) {
        None => Ok(NamedTemplates::new(alloc)?),
        Some(tree) => match arguments(alloc, tree) {
            Ok(arguments) => Ok(arguments),
            Err(stop) => Err(stop.at_key(alloc, key)),
        },
    }
}

/// The two ends of the range at a key, if there is one.
pub(crate) fn range_at(alloc: Global, fields: &TreeMap, key: &str) -> Result<Option<Ends>, Stop>
    ensures { MatchResult result (λ o. AreSoundAnd (at key.now Range (pairs_of fields.now))
        (Maybe (option_map ends_view o) key.now (pairs_of fields.now) (λ r x. IsRange r.0 r.1 x)))
        (λ stop. FailsAmong (at key.now Range (pairs_of fields.now)) stop) }
{
    match field(fields, key) {
        None => Ok(None),
        Some(tree) => match range(alloc, tree) {
            Ok(ends) => Ok(Some(ends)),
            Err(stop) => Err(stop.at_key(alloc, key)),
        },
    }
}
