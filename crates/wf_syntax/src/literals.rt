// Values without expressions: the defaults of parameters.
ghost use Rattle.std.specs.Prelude.{MatchResult};
ghost use Rattle.wf_syntax_rules.specs.Meaning.{AreLiterals, AreNamedLiterals, IsLiteral};
ghost use Rattle.wf_syntax_rules.specs.Rules.{Literal, each, every};
ghost use Rattle.wf_syntax.specs.Answers.{Fails, FailsAmong, IsSoundAnd, AreSoundAnd};
ghost use Rattle.wf_tree.specs.Plain.{plain_items, plain_pairs, plain_tree};
ghost use Rattle.wf_tree.specs.Trees.{items_of, pairs_of};
ghost use Rattle.wf_value.specs.Data as values;
ghost use Rattle.wf_value.specs.Maps.{IsInOrder};
ghost use Rattle.wf_value.specs.Plain.{plain};

use crate::stop::Stop;
use crate::words::owned;
use std::alloc::Global;
use wf_expr::has_expressions;
use wf_syntax_rules::SyntaxKind;
use wf_tree::Tree;
use wf_value::{List, Map, Text, Value};

/// A value without expressions.
#[cycle(literal)]
pub(crate) fn literal(alloc: Global, tree: &Tree) -> Result<Value, Stop>
    ensures { MatchResult result (λ v. IsSoundAnd Literal (plain_tree tree.now)
        (IsLiteral (plain v) (plain_tree tree.now)))
        (λ stop. Fails Literal (plain_tree tree.now) stop) }
{
    match tree {
        Tree::Null => Ok(Value::Null),
        Tree::Bool(b) => Ok(Value::Bool(*b)),
        Tree::Int(n) => Ok(Value::Int(*n)),
        Tree::Decimal(_) => Err(Stop::here(alloc, SyntaxKind::WrongKind)),
        Tree::Text(text) => {
            if has_expressions(text.as_str()) {
                Err(Stop::here(alloc, SyntaxKind::WrongKind))
            } else {
                Ok(Value::Text(owned(alloc, text.as_str())?))
            }
        }
        Tree::List(items) => Ok(Value::List(literals(alloc, items.items())?)),
        Tree::Map(pairs) => Ok(Value::Map(named_literals(alloc, pairs.pairs())?)),
    }
}

#[cycle(literal)]
fn literals(alloc: Global, items: &[Tree]) -> Result<List, Stop>
    ensures { MatchResult result (λ vs. AreSoundAnd
        (each Literal 0 (items_of (plain_items items.now)))
        (AreLiterals (values.items_of vs) (items_of (plain_items items.now))))
        (λ stop. FailsAmong (each Literal 0 (items_of (plain_items items.now))) stop) }
{
    let mut made = List::new(alloc)?;
    'each: for index in 0..items.len() {
        match literal(alloc, &items[index]) {
            Ok(value) => made.push(value)?,
            Err(stop) => return Err(stop.at_index(index)),
        }
    }
    Ok(made)
}

/// The pairs stand in the order of their keys.
#[cycle(literal)]
fn named_literals(alloc: Global, pairs: &[(Text, Tree)]) -> Result<Map, Stop>
    requires { IsInOrder pairs.now }
    ensures { MatchResult result (λ vs. AreSoundAnd
        (every (λ x. Literal) (pairs_of (plain_pairs pairs.now)))
        (AreNamedLiterals (values.pairs_of vs) (pairs_of (plain_pairs pairs.now))))
        (λ stop. FailsAmong (every (λ x. Literal) (pairs_of (plain_pairs pairs.now))) stop) }
{
    let mut made = Map::new(alloc)?;
    'each: for pair in pairs {
        let key = pair.0.as_str();
        let name = Text::new(alloc, key)?;
        match literal(alloc, &pair.1) {
            Ok(value) => {
                made.insert(name, value)?;
            }
            Err(stop) => return Err(stop.at_key(alloc, key)),
        }
    }
    Ok(made)
}
