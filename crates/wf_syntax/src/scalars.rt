// Lists of scalars: values that are kept as they are.
ghost use Rattle.std.specs.Prelude.{IfOk, IfSome, map};
ghost use Rattle.wf_ast.specs.Tree.{Scalar, templates};
ghost use Rattle.wf_syntax.specs.Answers.{IsSoundAnd, AreSoundAnd};
ghost use Rattle.wf_syntax_rules.specs.Meaning.{AreValues, IsValue};
ghost use Rattle.wf_syntax_rules.specs.Rules.{Value as AValue, each};
ghost use Rattle.wf_tree.specs.Plain.{plain_items, plain_tree};
ghost use Rattle.wf_tree.specs.Trees.{items_of};
ghost use Rattle.wf_value.specs.Plain.{plain};

use std::alloc::Global;
use wf_tree::Tree;
use wf_value::{List, OutOfMemory, Value};

/// The value of a tree that is null, a truth value or a whole number.
#[inline(always)]
fn scalar(tree: &Tree) -> Option<Value>
    ensures { IfSome result (λ v. IsSoundAnd AValue (plain_tree tree.now)
        (IsValue (Scalar (plain v)) (plain_tree tree.now))) }
{
    match tree {
        Tree::Null => Some(Value::Null),
        Tree::Bool(b) => Some(Value::Bool(*b)),
        Tree::Int(n) => Some(Value::Int(*n)),
        _ => None,
    }
}

/// The list of trees each of which is null, a truth value or a whole number. At the first that is
/// none of them there is no list.
#[inline(never)]
pub(crate) fn scalars(alloc: Global, items: &[Tree]) -> Result<Option<List>, OutOfMemory>
    ensures { IfOk result (λ o. IfSome o (λ l.
        AreSoundAnd (each AValue 0 (items_of (plain_items items.now)))
        (AreValues (templates (map Scalar l)) (items_of (plain_items items.now))))) }
{
    // a list that begins otherwise costs no allocation
    if !items.is_empty() && scalar(&items[0]).is_none() {
        return Ok(None);
    }
    let mut made = List::new(alloc)?;
    'each: for index in 0..items.len() {
        match scalar(&items[index]) {
            Some(value) => made.push(value)?,
            None => return Ok(None),
        }
    }
    Ok(Some(made))
}
