// Assignments.
ghost use Rattle.std.specs.Prelude.{option_map, MatchResult};
ghost use Rattle.wf_ast.specs.View.{entries_view, entry_view, target_view};
ghost use Rattle.wf_expr.specs.Targets.{IsTarget};
ghost use Rattle.wf_syntax_rules.specs.Meaning.{AreEntries, IsEntry, Maybe};
ghost use Rattle.wf_syntax_rules.specs.Rules.{Entries as AllEntries, Entry as AnEntry, Target as ATarget, at};
ghost use Rattle.wf_syntax.specs.Answers.{Fails, FailsAmong, IsSoundAnd, AreSoundAnd};
ghost use Rattle.wf_tree.specs.Plain.{plain_tree};
ghost use Rattle.wf_tree.specs.Trees.{pairs_of, text};

use crate::stop::Stop;
use crate::values::value;
use std::alloc::Global;
use wf_ast::{Entries, Entry, Target};
use wf_expr::{ExprFault, one_target, parse_target};
use wf_syntax_rules::SyntaxKind;
use wf_syntax_words::{field, single};
use wf_tree::{Tree, TreeMap};

/// The target that a key is.
fn target(alloc: Global, key: &str) -> Result<Target, Stop>
    ensures { MatchResult result (λ x. IsSoundAnd ATarget (text key.now)
        (IsTarget key.now (target_view x))) (λ stop. Fails ATarget (text key.now) stop) }
{
    // laws that the proof uses
    one_target();
    match parse_target(alloc, key) {
        Ok(target) => Ok(target),
        Err(ExprFault::OutOfMemory) => Err(Stop::OutOfMemory),
        Err(fault) => Err(Stop::here(alloc, SyntaxKind::Expression(fault))),
    }
}

/// An assignment: a map of one, whose key is a target.
fn entry(alloc: Global, tree: &Tree) -> Result<Entry, Stop>
    ensures { MatchResult result (λ e. IsSoundAnd AnEntry (plain_tree tree.now)
        (IsEntry (entry_view e) (plain_tree tree.now)))
        (λ stop. Fails AnEntry (plain_tree tree.now) stop) }
{
    let Some((key, tree)) = single(tree) else {
        return Err(Stop::here(alloc, SyntaxKind::WrongKind));
    };
    let target = match target(alloc, key) {
        Ok(target) => target,
        Err(stop) => return Err(stop.at_key(alloc, key)),
    };
    match value(alloc, tree) {
        Ok(value) => Ok(Entry { target, value }),
        Err(stop) => Err(stop.at_key(alloc, key)),
    }
}

fn entries(alloc: Global, tree: &Tree) -> Result<Entries, Stop>
    ensures { MatchResult result (λ es. IsSoundAnd AllEntries (plain_tree tree.now)
        (AreEntries (entries_view es) (plain_tree tree.now)))
        (λ stop. Fails AllEntries (plain_tree tree.now) stop) }
{
    let Tree::List(items) = tree else {
        return Err(Stop::here(alloc, SyntaxKind::WrongKind));
    };
    let items = items.items();
    let mut made = Entries::new(alloc)?;
    'each: for index in 0..items.len() {
        match entry(alloc, &items[index]) {
            Ok(entry) => made.push(entry)?,
            Err(stop) => return Err(stop.at_index(index)),
        }
    }
    Ok(made)
}

/// The assignments at a key, if they are there.
pub(crate) fn entries_at(
    alloc: Global,
    fields: &TreeMap,
    key: &str,
) -> Result<Option<Entries>, Stop>
    ensures { MatchResult result (λ o. AreSoundAnd (at key.now AllEntries (pairs_of fields.now))
        (Maybe (option_map entries_view o) key.now (pairs_of fields.now) AreEntries))
        (λ stop. FailsAmong (at key.now AllEntries (pairs_of fields.now)) stop) }
{
    match field(fields, key) {
        None => Ok(None),
        Some(tree) => match entries(alloc, tree) {
            Ok(entries) => Ok(Some(entries)),
            Err(stop) => Err(stop.at_key(alloc, key)),
        },
    }
}
