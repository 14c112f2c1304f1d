// Texts and names of the language.
ghost use Rattle.std.specs.Prelude.{◌≡◌, [], MatchResult};
ghost use Rattle.wf_ast.specs.View.{texts_view};
ghost use Rattle.wf_syntax.specs.Answers.{Fails, FailsAmong, IsSoundAnd, AreSoundAnd};
ghost use Rattle.wf_value.specs.declared.stop.Stop.TheVariants as stop;
ghost use Rattle.wf_syntax_rules.specs.Faults.{AreSound, IsSound};
ghost use Rattle.wf_syntax_rules.specs.Meaning.{AreTexts, Else, IsLimit, IsText, Maybe};
ghost use Rattle.wf_syntax_rules.specs.Rules.{AnyText, Limit, Policy, Shared, VariableName, at};
ghost use Rattle.wf_tree.specs.Plain.{plain_tree};
ghost use Rattle.wf_tree.specs.Trees.{pairs_of};

use crate::stop::Stop;
use std::alloc::Global;
use wf_ast::Texts;
use wf_syntax_rules::SyntaxKind;
use wf_syntax_words::{field, is_name, whole_within};
use wf_tree::{Tree, TreeMap};
use wf_value::Text;

/// How many parts of a parallel step a limit may let run at once.
const MOST_AT_ONCE: u32 = 1000;

/// A text of the program's own, with these characters.
pub(crate) fn owned(alloc: Global, text: &str) -> Result<Text, Stop>
    ensures { MatchResult result (λ t. t ≡ text.now) (λ s. s ≡ stop.OutOfMemory) }
{
    Ok(Text::new(alloc, text)?)
}

/// Any text.
fn any_text(alloc: Global, tree: &Tree) -> Result<Text, Stop>
    ensures { MatchResult result (λ x. IsSoundAnd AnyText (plain_tree tree.now)
        (IsText x (plain_tree tree.now))) (λ stop. Fails AnyText (plain_tree tree.now) stop) }
{
    match tree {
        Tree::Text(text) => owned(alloc, text.as_str()),
        _ => Err(Stop::here(alloc, SyntaxKind::WrongKind)),
    }
}

/// The name of a variable.
fn variable_name(alloc: Global, tree: &Tree) -> Result<Text, Stop>
    ensures { MatchResult result (λ x. IsSoundAnd VariableName (plain_tree tree.now)
        (IsText x (plain_tree tree.now))) (λ stop. Fails VariableName (plain_tree tree.now) stop) }
{
    match tree {
        Tree::Text(text) => {
            if is_name(text.as_str()) {
                owned(alloc, text.as_str())
            } else {
                Err(Stop::here(alloc, SyntaxKind::WrongKind))
            }
        }
        _ => Err(Stop::here(alloc, SyntaxKind::WrongKind)),
    }
}

/// The text at a key, if there is one.
pub(crate) fn text_at(alloc: Global, fields: &TreeMap, key: &str) -> Result<Option<Text>, Stop>
    ensures { MatchResult result (λ o. AreSoundAnd (at key.now AnyText (pairs_of fields.now))
        (Maybe o key.now (pairs_of fields.now) IsText))
        (λ stop. FailsAmong (at key.now AnyText (pairs_of fields.now)) stop) }
{
    match field(fields, key) {
        None => Ok(None),
        Some(tree) => match any_text(alloc, tree) {
            Ok(text) => Ok(Some(text)),
            Err(stop) => Err(stop.at_key(alloc, key)),
        },
    }
}

/// The name of a variable at a key, if there is one.
pub(crate) fn name_at(alloc: Global, fields: &TreeMap, key: &str) -> Result<Option<Text>, Stop>
    ensures { MatchResult result (λ o. AreSoundAnd (at key.now VariableName (pairs_of fields.now))
        (Maybe o key.now (pairs_of fields.now) IsText))
        (λ stop. FailsAmong (at key.now VariableName (pairs_of fields.now)) stop) }
{
    match field(fields, key) {
        None => Ok(None),
        Some(tree) => match variable_name(alloc, tree) {
            Ok(name) => Ok(Some(name)),
            Err(stop) => Err(stop.at_key(alloc, key)),
        },
    }
}

/// The names of variables in a list.
fn names(alloc: Global, tree: &Tree) -> Result<Texts, Stop>
    ensures { MatchResult result (λ xs. IsSoundAnd Shared (plain_tree tree.now)
        (AreTexts (texts_view xs) (plain_tree tree.now)))
        (λ stop. Fails Shared (plain_tree tree.now) stop) }
{
    let Tree::List(items) = tree else {
        return Err(Stop::here(alloc, SyntaxKind::WrongKind));
    };
    let items = items.items();
    let mut made = Texts::new(alloc)?;
    'each: for index in 0..items.len() {
        match variable_name(alloc, &items[index]) {
            Ok(name) => made.push(name)?,
            Err(stop) => return Err(stop.at_index(index)),
        }
    }
    Ok(made)
}

/// The names of variables at a key, and none where it isn't there.
pub(crate) fn names_at(alloc: Global, fields: &TreeMap, key: &str) -> Result<Texts, Stop>
    ensures { MatchResult result (λ xs. AreSoundAnd (at key.now Shared (pairs_of fields.now))
        (Else (texts_view xs) [] key.now (pairs_of fields.now) AreTexts))
        (λ stop. FailsAmong (at key.now Shared (pairs_of fields.now)) stop) }
{
    match field(fields, key) {
        None => Ok(Texts::new(alloc)?),
        Some(tree) => match names(alloc, tree) {
            Ok(names) => Ok(names),
            Err(stop) => Err(stop.at_key(alloc, key)),
        },
    }
}

/// The limit on parts at once at a key, if there is one.
pub(crate) fn limit_at(alloc: Global, fields: &TreeMap, key: &str) -> Result<Option<u32>, Stop>
    ensures { MatchResult result (λ o. AreSoundAnd (at key.now Limit (pairs_of fields.now))
        (Maybe o key.now (pairs_of fields.now) IsLimit))
        (λ stop. FailsAmong (at key.now Limit (pairs_of fields.now)) stop) }
{
    match field(fields, key) {
        None => Ok(None),
        Some(tree) => match whole_within(tree, 1, MOST_AT_ONCE) {
            Some(limit) => Ok(Some(limit)),
            None => Err(Stop::here(alloc, SyntaxKind::WrongKind).at_key(alloc, key)),
        },
    }
}

/// Sees that the word at a key, if there is one, is the one that a policy on errors may be.
pub(crate) fn policy_word_at(alloc: Global, fields: &TreeMap, key: &str) -> Result<(), Stop>
    ensures { MatchResult result (λ _. AreSound (at key.now Policy (pairs_of fields.now)))
        (λ stop. FailsAmong (at key.now Policy (pairs_of fields.now)) stop) }
{
    match field(fields, key) {
        None => Ok(()),
        Some(tree) => match policy_word(alloc, tree) {
            Ok(()) => Ok(()),
            Err(stop) => Err(stop.at_key(alloc, key)),
        },
    }
}

fn policy_word(alloc: Global, tree: &Tree) -> Result<(), Stop>
    ensures { MatchResult result (λ _. IsSound Policy (plain_tree tree.now))
        (λ stop. Fails Policy (plain_tree tree.now) stop) }
{
    match tree {
        Tree::Text(text) => {
            if text.as_str() == "continueAll" {
                Ok(())
            } else {
                Err(Stop::here(alloc, SyntaxKind::WrongKind))
            }
        }
        _ => Err(Stop::here(alloc, SyntaxKind::WrongKind)),
    }
}
