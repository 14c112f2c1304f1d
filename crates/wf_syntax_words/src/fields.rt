// Maps of the language: their fields, and which form of a body they have.
ghost use Rattle.std.specs.Prelude.{◌≡◌, ◌++◌, map, option_map};
ghost use Rattle.wf_syntax_words.specs.Fields as words;
ghost use Rattle.wf_syntax_words.specs.Fields.{count_of, first_fields};
ghost use Rattle.wf_tree.specs.Plain.{plain_tree};
ghost use Rattle.wf_tree.specs.Trees.{pairs_of};
ghost use Rattle.wf_value.specs.HttpRequest.{is_among as among};

use crate::names::is_among;
use wf_tree::{Tree, TreeMap};

/// The pair of a map of one.
pub fn single(tree: &Tree) -> Option<(&str, &Tree)>
    ensures { option_map (λ p. (p.0.now, plain_tree p.1.now)) result
        ≡ words.single_of (plain_tree tree.now) }
{
    let Tree::Map(fields) = tree else {
        return None;
    };
    if fields.entry(1).is_some() {
        None
    } else {
        fields.entry(0)
    }
}

/// The tree at a key.
pub fn field<'a>(fields: &'a TreeMap, key: &str) -> Option<&'a Tree>
    ensures { option_map (λ t. plain_tree t.now) result
        ≡ words.field key.now (pairs_of fields.now) }
{
    fields.get(key)
}

/// Whether a map has a key.
pub fn has(fields: &TreeMap, key: &str) -> bool
    ensures { result ≡ words.has key.now (pairs_of fields.now) }
{
    field(fields, key).is_some()
}

/// Whether a map has each of these keys.
pub fn has_all(fields: &TreeMap, keys: &[&str]) -> bool
    ensures { result ≡ words.has_all (map (λ k. k.now) keys.now) (pairs_of fields.now) }
{
    for key in keys {
        if !has(fields, key) {
            return false;
        }
    }
    true
}

/// Whether a map has keys of two lists alone.
pub fn has_only(fields: &TreeMap, some: &[&str], others: &[&str]) -> bool
    ensures { result ≡ words.has_only (map (λ k. k.now) some.now ++ map (λ k. k.now) others.now)
        (pairs_of fields.now) }
{
    for pair in fields.pairs() {
        if !is_in_either(pair.0.as_str(), some, others) {
            return false;
        }
    }
    true
}

fn is_in_either(key: &str, some: &[&str], others: &[&str]) -> bool
    ensures { result ≡ among key.now (map (λ k. k.now) some.now ++ map (λ k. k.now) others.now) }
{
    is_among(key, some) || is_among(key, others)
}

/// The forms of a body.
const FORMS: [&str; 9] = [
    "assign", "call", "for", "parallel", "raise", "return", "steps", "switch", "try",
];

/// The forms of a body, each with its fields.
const FORM_FIELDS: [(&str, &[&str]); 9] = [
    ("assign", &["assign", "next"]),
    ("call", &["args", "call", "next", "result"]),
    ("for", &["for", "next"]),
    ("parallel", &["next", "parallel"]),
    ("raise", &["raise"]),
    ("return", &["return"]),
    ("steps", &["next", "steps"]),
    ("switch", &["next", "switch"]),
    ("try", &["except", "next", "retry", "try"]),
];

/// How many of these keys a map has.
fn count_of(fields: &TreeMap, keys: &[&str]) -> usize
    ensures { result ≡ count_of (pairs_of fields.now) (map (λ k. k.now) keys.now) }
{
    let mut count = 0;
    for key in keys {
        if has(fields, key) {
            count += 1;
        }
    }
    count
}

/// Whether a map has some keys and those of its form alone: `next` without a form, and none of a form with two forms.
pub fn has_only_of_form(fields: &TreeMap, others: &[&str]) -> bool
    ensures { result ≡ words.has_only
        (map (λ k. k.now) others.now ++ words.body_fields (pairs_of fields.now))
        (pairs_of fields.now) }
{
    if count_of(fields, &FORMS) > 1 {
        has_only(fields, others, &[])
    } else {
        has_only_of_first(fields, others)
    }
}

/// The same, by the first form that the map has.
fn has_only_of_first(fields: &TreeMap, others: &[&str]) -> bool
    ensures { result ≡ words.has_only
        (map (λ k. k.now) others.now ++ first_fields words.forms (pairs_of fields.now))
        (pairs_of fields.now) }
{
    has_only(fields, others, fields_of_first(fields))
}

/// The fields of the first form that a map has.
fn fields_of_first(fields: &TreeMap) -> &'static [&'static str]
    ensures { map (λ k. k.now) result.now ≡ first_fields words.forms (pairs_of fields.now) }
{
    for form in &FORM_FIELDS {
        if has(fields, form.0) {
            return form.1;
        }
    }
    &["next"]
}

/// Whether a map has no pairs.
pub fn is_empty(fields: &TreeMap) -> bool
    ensures { result ≡ words.is_empty (pairs_of fields.now) }
{
    fields.pairs().is_empty()
}
