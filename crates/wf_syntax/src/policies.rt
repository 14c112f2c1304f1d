// Retry policies.
ghost use Rattle.std.specs.Prelude.{◌≡◌, true, false, MatchOption, MatchResult};
ghost use Rattle.wf_ast.specs.Tree.{Always, Predefined};
ghost use Rattle.wf_ast.specs.View.{policy_option_view, policy_view, predicate_view};
ghost use Rattle.wf_syntax_rules.specs.Meaning.{Else, IsAttempts, IsBackoff, IsPolicy, IsPredicate, IsThousandths, Maybe, default_backoff, most_retries, policy_kind};
ghost use Rattle.wf_syntax_rules.specs.Rules as rules;
ghost use Rattle.wf_syntax_rules.specs.Rules.{Factor, Retry, Seconds, at};
ghost use Rattle.wf_value.specs.HttpRequest.{is_among};
ghost use Rattle.wf_syntax.specs.Answers.{Fails, FailsAmong, IsSoundAnd, AreSoundAnd};
ghost use Rattle.wf_tree.specs.Plain.{plain_tree};
ghost use Rattle.wf_tree.specs.Trees.{map, pairs_of};

use crate::faults::map_fault;
use crate::stop::Stop;
use crate::words::owned;
use std::alloc::Global;
use wf_ast::{Policy, Predicate};
use wf_syntax_rules::SyntaxKind;
use wf_syntax_words::{field, is_name, thousandths_to, unmarked, whole_within};
use wf_tree::{Tree, TreeMap};
use wf_value::{Backoff, DefaultKind};

const MOST_RETRIES: u32 = 1_000_000;
/// in milliseconds: a year
const LONGEST_DELAY: u64 = 31_536_000_000;
/// in thousandths
const GREATEST_FACTOR: u64 = 1_000_000;

const DEFAULT_RETRIES: u32 = 5;

const DEFAULT_BACKOFF: Backoff = Backoff {
    initial: 1000,
    max: 60_000,
    multiplier: 1250,
};

/// A predefined policy, or a map of one's fields.
fn policy(alloc: Global, tree: &Tree) -> Result<Policy, Stop>
    ensures { MatchResult result (λ p. IsSoundAnd Retry (plain_tree tree.now)
        (IsPolicy (policy_view p) (plain_tree tree.now)))
        (λ stop. Fails Retry (plain_tree tree.now) stop) }
{
    match tree {
        Tree::Text(text) => match predefined(unmarked(text.as_str())) {
            Some(policy) => Ok(policy),
            None => Err(Stop::here(alloc, SyntaxKind::WrongKind)),
        },
        Tree::Map(fields) => own_policy(alloc, fields),
        _ => Err(Stop::here(alloc, SyntaxKind::WrongKind)),
    }
}

/// The predefined policy of a name.
fn predefined(name: &str) -> Option<Policy>
    ensures { MatchOption result (is_among name.now rules.policies
        ≡ false) (λ p. (is_among name.now rules.policies ≡ true)
        × (policy_view p ≡ record {
          predicate = Predefined (policy_kind name.now);
          max_retries = most_retries;
          backoff =
              default_backoff;
        })) }
{
    let kind = match name {
        "http.default_retry" => DefaultKind::Idempotent,
        "http.default_retry_non_idempotent" => DefaultKind::NonIdempotent,
        _ => return None,
    };
    Some(Policy {
        predicate: Predicate::Default(kind),
        max_retries: DEFAULT_RETRIES,
        backoff: DEFAULT_BACKOFF,
    })
}

/// A policy by its fields.
fn own_policy(alloc: Global, fields: &TreeMap) -> Result<Policy, Stop>
    ensures { MatchResult result (λ p. IsSoundAnd Retry (map (pairs_of fields.now))
        (IsPolicy (policy_view p) (map (pairs_of fields.now))))
        (λ stop. Fails Retry (map (pairs_of fields.now)) stop) }
{
    if let Some(kind) = map_fault(fields, &[], &["backoff", "max_retries", "predicate"]) {
        return Err(Stop::here(alloc, kind));
    }
    let backoff = backoff_at(alloc, fields, "backoff")?;
    let max_retries = attempts_at(alloc, fields, "max_retries")?;
    let predicate = predicate_at(alloc, fields, "predicate")?;
    Ok(Policy {
        predicate,
        max_retries,
        backoff,
    })
}

/// Which errors are tried again: all where nothing is said.
fn predicate_at(alloc: Global, fields: &TreeMap, key: &str) -> Result<Predicate, Stop>
    ensures { MatchResult result (λ q. AreSoundAnd
        (at key.now rules.Predicate (pairs_of fields.now))
        (Else (predicate_view q) Always key.now (pairs_of fields.now) IsPredicate))
        (λ stop. FailsAmong (at key.now rules.Predicate (pairs_of fields.now)) stop) }
{
    match field(fields, key) {
        None => Ok(Predicate::Always),
        Some(tree) => match predicate(alloc, tree) {
            Ok(predicate) => Ok(predicate),
            Err(stop) => Err(stop.at_key(alloc, key)),
        },
    }
}

fn predicate(alloc: Global, tree: &Tree) -> Result<Predicate, Stop>
    ensures { MatchResult result (λ q. IsSoundAnd rules.Predicate (plain_tree tree.now)
        (IsPredicate (predicate_view q) (plain_tree tree.now)))
        (λ stop. Fails rules.Predicate (plain_tree tree.now) stop) }
{
    let Tree::Text(text) = tree else {
        return Err(Stop::here(alloc, SyntaxKind::WrongKind));
    };
    match unmarked(text.as_str()) {
        "http.default_retry_predicate" => Ok(Predicate::Default(DefaultKind::Idempotent)),
        "http.default_retry_predicate_non_idempotent" => Ok(Predicate::Default(
            DefaultKind::NonIdempotent,
        )),
        "retry.always" => Ok(Predicate::Always),
        "retry.never" => Ok(Predicate::Never),
        name => {
            if is_name(name) {
                Ok(Predicate::Flow(owned(alloc, name)?))
            } else {
                Err(Stop::here(alloc, SyntaxKind::WrongKind))
            }
        }
    }
}

/// How often a body is tried again: five times where nothing is said.
fn attempts_at(alloc: Global, fields: &TreeMap, key: &str) -> Result<u32, Stop>
    ensures { MatchResult result (λ n. AreSoundAnd (at key.now rules.Attempts (pairs_of fields.now))
        (Else n most_retries key.now (pairs_of fields.now) IsAttempts))
        (λ stop. FailsAmong (at key.now rules.Attempts (pairs_of fields.now)) stop) }
{
    match field(fields, key) {
        None => Ok(DEFAULT_RETRIES),
        Some(tree) => match whole_within(tree, 0, MOST_RETRIES) {
            Some(count) => Ok(count),
            None => Err(Stop::here(alloc, SyntaxKind::WrongKind).at_key(alloc, key)),
        },
    }
}

/// The delays, or those that hold where nothing is said.
fn backoff_at(alloc: Global, fields: &TreeMap, key: &str) -> Result<Backoff, Stop>
    ensures { MatchResult result (λ b. AreSoundAnd (at key.now rules.Backoff (pairs_of fields.now))
        (Else b default_backoff key.now (pairs_of fields.now) IsBackoff))
        (λ stop. FailsAmong (at key.now rules.Backoff (pairs_of fields.now)) stop) }
{
    match field(fields, key) {
        None => Ok(DEFAULT_BACKOFF),
        Some(tree) => match backoff(alloc, tree) {
            Ok(backoff) => Ok(backoff),
            Err(stop) => Err(stop.at_key(alloc, key)),
        },
    }
}

fn backoff(alloc: Global, tree: &Tree) -> Result<Backoff, Stop>
    ensures { MatchResult result (λ b. IsSoundAnd rules.Backoff (plain_tree tree.now)
        (IsBackoff b (plain_tree tree.now)))
        (λ stop. Fails rules.Backoff (plain_tree tree.now) stop) }
{
    let Tree::Map(fields) = tree else {
        return Err(Stop::here(alloc, SyntaxKind::WrongKind));
    };
    if let Some(kind) = map_fault(fields, &[], &["initial_delay", "max_delay", "multiplier"]) {
        return Err(Stop::here(alloc, kind));
    }
    Ok(Backoff {
        initial: delay_at(alloc, fields, "initial_delay", DEFAULT_BACKOFF.initial)?,
        max: delay_at(alloc, fields, "max_delay", DEFAULT_BACKOFF.max)?,
        multiplier: factor_at(alloc, fields, "multiplier", DEFAULT_BACKOFF.multiplier)?,
    })
}

/// A delay at a key, in milliseconds, or a default.
fn delay_at(alloc: Global, fields: &TreeMap, key: &str, default: u64) -> Result<u64, Stop>
    ensures { MatchResult result (λ n. AreSoundAnd (at key.now Seconds (pairs_of fields.now))
        (Else n default key.now (pairs_of fields.now) IsThousandths))
        (λ stop. FailsAmong (at key.now Seconds (pairs_of fields.now)) stop) }
{
    match field(fields, key) {
        None => Ok(default),
        Some(tree) => match thousandths_to(tree, LONGEST_DELAY) {
            Some(delay) => Ok(delay),
            None => Err(Stop::here(alloc, SyntaxKind::WrongKind).at_key(alloc, key)),
        },
    }
}

/// A factor at a key, in thousandths, or a default.
fn factor_at(alloc: Global, fields: &TreeMap, key: &str, default: u64) -> Result<u64, Stop>
    ensures { MatchResult result (λ n. AreSoundAnd (at key.now Factor (pairs_of fields.now))
        (Else n default key.now (pairs_of fields.now) IsThousandths))
        (λ stop. FailsAmong (at key.now Factor (pairs_of fields.now)) stop) }
{
    match field(fields, key) {
        None => Ok(default),
        Some(tree) => match thousandths_to(tree, GREATEST_FACTOR) {
            Some(factor) => Ok(factor),
            None => Err(Stop::here(alloc, SyntaxKind::WrongKind).at_key(alloc, key)),
        },
    }
}

/// The policy at a key, if there is one.
pub(crate) fn policy_at(alloc: Global, fields: &TreeMap, key: &str) -> Result<Option<Policy>, Stop>
    ensures { MatchResult result (λ o. AreSoundAnd (at key.now Retry (pairs_of fields.now))
        (Maybe (policy_option_view o) key.now (pairs_of fields.now) IsPolicy))
        (λ stop. FailsAmong (at key.now Retry (pairs_of fields.now)) stop) }
{
    match field(fields, key) {
        None => Ok(None),
        Some(tree) => match policy(alloc, tree) {
            Ok(policy) => Ok(Some(policy)),
            Err(stop) => Err(stop.at_key(alloc, key)),
        },
    }
}
