// The scalars and the keys of a flow collection.
ghost use Rattle.std.specs.Prelude.{◌≡◌, ◌≤◌, ◌∷◌, ℕ, Some, Result, true, false, List, length, take, drop, IfOk, IfSome};
ghost use Rattle.std.specs.Str.{encode_utf8_all};
ghost use Rattle.wf_tree.specs.Trees as trees;
ghost use Rattle.wf_tree.specs.Plain.{plain_tree};
ghost use Rattle.wf_yaml_line.specs.declared.fault.Fault.{Fault};
ghost use Rattle.wf_yaml_line.specs.Marks as marks;
ghost use Rattle.wf_yaml_flow.specs.Flow as flows;
ghost use Rattle.wf_yaml_line.specs.Views.{so_far, ReadsAs};
ghost use Rattle.wf_yaml_flow.specs.FlowWalk as walk;
ghost use Rattle.wf_yaml_line.specs.Quoted as quotes;
ghost use Rattle.wf_yaml_line.specs.Scalars as scalars;

use std::alloc::Global;
use wf_tree::Tree;
use wf_value::{OutOfMemory, Text};
use wf_yaml_line::{
    Fault, Kind, YamlFault, behind_first, ends_with_colon, ends_word, is_blank, is_delay_key,
    is_flow_mark, is_guarded, is_reserved, plain_scalar, read_quoted, refuse_if, starts_quote,
    text_of, trimmed,
};

/// The characters of a scalar or a key, whether it was quoted and has good escapes, and the text
/// behind it.
#[derive(Drop)]
pub(crate) struct FlowWord<'a> {
    pub(crate) chars: Vec<char>,
    pub(crate) quoted: bool,
    pub(crate) good: bool,
    pub(crate) rest: &'a [char],
}

/// A scalar's tree, Null where a fault was noted.
#[derive(Drop)]
pub(crate) struct Scalar {
    pub(crate) tree: Tree,
    pub(crate) fault: Option<Fault>,
}

/// Whether a plain scalar ends before this character.
fn ends_plain(after_blank: bool, c: char, rest: &[char]) -> bool
    ensures { result ≡ walk.ends_plain after_blank c rest.now }
{
    is_flow_mark(c) || c == ':' && ends_word(rest) || after_blank && c == '#'
}

fn plain_part(s: &[char]) -> &[char]
    ensures { result.now ≡ flows.plain_part false s.now }
{
    let mut after_blank = false;
    for i in 0..s.len() {
        let c = s[i];
        if ends_plain(after_blank, c, &s[i + 1..]) {
            return &s[..i];
        }
        after_blank = is_blank(c);
    }
    s
}

fn starts_flow_mark(s: &[char]) -> bool
    ensures { result ≡ marks.starts marks.is_flow_mark s.now }
{
    match s {
        [] => false,
        [c, ..] => is_flow_mark(*c),
    }
}

fn may_start_flow(s: &[char]) -> bool
    ensures { result ≡ flows.may_start_flow s.now }
{
    match s {
        [] => false,
        [c, rest @ ..] => {
            let stands_alone = ends_word(rest) || starts_flow_mark(rest);
            !is_reserved(*c) && !(is_guarded(*c) && stands_alone)
        }
    }
}

/// The quote that an expression stands in behind a character, or a zero, and whether a backslash
/// stands before.
fn behind_character(quote: char, escaped: bool, c: char) -> (char, bool)
    requires { walk.closes_expression quote escaped c ≡ false }
    ensures { (r : List ℕ) → flows.expression_length quote escaped (c ∷ r)
        ≡ flows.one_more (flows.expression_length result.0 result.1 r) }
{
    if escaped {
        (quote, false)
    } else if quote == '\0' {
        if c == '\'' || c == '"' {
            (c, false)
        } else {
            (quote, false)
        }
    } else if c == '\\' {
        (quote, true)
    } else if c == quote {
        ('\0', false)
    } else {
        (quote, false)
    }
}

/// How many characters an expression takes up to its `}`.
fn expression_length(s: &[char]) -> Option<usize>
    ensures within { IfSome result (λ n. n ≤ length s.now) }
    ensures length { result ≡ flows.expression_length 0 false s.now }
{
    let mut quote = '\0';
    let mut escaped = false;
    for (i, c) in s.iter().enumerate() {
        let c = *c;
        if !escaped && quote == '\0' && c == '}' {
            return Some(i + 1);
        }
        let (next_quote, next_escaped) = behind_character(quote, escaped, c);
        quote = next_quote;
        escaped = next_escaped;
    }
    None
}

fn starts_expression(s: &[char]) -> bool
    ensures { result ≡ flows.starts_expression s.now }
{
    match s {
        ['$', '{', ..] => true,
        _ => false,
    }
}

/// A word that isn't quoted: so many characters at the start of a text.
fn unquoted(alloc: Global, s: &[char], n: usize) -> Result<FlowWord<'_>, OutOfMemory>
    requires { n ≤ length s.now }
    ensures { IfOk result (λ w. walk.found_word (Some w)
        ≡ flows.word (take n s.now) false true (drop n s.now)) }
{
    let (front, rest) = s.split_at(n);
    Ok(FlowWord {
        chars: front.to_vec(alloc)?,
        quoted: false,
        good: true,
        rest,
    })
}

fn quoted_word(alloc: Global, s: &[char]) -> Result<Option<FlowWord<'_>>, OutOfMemory>
    ensures { IfOk result (λ w. walk.found_word w
        ≡ flows.quoted_word (quotes.quoted s.now).chars (quotes.quoted s.now).rest
        (quotes.quoted s.now).good) }
{
    let found = read_quoted(alloc, s)?;
    match found.rest {
        Some(rest) => Ok(Some(FlowWord {
            chars: found.chars,
            quoted: true,
            good: found.good,
            rest,
        })),
        None => Ok(None),
    }
}

#[tactic(auto, using(crate::proofs::FlowFronts::two_first))]
fn expression_word(alloc: Global, s: &[char]) -> Result<Option<FlowWord<'_>>, OutOfMemory>
    requires { flows.starts_expression s.now ≡ true }
    ensures { IfOk result (λ w. walk.found_word w
        ≡ flows.expression_word s.now
        (flows.one_more (flows.one_more
        (flows.expression_length 0 false (marks.behind_first (marks.behind_first s.now)))))) }
{
    match expression_length(behind_first(behind_first(s))) {
        Some(n) => Ok(Some(unquoted(alloc, s, n + 2)?)),
        None => Ok(None),
    }
}

fn plain_word(alloc: Global, s: &[char]) -> Result<Option<FlowWord<'_>>, OutOfMemory>
    ensures { IfOk result (λ w. walk.found_word w
        ≡ flows.plain_word s.now (marks.trimmed (flows.plain_part false s.now))) }
{
    let part = trimmed(plain_part(s));
    if ends_with_colon(part) {
        return Ok(None);
    }
    Ok(Some(unquoted(alloc, s, part.len())?))
}

/// What stands at a place where a scalar may stand.
pub(crate) fn read_word(alloc: Global, s: &[char]) -> Result<Option<FlowWord<'_>>, OutOfMemory>
    ensures { IfOk result (λ w. walk.found_word w ≡ flows.flow_word s.now) }
{
    if starts_quote(s) {
        quoted_word(alloc, s)
    } else if starts_expression(s) {
        expression_word(alloc, s)
    } else if may_start_flow(s) {
        plain_word(alloc, s)
    } else {
        Ok(None)
    }
}

/// The text of a word.
pub(crate) fn word_text(alloc: Global, word: &FlowWord<'_>) -> Result<Text, OutOfMemory>
    ensures { IfOk result (λ t. t ≡ encode_utf8_all word.now.chars.items) }
{
    text_of(alloc, word.chars.as_slice())
}

/// Whether a key's value may be a decimal.
pub(crate) fn has_delay(key: &Text) -> bool
    ensures { result ≡ scalars.is_delay_key key.now }
{
    is_delay_key(key.as_str())
}

fn plain_or_fault(read: Result<Tree, YamlFault>) -> Result<Scalar, OutOfMemory>
    ensures { (told : Result trees.Tree Fault) → ReadsAs plain_tree read told
        → IfOk result (λ r. so_far (plain_tree r.tree) r.fault ≡ told) }
{
    match read {
        Ok(tree) => Ok(Scalar { tree, fault: None }),
        Err(YamlFault::Refused(fault)) => Ok(Scalar {
            tree: Tree::Null,
            fault: Some(fault),
        }),
        Err(YamlFault::OutOfMemory) => Err(OutOfMemory),
    }
}

/// The tree of a word that is a scalar.
pub(crate) fn word_tree(
    alloc: Global,
    delay: bool,
    line: u32,
    word: &FlowWord<'_>,
) -> Result<Scalar, OutOfMemory>
    ensures { IfOk result (λ r. so_far (plain_tree r.tree) r.fault
        ≡ flows.scalar_tree delay line word.now.chars.items word.now.quoted word.now.good) }
{
    if !word.quoted {
        return plain_or_fault(plain_scalar(alloc, delay, line, word.chars.as_slice()));
    }
    if !word.good {
        return Ok(Scalar {
            tree: Tree::Null,
            fault: refuse_if(true, line, Kind::Quote),
        });
    }
    Ok(Scalar {
        tree: Tree::Text(word_text(alloc, word)?),
        fault: None,
    })
}
