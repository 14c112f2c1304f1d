// The signs of a flow collection.
ghost use Rattle.std.specs.Prelude.{◌≡◌, ◌≤◌, ◌<◌, ◌==◌, ◌||◌, true, not, length, option_map, IfSome};
ghost use Rattle.wf_yaml_line.specs.Marks as marks;
ghost use Rattle.wf_yaml_line.specs.Fault.{noted};
ghost use Rattle.wf_yaml_flow.specs.Flow as flows;

use wf_yaml_line::{Fault, Kind, ends_word, is_blank, is_flow_mark, refuse_if, skip_blanks};

/// Over blanks; behind a blank a comment takes the rest of the line.
pub(crate) fn flow_blanks(s: &[char]) -> &[char]
    ensures rest { result.now ≡ flows.flow_blanks s.now }
    ensures len { length result.now ≤ length s.now }
{
    let rest = skip_blanks(s);
    if starts_blank(s) && starts_comment(rest) {
        &[]
    } else {
        rest
    }
}

fn starts_blank(s: &[char]) -> bool
    ensures { result ≡ marks.starts marks.is_blank s.now }
{
    match s {
        [] => false,
        [c, ..] => is_blank(*c),
    }
}

fn starts_comment(s: &[char]) -> bool
    ensures { result ≡ marks.starts (λ b. b == marks.hash) s.now }
{
    match s {
        [] => false,
        [c, ..] => *c == '#',
    }
}

/// Whether nothing is left.
pub(crate) fn is_empty(s: &[char]) -> bool
    ensures { result ≡ marks.is_empty s.now }
{
    match s {
        [] => true,
        _ => false,
    }
}

/// Whether a `,` stands first.
pub(crate) fn starts_comma(s: &[char]) -> bool
    ensures filled { result ≡ true → 0 < length s.now }
    ensures value { result ≡ marks.starts (λ b. b == marks.comma) s.now }
{
    match s {
        [] => false,
        [c, ..] => *c == ',',
    }
}

/// The text behind the `:` of a pair, where one follows a key.
pub(crate) fn behind_colon(quoted: bool, s: &[char]) -> Option<&[char]>
    ensures rest { option_map (λ r. r.now) result ≡ flows.behind_colon quoted s.now }
    ensures less { IfSome result (λ r. length r.now < length s.now) }
{
    match skip_blanks(s) {
        [':', rest @ ..] => if quoted || ends_word(rest) {
            Some(rest)
        } else {
            None
        },
        _ => None,
    }
}

/// Whether an anchor, an alias or a tag begins.
pub(crate) fn is_property(s: &[char]) -> bool
    ensures { result ≡ marks.starts flows.is_property s.now }
{
    match s {
        [] => false,
        [c, ..] => *c == '&' || *c == '*' || *c == '!',
    }
}

fn is_tag(s: &[char]) -> bool
    ensures { result ≡ marks.starts (λ b. b == marks.bang) s.now }
{
    match s {
        [] => false,
        [c, ..] => *c == '!',
    }
}

/// The fault of a text that starts with an anchor, an alias or a tag.
pub(crate) fn property_fault(line: u32, s: &[char]) -> Option<Fault>
    ensures { noted result ≡ flows.property_fault line s.now }
{
    let kind = if is_tag(s) { Kind::Tag } else { Kind::Anchor };
    refuse_if(is_property(s), line, kind)
}

fn skip_property(s: &[char]) -> &[char]
    ensures rest { result.now ≡ marks.skip (λ b. not (marks.is_blank b || marks.is_flow_mark b))
        s.now }
    ensures len { length result.now ≤ length s.now }
{
    let mut rest = s;
    'property: loop {
        match rest {
            [c, after @ ..] => {
                if is_blank(*c) || is_flow_mark(*c) {
                    return rest;
                }
                rest = after;
            }
            [] => return rest,
        }
    }
}

/// The text behind an anchor, an alias or a tag, where one stands.
pub(crate) fn behind_property(s: &[char]) -> &[char]
    ensures rest { result.now ≡ flows.behind_property s.now }
    ensures len { length result.now ≤ length s.now }
{
    if is_property(s) {
        flow_blanks(skip_property(s))
    } else {
        s
    }
}

/// Nothing of a node stands here.
pub(crate) fn ends_node(s: &[char]) -> bool
    ensures { result ≡ flows.ends_node s.now }
{
    match s {
        [] => true,
        [c, ..] => *c == ',' || *c == ']' || *c == '}',
    }
}

/// Whether a collection in brackets begins.
pub(crate) fn is_bracket(s: &[char]) -> bool
    ensures { result ≡ marks.starts marks.is_bracket s.now }
{
    match s {
        [] => false,
        [c, ..] => *c == '[' || *c == '{',
    }
}

/// Whether a map in brackets begins.
pub(crate) fn starts_map(s: &[char]) -> bool
    ensures { result ≡ marks.starts (λ b. b == marks.open_map) s.now }
{
    match s {
        [] => false,
        [c, ..] => *c == '{',
    }
}

/// The fault of a collection that nests so deep.
pub(crate) fn depth_fault(line: u32, depth: usize) -> Option<Fault>
    ensures { noted result ≡ flows.depth_fault line depth }
{
    refuse_if(depth > 100, line, Kind::TooDeep)
}

/// The fault of a key that is quoted and has a bad escape.
pub(crate) fn key_fault(line: u32, good: bool) -> Option<Fault>
    ensures { noted result ≡ flows.key_fault line good }
{
    refuse_if(!good, line, Kind::Quote)
}
