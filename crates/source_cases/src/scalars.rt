// Scalars that stand on one line, and the marks around them.
use crate::kinds::name_of;
use crate::texts::{chars_of, push_chars, word};
use std::alloc::Global;
use wf_cases::{CaseFault, quoted};
use wf_tree::Tree;
use wf_value::Value;
use wf_yaml_flow::one_line as read_line;
use wf_yaml_line::{
    Plain, YamlFault, before_comment, behind_first, ends_line, ends_word, is_blank, is_blank_line,
    may_start_plain, plain_kind, skip_blanks,
};

/// What a plain scalar is.
pub(crate) fn plain(alloc: Global, text: &str) -> Result<String, CaseFault> {
    let chars = chars_of(alloc, text)?;
    match plain_kind(chars.as_slice()) {
        Plain::Null => word(alloc, "Null"),
        Plain::Truth(truth) => Ok(format!(in alloc; "Truth({truth})")?),
        Plain::Whole(number) => Ok(format!(in alloc; "Whole({number})")?),
        Plain::Decimal => word(alloc, "Decimal"),
        Plain::Text => word(alloc, "Text"),
    }
}

/// The rest of line 7, where a delay may or may not stand: its scalar, of which a text is in quotes and a decimal behind `#`; or why
/// there is none.
pub(crate) fn one_line(alloc: Global, delay: &Value, text: &str) -> Result<String, CaseFault> {
    let Value::Bool(delay) = delay else {
        return Err(CaseFault::NoCase);
    };
    let chars = chars_of(alloc, text)?;
    shown(alloc, &read_line(alloc, *delay, 7, 1, chars.as_slice()))
}

/// A scalar, or why there is none.
pub(crate) fn shown(alloc: Global, read: &Result<Tree, YamlFault>) -> Result<String, CaseFault> {
    match read {
        Ok(tree) => scalar(alloc, tree),
        Err(YamlFault::Refused(fault)) => {
            Ok(format!(in alloc; "{} at {}", name_of(fault.kind), fault.line)?)
        }
        Err(YamlFault::OutOfMemory) => word(alloc, "no memory"),
    }
}

/// A scalar.
pub(crate) fn scalar(alloc: Global, tree: &Tree) -> Result<String, CaseFault> {
    match tree {
        Tree::Null => word(alloc, "null"),
        Tree::Bool(truth) => Ok(format!(in alloc; "{truth}")?),
        Tree::Int(number) => Ok(format!(in alloc; "{number}")?),
        Tree::Decimal(text) => Ok(format!(in alloc; "#{}", text.as_str())?),
        Tree::Text(text) => quoted(alloc, text.as_str()),
        Tree::List(_) | Tree::Map(_) => word(alloc, "a collection"),
    }
}

/// What stands behind a text's blanks, behind its first character and before its comment, and whether it has one.
pub(crate) fn parts(alloc: Global, text: &str) -> Result<String, CaseFault> {
    let chars = chars_of(alloc, text)?;
    let mut out = String::new(alloc);
    write_parts(alloc, &mut out, chars.as_slice())?;
    Ok(out)
}

fn write_parts(alloc: Global, out: &mut String, chars: &[char]) -> Result<(), CaseFault> {
    let (before, has_comment) = before_comment(chars);
    push_chars(alloc, out, skip_blanks(chars))?;
    out.push(' ')?;
    push_chars(alloc, out, behind_first(chars))?;
    out.push(' ')?;
    push_chars(alloc, out, before)?;
    Ok(write!(out, " {has_comment}")?)
}

/// Whether a text is a blank line, ends a line, ends a word, and may start a plain scalar.
pub(crate) fn ends(alloc: Global, text: &str) -> Result<String, CaseFault> {
    let chars = chars_of(alloc, text)?;
    let chars = chars.as_slice();
    let (blank, line) = (is_blank_line(chars), ends_line(chars));
    let (word, plain) = (ends_word(chars), may_start_plain(chars));
    Ok(format!(in alloc; "{blank} {line} {word} {plain}")?)
}

/// Whether each character is a blank.
pub(crate) fn blank(alloc: Global, text: &str) -> Result<String, CaseFault> {
    Ok(format!(in alloc; "{}", text.chars().all(|c| is_blank(c)))?)
}
