// Trees of scalars, and trees beside what was noted.
ghost use Rattle.std.specs.Prelude.{◌≡◌, IfOk, Result, Ok};
ghost use Rattle.std.specs.Str.{encode_utf8_all};
ghost use Rattle.wf_tree.specs.Trees as trees;
ghost use Rattle.wf_tree.specs.Plain.{plain_tree};
ghost use Rattle.wf_yaml_line.specs.Fault.{Fault, noted, both, kept, refuse};
ghost use Rattle.wf_yaml_line.specs.Scalars as scalars;
ghost use Rattle.wf_yaml_line.specs.Views.{ReadsAs};

use crate::fault::{Fault, Kind, YamlFault, least};
use crate::scalars::{Plain, is_delay, plain_kind};
use std::alloc::Global;
use wf_tree::Tree;
use wf_value::{OutOfMemory, Text};

/// The text of these characters.
pub fn text_of(alloc: Global, chars: &[char]) -> Result<Text, OutOfMemory>
    ensures { IfOk result (λ t. t ≡ encode_utf8_all chars.now) }
{
    let mut text = String::new(alloc);
    for c in chars {
        text.push(*c)?;
    }
    Text::new(alloc, text.as_str())
}

/// A text as a tree.
pub fn text_tree(alloc: Global, chars: &[char]) -> Result<Tree, YamlFault>
    ensures { ReadsAs plain_tree result (Ok (trees.text (encode_utf8_all chars.now))) }
{
    Ok(Tree::Text(text_of(alloc, chars)?))
}

/// No tree, but a refusal.
pub fn refused(line: u32, kind: Kind) -> Result<Tree, YamlFault>
    ensures { ReadsAs plain_tree result (refuse line kind) }
{
    Err(YamlFault::Refused(Fault { line, kind }))
}

/// A tree before which something else was noted. Of two refusals the first speaks.
pub fn noting(fault: Option<Fault>, tree: Result<Tree, YamlFault>) -> Result<Tree, YamlFault>
    ensures { (read : Result trees.Tree Fault) → ReadsAs plain_tree tree read
        → ReadsAs plain_tree result (both (λ _ t. t) (noted fault) read) }
{
    match tree {
        Ok(tree) => match fault {
            Some(fault) => Err(YamlFault::Refused(fault)),
            None => Ok(tree),
        },
        Err(YamlFault::OutOfMemory) => Err(YamlFault::OutOfMemory),
        Err(YamlFault::Refused(found)) => Err(YamlFault::Refused(least(fault, found))),
    }
}

/// A tree behind which something else was noted. Of two refusals the first speaks.
pub fn noting_after(tree: Result<Tree, YamlFault>, fault: Option<Fault>) -> Result<Tree, YamlFault>
    ensures { (read : Result trees.Tree Fault) → ReadsAs plain_tree tree read
        → ReadsAs plain_tree result (both kept read (noted fault)) }
{
    match tree {
        Ok(tree) => match fault {
            Some(fault) => Err(YamlFault::Refused(fault)),
            None => Ok(tree),
        },
        Err(YamlFault::OutOfMemory) => Err(YamlFault::OutOfMemory),
        Err(YamlFault::Refused(found)) => match fault {
            Some(fault) => Err(YamlFault::Refused(least(Some(found), fault))),
            None => Err(YamlFault::Refused(found)),
        },
    }
}

/// The tree of a plain scalar; `delay` tells that it is the value of a key that may have a decimal.
pub fn plain_scalar(alloc: Global, delay: bool, line: u32, s: &[char]) -> Result<Tree, YamlFault>
    ensures { ReadsAs plain_tree result (scalars.plain_tree delay line s.now) }
{
    match plain_kind(s) {
        Plain::Null => Ok(Tree::Null),
        Plain::Truth(truth) => Ok(Tree::Bool(truth)),
        Plain::Whole(n) => Ok(Tree::Int(n)),
        Plain::Text => text_tree(alloc, s),
        Plain::Decimal => {
            if delay && is_delay(s) {
                Ok(Tree::Decimal(text_of(alloc, s)?))
            } else {
                refused(line, Kind::Decimal)
            }
        }
    }
}
