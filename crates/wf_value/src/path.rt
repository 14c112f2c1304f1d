// Places in a document.
ghost use Rattle.std.specs.Prelude.{◌≡◌, ◌∷◌, [], ◌++◌, IfOk, is_ok, string_bytes, if◌then◌else◌};
ghost use Rattle.wf_value.specs.Paths.{path_text, first_text, part_text, index_text};

use crate::{OutOfMemory, Text};
use std::alloc::{AllocError, Global};
use std::marker::Model;

/// One step of a path: into a map by a key, or into a list by an index.
#[derive(Drop)]
pub enum PathPart {
    /// The key of a pair.
    Key(Text),
    /// The index of an item, from 0 on.
    Index(u64),
}

/// A place in a document, as the steps that lead to it from the whole document.
#[derive(Drop)]
pub struct Path {
    parts: Vec<PathPart>,
}

impl Model for Path {
    ghost use Rattle.std.specs.Prelude.{List as Seq};
    ghost use Rattle.wf_value.specs.declared.path.PathPart.{PathPart};

    ghost Value = { Seq PathPart };

    ghost view = { λ a. a.parts.items };
}

impl Path {
    /// The empty path, which is the whole document.
    pub fn new(alloc: Global) -> Result<Path, OutOfMemory>
        ensures { IfOk result (λ p. p ≡ []) }
    {
        Ok(Path {
            parts: Vec::new(alloc),
        })
    }

    /// Adds a step at the end. Without memory the path stays, and the step is dropped.
    pub fn push(&mut self, part: PathPart) -> Result<(), OutOfMemory>
        ensures { self.new ≡ (if is_ok result then self.old ++ part ∷ [] else self.old) }
    {
        self.parts.push(part)?;
        Ok(())
    }

    /// The steps, the outermost first.
    pub fn items(&self) -> &[PathPart]
        ensures { result.now ≡ self.now }
    {
        self.parts.as_slice()
    }

    /// The path as messages show it: keys are joined by `.`, an index stands in brackets right
    /// behind what comes before it, and the empty path is `source`.
    pub fn print(&self, alloc: Global) -> Result<Text, OutOfMemory>
        ensures { IfOk result (λ t. t ≡ path_text self.now) }
    {
        let text = printed(alloc, self.parts.as_slice())?;
        Text::new(alloc, text.as_str())
    }
}

fn printed(alloc: Global, parts: &[PathPart]) -> Result<String, AllocError>
    ensures { IfOk result (λ t. string_bytes t ≡ path_text parts.now) }
{
    let Some((first, rest)) = parts.split_first() else {
        return String::from_str(alloc, "source");
    };
    let mut text = String::new(alloc);
    push_first(alloc, &mut text, first)?;
    for part in rest {
        push_part(alloc, &mut text, part)?;
    }
    Ok(text)
}

fn push_first(alloc: Global, text: &mut String, part: &PathPart) -> Result<(), AllocError>
    ensures { IfOk result (λ _. string_bytes text.new
        ≡ string_bytes text.old ++ first_text part.now) }
{
    match part {
        PathPart::Key(key) => text.push_str(key.as_str()),
        PathPart::Index(index) => push_index(alloc, text, *index),
    }
}

/// Writes what follows another part.
fn push_part(alloc: Global, text: &mut String, part: &PathPart) -> Result<(), AllocError>
    ensures { IfOk result (λ _. string_bytes text.new
        ≡ string_bytes text.old ++ part_text part.now) }
{
    match part {
        PathPart::Key(key) => {
            text.push_str(".")?;
            text.push_str(key.as_str())
        }
        PathPart::Index(index) => push_index(alloc, text, *index),
    }
}

fn push_index(alloc: Global, text: &mut String, index: u64) -> Result<(), AllocError>
    ensures { IfOk result (λ _. string_bytes text.new ≡ string_bytes text.old ++ index_text index) }
{
    let digits = index.to_string(alloc)?;
    text.push_str("[")?;
    text.push_str(digits.as_str())?;
    text.push_str("]")
}
