// Where in a source something is wrong.
ghost use Rattle.std.specs.Prelude.{◌≡◌, ◌++◌, IfOk, codes, decimal};
ghost use Rattle.wf_status.specs.Refusals.{place_text};

use std::alloc::Global;
use wf_value::{OutOfMemory, Path, Text};

/// A place in a source.
#[derive(Drop)]
pub enum Place {
    /// The source as a whole.
    Source,
    /// The line with this number, from 1 on.
    Line(u32),
    /// The part to which this path leads.
    Path(Path),
    /// The byte at this offset, from 0 on, of the expression to which this path leads.
    Within(Path, u32),
}

impl Place {
    /// The place as a refusal prints it: `source`, `line N`, the path, or the path, `:` and the
    /// offset in decimal.
    pub fn print(&self, alloc: Global) -> Result<Text, OutOfMemory>
        ensures { IfOk result (λ t. t ≡ place_text self.now) }
    {
        match self {
            Place::Source => Text::new(alloc, "source"),
            Place::Line(line) => line_text(alloc, *line),
            Place::Path(path) => path.print(alloc),
            Place::Within(path, offset) => {
                let path = path.print(alloc)?;
                offset_text(alloc, path.as_str(), *offset)
            }
        }
    }
}

fn line_text(alloc: Global, line: u32) -> Result<Text, OutOfMemory>
    ensures { IfOk result (λ t. t ≡ codes "line " ++ decimal line) }
{
    let text = format!(in alloc; "line {line}")?;
    Text::new(alloc, text.as_str())
}

fn offset_text(alloc: Global, path: &str, offset: u32) -> Result<Text, OutOfMemory>
    ensures { IfOk result (λ t. t ≡ path.now ++ codes ":" ++ decimal offset) }
{
    let text = format!(in alloc; "{path}:{offset}")?;
    Text::new(alloc, text.as_str())
}
