// The lines of a source, and where a node begins.
ghost use Rattle.std.specs.Prelude.{◌+◌, ◌<◌, vec_len, length};

/// A line: its number, how many spaces it begins with, and the rest of it.
#[derive(Drop)]
pub(crate) struct Row {
    pub(crate) number: u32,
    pub(crate) indent: usize,
    pub(crate) text: Vec<char>,
    ghost small: { indent + vec_len text < 4294967296 },
}

/// Where a node or an entry begins: the line's number, the column of its content, and the content.
#[derive(Clone, Copy, Drop)]
pub(crate) struct Head<'a> {
    pub(crate) number: u32,
    pub(crate) column: usize,
    pub(crate) text: &'a [char],
    ghost small: { column + length text.now < 4294967296 },
}
