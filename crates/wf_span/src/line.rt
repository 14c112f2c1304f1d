// The types of a walk over the lines of a source.
ghost use Rattle.std.specs.Prelude.{◌+◌, ◌<◌, ◌≤◌, ◌^◌, length};

/// A line of a source: its number from 1, the place of its body in bytes, how many spaces it begins
/// with, and the rest of it up to its line end.
#[derive(Debug, Clone, Copy, Drop)]
pub struct Line<'a> {
    pub number: u32,
    pub at: u32,
    pub indent: u32,
    pub body: &'a str,
}

/// The lines that are left of a source, in order.
#[derive(Drop)]
pub struct Lines<'a> {
    pub(crate) rest: &'a str,
    pub(crate) count: u32,
    pub(crate) at: u32,
    ghost in_range: { at + length rest.now < 2 ^ 32 },
    ghost few: { count ≤ at },
}
