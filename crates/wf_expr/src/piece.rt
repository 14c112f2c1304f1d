// The pieces of a text.

/// A piece of a text of a source.
#[derive(Drop)]
pub(crate) enum Piece<'a> {
    // what stands as it is
    Said(&'a str),
    // an expression
    Hole(&'a str),
    // what stands behind a `${` that isn't closed
    Unclosed(&'a str),
}
