// What an answer is.
use crate::Head;

/// The answer to a call. A program sees `Broken` as a ConnectionError, and `TooLong` as a
/// ResourceLimitError.
#[derive(Clone, Copy)]
pub enum Answer<'a> {
    /// The head and the body, lent from the reading. A body in chunks is joined.
    Response(&'a Head, &'a [u8]),
    /// No answer can come of the bytes, or the connection ended or broke before it was whole.
    Broken,
    /// The body is over 2,097,152 bytes long.
    TooLong,
}
