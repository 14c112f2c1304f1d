// Tokens, and why a source has none.
ghost use Rattle.std.specs.Prelude.{◌≡◌, option_map, slice_get};
ghost use Rattle.wf_span.specs.Lexed.{placed_token, token_list};

/// The kind of a token.
#[derive(Debug, Clone, Copy, PartialEq, Eq)]
pub enum TokenKind {
    /// An ASCII letter or `_`, and letters, digits and `_` behind it.
    Name,
    /// Digits. A point behind them is a token of its own.
    Number,
    /// Text between double or single quotes, with its quotes and its escapes as they are written.
    Text,
    /// One of `== != <= >= // + - * / % < > . [ ] ( ) ,`.
    Mark,
}

/// A token: its kind, its text and its place in bytes.
#[derive(Debug, Clone, Copy, Drop)]
pub struct Token<'a> {
    pub kind: TokenKind,
    pub text: &'a str,
    pub at: u32,
}

/// Why a source has no tokens. The number is the place in bytes of the first fault.
#[derive(Debug, Clone, Copy, PartialEq, Eq)]
pub enum LexFault {
    /// A character other than a quote at which no token begins, or the backslash of an escape that
    /// there isn't.
    BadCharacter(u32),
    /// The quote of a text that isn't closed.
    OpenText(u32),
    /// There is no memory.
    OutOfMemory,
}

/// The tokens of a source, in order.
#[derive(Drop)]
pub struct Tokens<'a> {
    pub(crate) items: Vec<Token<'a>>,
}

impl<'a> Tokens<'a> {
    /// The token at an index, from 0 on; none past the end.
    pub fn get(&self, i: usize) -> Option<Token<'a>>
        ensures { option_map placed_token result ≡ slice_get (token_list self.now) i }
    {
        self.items.get(i).copied()
    }
}
