//! The parts of a source as slices of it: its lines, and the tokens of an expression.
#![tactic(auto)]

mod laws;
mod lexer;
mod line;
mod piece;
mod token;
mod walk;

pub use laws::{lexer_is_them, tokens_are_one};
pub use lexer::tokens;
pub use line::{Line, Lines};
pub use token::{LexFault, Token, TokenKind, Tokens};
pub use walk::lines;
