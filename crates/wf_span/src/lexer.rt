// The tokens of an expression.
ghost use Rattle.std.specs.Prelude.{◌≡◌, ◌+◌, ◌<◌, length, drop, MatchResult};
ghost use Rattle.wf_span.specs.Tokens.{TokensFrom, IsFirstFault, FaultAt, IsLongest, is_blank};
ghost use Rattle.wf_span.specs.Scans.{count_while};
ghost use Rattle.wf_span.specs.Lexed.{token_list};

use crate::piece::{Begins, blank_length, piece};
use crate::token::{LexFault, Token, Tokens};
use std::alloc::Global;

/// The tokens of a source of fewer than 4,294,967,296 bytes: before, between and behind them stand
/// blanks alone, and each is the longest at its place. `BadCharacter` and `OpenText` tell the first
/// fault of the source, by its place.
pub fn tokens(alloc: Global, src: &str) -> Result<Tokens<'_>, LexFault>
    requires { length src.now < 4294967296 }
    ensures { MatchResult result (λ r. TokensFrom 0 src.now (token_list r))
        (λ fault. IsFirstFault src.now fault) }
{
    let mut items = Vec::new(alloc);
    let mut rest = src;
    let mut at: u32 = 0;
    'lex: loop {
        let blanks = blank_length(rest.as_bytes());
        let source = rest.split_at(blanks).1;
        at += blanks as u32;
        if source.is_empty() {
            return Ok(Tokens { items });
        }
        let (token, behind) = first_token(source, at)?;
        if items.push(token).is_err() {
            return Err(LexFault::OutOfMemory);
        }
        at += token.text.len() as u32;
        rest = behind;
    }
}

/// The token that a source, which goes on at this place with no blank, begins with, and what stands
/// behind it.
fn first_token<'a>(source: &'a str, at: u32) -> Result<(Token<'a>, &'a str), LexFault>
    requires some { 0 < length source.now }
    requires no_blank { count_while is_blank source.now ≡ 0 }
    requires range { at + length source.now < 4294967296 }
    ensures { MatchResult result (λ r. (r.0.at ≡ at)
        × IsLongest source.now r.0.kind r.0.text.now r.1.now)
        (λ fault. FaultAt at source.now fault) }
{
    match piece(source.as_bytes()) {
        Begins::Token(kind, length) => {
            let (text, behind) = source.split_at(length);
            Ok((Token { kind, text, at }, behind))
        }
        Begins::Nothing => Err(LexFault::BadCharacter(at)),
        Begins::Bad(place) => Err(LexFault::BadCharacter(at + place as u32)),
        Begins::Open => Err(LexFault::OpenText(at)),
    }
}
