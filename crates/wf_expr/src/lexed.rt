// The symbols of tokens.
ghost use Rattle.std.specs.Prelude.{◌≡◌, ◌<◌, ◌∷◌, ◌++◌, [], true, length, map, slice_get, option_map, IfOk};
ghost use Rattle.std.specs.List.{AllByRecursion};
ghost use Rattle.wf_expr.specs.Kinds.{placed_of, sym_of};
ghost use Rattle.wf_expr.specs.Symbols.{placed_symbols, symbol, is_digits as is_whole, is_glued as glued_tokens};
ghost use Rattle.wf_expr.specs.Taking.{IsToken, IsNext, glued_at};
ghost use Rattle.wf_span.specs.Lexed.{placed_token, token_list};
ghost use Rattle.wf_span.specs.Tokens.{is_token};

use crate::kind::{Kind, Symbol};
use crate::said::said;
use crate::words::{digits, mark, word};
use std::alloc::Global;
use wf_span::{Token, TokenKind, Tokens};
use wf_value::OutOfMemory;

/// The symbols of tokens.
pub(crate) fn symbols_of(alloc: Global, tokens: &Tokens<'_>) -> Result<Vec<Symbol>, OutOfMemory>
    requires range { length (token_list tokens.now) < 4294967296 }
    requires tokens { AllByRecursion IsToken (token_list tokens.now) }
    ensures { IfOk result (λ r. map placed_of r.items ≡ placed_symbols (token_list tokens.now)) }
{
    let mut symbols = Vec::new(alloc);
    let mut i = 0;
    'next: loop {
        match next_symbol(alloc, tokens, i)? {
            None => return Ok(symbols),
            Some((symbol, behind)) => {
                add(&mut symbols, symbol)?;
                i = behind;
            }
        }
    }
}

fn add(symbols: &mut Vec<Symbol>, symbol: Symbol) -> Result<(), OutOfMemory>
    ensures { IfOk result (λ _. symbols.new.items ≡ symbols.old.items ++ symbol ∷ []) }
{
    symbols.push(symbol)?;
    Ok(())
}

/// The symbol of the token at an index, and the index of the token behind it.
fn next_symbol(
    alloc: Global,
    tokens: &Tokens<'_>,
    i: usize,
) -> Result<Option<(Symbol, usize)>, OutOfMemory>
    requires range { length (token_list tokens.now) < 4294967296 }
    requires tokens { AllByRecursion IsToken (token_list tokens.now) }
    ensures { IfOk result (λ next. IsNext (token_list tokens.now) i next) }
{
    match tokens.get(i) {
        None => Ok(None),
        Some(token) => {
            let at = token.at;
            if glued(Some(token), tokens.get(i + 1), tokens.get(i + 2)) {
                let kind = Kind::Decimal;
                return Ok(Some((Symbol { kind, at }, i + 3)));
            }
            let kind = kind(alloc, token)?;
            Ok(Some((Symbol { kind, at }, i + 1)))
        }
    }
}

/// Whether the tokens are digits, a point and digits with nothing between them.
fn glued(whole: Option<Token<'_>>, point: Option<Token<'_>>, rest: Option<Token<'_>>) -> bool
    ensures { result ≡ glued_at (option_map placed_token whole.entry)
        (option_map placed_token point.entry) (option_map placed_token rest.entry) }
{
    match (whole, point, rest) {
        (Some(whole), Some(point), Some(rest)) => is_glued(whole, point, rest),
        _ => false,
    }
}

fn is_glued(whole: Token<'_>, point: Token<'_>, rest: Token<'_>) -> bool
    ensures { result ≡ glued_tokens (placed_token whole.entry) (placed_token point.entry)
        (placed_token rest.entry) }
{
    is_digits(whole.kind)
        && point.text == "."
        && is_digits(rest.kind)
        && whole.at as usize + whole.text.len() == point.at as usize
        && point.at as usize + 1 == rest.at as usize
}

fn is_digits(kind: TokenKind) -> bool
    ensures { result ≡ is_whole kind }
{
    match kind {
        TokenKind::Number => true,
        _ => false,
    }
}

/// What a token is to the grammar.
fn kind(alloc: Global, token: Token<'_>) -> Result<Kind, OutOfMemory>
    requires { is_token token.kind token.text.now ≡ true }
    ensures { IfOk result (λ k. sym_of k ≡ symbol token.entry.kind token.entry.text.now) }
{
    match token.kind {
        TokenKind::Name => word(alloc, token.text),
        TokenKind::Number => Ok(digits(token.text)),
        TokenKind::Text => Ok(Kind::Quoted(said(alloc, token.text)?)),
        TokenKind::Mark => Ok(mark(token.text)),
    }
}
