// A text read as an expression.
ghost use Rattle.std.specs.Prelude.{◌≡◌, ◌<◌, length, map, chars, nat_lt, IfOk, IfErr, MatchResult};
ghost use Rattle.wf_ast.specs.View.{expr_view};
ghost use Rattle.wf_expr.specs.Begins.{IsExpression};
ghost use Rattle.wf_expr.specs.Judging.{HasNoSymbols, HasSymbols, Spells, StopsWith, SymbolsSpell, SymbolsRefused};
ghost use Rattle.wf_expr.specs.Kinds.{placed_of, syms_of};
ghost use Rattle.wf_expr.specs.Parsing.{IsFault, Parses, place_of};

use crate::fault::ExprFault;
use crate::kind::Symbol;
use crate::lexed::symbols_of;
use crate::parser::parse_or;
use crate::scan::first_fault;
use crate::stop::Stop;
use std::alloc::Global;
use wf_ast::Expr;
use wf_span::{LexFault, tokens};

/// How many characters an expression may have.
const MOST_CHARACTERS: usize = 400;

/// The expression that a text is. It is an error when the text has more than 400 characters, when it has no tokens,
/// and when its symbols have a fault: a decimal, a call of no function or with too few or too many arguments, or a
/// first symbol with which they begin no expression. It is an error too when memory is missing.
pub fn parse(alloc: Global, src: &str) -> Result<Expr, ExprFault>
    ensures expression { IfOk result (λ e. Parses src.now (expr_view e)) }
    ensures fault { IfErr result (IsFault src.now) }
{
    let symbols = text_symbols(alloc, src)?;
    of_symbols(alloc, src, &symbols)
}

/// The symbols of a text.
pub(crate) fn text_symbols(alloc: Global, src: &str) -> Result<Vec<Symbol>, ExprFault>
    ensures { MatchResult result (λ symbols. HasSymbols src.now (map placed_of symbols.items))
        (λ fault. HasNoSymbols src.now fault) }
{
    if is_long(src) {
        return Err(ExprFault::TooLong);
    }
    match tokens(alloc, src) {
        Ok(tokens) => Ok(symbols_of(alloc, &tokens)?),
        Err(LexFault::BadCharacter(at)) => Err(ExprFault::Lex(LexFault::BadCharacter(at))),
        Err(LexFault::OpenText(at)) => Err(ExprFault::Lex(LexFault::OpenText(at))),
        Err(LexFault::OutOfMemory) => Err(ExprFault::OutOfMemory),
    }
}

fn is_long(src: &str) -> bool
    ensures { result ≡ nat_lt 400 (length (chars src.now)) }
{
    src.chars().count() > MOST_CHARACTERS
}

/// The expression that the symbols of a text are.
fn of_symbols(alloc: Global, src: &str, symbols: &[Symbol]) -> Result<Expr, ExprFault>
    requires { length src.now < 4294967296 }
    ensures { MatchResult result (λ e. SymbolsSpell (map placed_of symbols.now) (expr_view e))
        (λ fault. SymbolsRefused IsExpression src.now (map placed_of symbols.now) fault) }
{
    match whole(alloc, symbols) {
        Ok(expression) => match first_fault(alloc, symbols) {
            Ok(None) => Ok(expression),
            Ok(Some(fault)) => Err(fault),
            Err(_) => Err(ExprFault::OutOfMemory),
        },
        Err(Stop::Syntax(left)) => {
            let (before, rest) = symbols.split_at(symbols.len() - left);
            match first_fault(alloc, before) {
                Ok(None) => Err(ExprFault::Syntax(place(src, rest))),
                Ok(Some(fault)) => Err(fault),
                Err(_) => Err(ExprFault::OutOfMemory),
            }
        }
        Err(Stop::OutOfMemory) => Err(ExprFault::OutOfMemory),
    }
}

/// The expression that symbols are by the grammar alone.
fn whole(alloc: Global, symbols: &[Symbol]) -> Result<Expr, Stop>
    ensures { MatchResult result (λ e. Spells (syms_of symbols.now) (expr_view e))
        (λ stop. StopsWith IsExpression (syms_of symbols.now) stop) }
{
    let (expression, rest) = parse_or(alloc, symbols)?;
    if rest.is_empty() {
        Ok(expression)
    } else {
        Err(Stop::Syntax(rest.len()))
    }
}

/// The place of the first symbol, or the text's end.
pub(crate) fn place(src: &str, symbols: &[Symbol]) -> u32
    requires { length src.now < 4294967296 }
    ensures { result ≡ place_of src.now (map placed_of symbols.now) }
{
    match symbols {
        [first, ..] => first.at,
        [] => src.len() as u32,
    }
}
