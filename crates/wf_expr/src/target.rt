// A text read as a target, the key of an assignment.
ghost use Rattle.std.specs.Prelude.{◌≡◌, ◌<◌, false, length, map, IfOk, IfErr, MatchResult};
ghost use Rattle.wf_ast.specs.View.{expr_view, target_view};
ghost use Rattle.wf_expr.specs.Judging.{StopsWith, SymbolsRefused};
ghost use Rattle.wf_expr.specs.Kinds.{placed_of, syms_of};
ghost use Rattle.wf_expr.specs.Machine.{head, is_end};
ghost use Rattle.wf_expr.specs.Parts.{Fails};
ghost use Rattle.wf_expr.specs.Places.{want_place, IndexRead, PlaceRead, PlaceFails, SpellsTarget, SymbolsTarget};
ghost use Rattle.wf_expr.specs.Targets.{IsTarget, IsTargetFault, IsTargetText};

use crate::fault::ExprFault;
use crate::kind::Symbol;
use crate::leaves::{add, copied, no_args, written};
use crate::parser::parse_or;
use crate::scan::first_fault;
use crate::source::{place, text_symbols};
use crate::stop::Stop;
use crate::symbol::{begins_left_bracket, begins_point, begins_right_bracket, name, tail};
use std::alloc::Global;
use wf_ast::{Expr, Target};
use wf_value::Value;

/// The target that a text is: a variable's name, and behind it any number of `.name` and `[expression]`. It is an error
/// when the text has more than 400 characters, when it has no tokens, and when its symbols have a fault: a decimal, a
/// call of no function or with too few or too many arguments, or a first symbol with which they begin no target. It is
/// an error too when memory is missing.
pub fn parse_target(alloc: Global, src: &str) -> Result<Target, ExprFault>
    ensures target { IfOk result (λ t. IsTarget src.now (target_view t)) }
    ensures fault { IfErr result (IsTargetFault src.now) }
{
    let symbols = text_symbols(alloc, src)?;
    of_symbols(alloc, src, &symbols)
}

/// The target that the symbols of a text are.
fn of_symbols(alloc: Global, src: &str, symbols: &[Symbol]) -> Result<Target, ExprFault>
    requires { length src.now < 4294967296 }
    ensures { MatchResult result (λ t. SymbolsTarget src.now (map placed_of symbols.now)
        (target_view t)) (λ fault. SymbolsRefused IsTargetText src.now (map placed_of symbols.now)
        fault) }
{
    match whole(alloc, src, symbols) {
        Ok(target) => match first_fault(alloc, symbols) {
            Ok(None) => Ok(target),
            Ok(Some(fault)) => Err(fault),
            Err(_) => Err(ExprFault::OutOfMemory),
        },
        Err(Stop::Syntax(left)) => {
            let (before, rest) = symbols.split_at(symbols.len() - left);
            match first_fault(alloc, before) {
                Ok(None) => Err(ExprFault::Syntax(place(src, rest))),
                Ok(Some(fault)) => Err(fault),
                Err(_) => Err(ExprFault::OutOfMemory),
            }
        }
        Err(Stop::OutOfMemory) => Err(ExprFault::OutOfMemory),
    }
}

/// The target that symbols are by the grammar alone.
fn whole(alloc: Global, src: &str, symbols: &[Symbol]) -> Result<Target, Stop>
    ensures { MatchResult result (λ t. SpellsTarget src.now (syms_of symbols.now) (target_view t))
        (λ stop. StopsWith IsTargetText (syms_of symbols.now) stop) }
{
    let Some(variable) = name(symbols) else {
        return Err(Stop::Syntax(symbols.len()));
    };
    let mut places = no_args(alloc)?;
    let mut rest = tail(symbols);
    'more: while !rest.is_empty() {
        let (next, after) = one_place(alloc, rest)?;
        add(&mut places, next)?;
        rest = after;
    }
    Ok(Target {
        name: copied(variable)?,
        places,
        text: written(alloc, src)?,
    })
}

/// A point and a name, or an index in brackets.
fn one_place<'a>(alloc: Global, symbols: &'a [Symbol]) -> Result<(Expr, &'a [Symbol]), Stop>
    requires { is_end (head (syms_of symbols.now)) ≡ false }
    ensures { MatchResult result (λ r. PlaceRead (syms_of symbols.now) (expr_view r.0)
        (syms_of r.1.now)) (λ stop. PlaceFails (syms_of symbols.now) stop) }
{
    if begins_point(symbols) {
        let after = tail(symbols);
        match name(after) {
            Some(key) => Ok((Expr::Lit(Value::Text(copied(key)?)), tail(after))),
            None => Err(Stop::Syntax(after.len())),
        }
    } else if begins_left_bracket(symbols) {
        index(alloc, tail(symbols))
    } else {
        Err(Stop::Syntax(symbols.len()))
    }
}

/// Behind a `[`.
fn index<'a>(alloc: Global, symbols: &'a [Symbol]) -> Result<(Expr, &'a [Symbol]), Stop>
    ensures { MatchResult result (λ r. IndexRead (syms_of symbols.now) (expr_view r.0)
        (syms_of r.1.now)) (λ stop. Fails want_place (syms_of symbols.now) stop) }
{
    let (index, rest) = parse_or(alloc, symbols)?;
    if begins_right_bracket(rest) {
        Ok((index, tail(rest)))
    } else {
        Err(Stop::Syntax(rest.len()))
    }
}
