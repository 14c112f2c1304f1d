// The parser: each function reads one level of the grammar from the first symbols, and tells what is left.
ghost use Rattle.std.specs.Prelude.{◌≡◌, false, string_bytes, option_map, MatchResult, codes, ◌++◌, Some};
ghost use Rattle.wf_ast.specs.View.{expr_view, exprs_view};
ghost use Rattle.wf_expr.specs.Grammar.{atom_expr};
ghost use Rattle.wf_expr.specs.Kinds.{syms_of};
ghost use Rattle.wf_expr.specs.Machine.{head, is_minus, atom_of, want_or, want_and, want_not, want_sum, want_term, want_unary};
ghost use Rattle.wf_expr.specs.Parts.{Fails, OrRead, AndRead, NotRead, want_cmp, CmpRead, SumRead, TermRead, UnaryRead, AccessRead, AtomRead, want_group, GroupRead, want_index, IndexRead, want_key, KeyRead, want_call, ArgsRead};

use crate::kind::Symbol;
use crate::leaves::{add, boxed, call, copied, first_name, leaf, longer, no_args};
use crate::stop::Stop;
use crate::symbol::{
    begins_and, begins_comma, begins_left_bracket, begins_left_paren, begins_minus, begins_not,
    begins_or, begins_point, begins_right_bracket, begins_right_paren, name, product, relation,
    sign, tail,
};
use std::alloc::Global;
use wf_ast::{Expr, Exprs};
use wf_value::Text;

/// Reads an expression: parts with `or` between them, or one alone. It gives what stands behind it too.
#[cycle(parse)]
pub(crate) fn parse_or<'a>(
    alloc: Global,
    symbols: &'a [Symbol],
) -> Result<(Expr, &'a [Symbol]), Stop>
    ensures { MatchResult result (λ r. OrRead (syms_of symbols.now) (expr_view r.0)
        (syms_of r.1.now)) (λ stop. Fails want_or (syms_of symbols.now) stop) }
{
    let (mut left, mut rest) = parse_and(alloc, symbols)?;
    'more: while begins_or(rest) {
        let (right, after) = parse_and(alloc, tail(rest))?;
        left = Expr::Or(boxed(alloc, left)?, boxed(alloc, right)?);
        rest = after;
    }
    Ok((left, rest))
}

#[cycle(parse)]
fn parse_and<'a>(alloc: Global, symbols: &'a [Symbol]) -> Result<(Expr, &'a [Symbol]), Stop>
    ensures { MatchResult result (λ r. AndRead (syms_of symbols.now) (expr_view r.0)
        (syms_of r.1.now)) (λ stop. Fails want_and (syms_of symbols.now) stop) }
{
    let (mut left, mut rest) = parse_not(alloc, symbols)?;
    'more: while begins_and(rest) {
        let (right, after) = parse_not(alloc, tail(rest))?;
        left = Expr::And(boxed(alloc, left)?, boxed(alloc, right)?);
        rest = after;
    }
    Ok((left, rest))
}

#[cycle(parse)]
fn parse_not<'a>(alloc: Global, symbols: &'a [Symbol]) -> Result<(Expr, &'a [Symbol]), Stop>
    ensures { MatchResult result (λ r. NotRead (syms_of symbols.now) (expr_view r.0)
        (syms_of r.1.now)) (λ stop. Fails want_not (syms_of symbols.now) stop) }
{
    if begins_not(symbols) {
        let (operand, rest) = parse_not(alloc, tail(symbols))?;
        return Ok((Expr::Not(boxed(alloc, operand)?), rest));
    }
    parse_cmp(alloc, symbols)
}

#[cycle(parse)]
fn parse_cmp<'a>(alloc: Global, symbols: &'a [Symbol]) -> Result<(Expr, &'a [Symbol]), Stop>
    ensures { MatchResult result (λ r. CmpRead (syms_of symbols.now) (expr_view r.0)
        (syms_of r.1.now)) (λ stop. Fails want_cmp (syms_of symbols.now) stop) }
{
    let (left, rest) = parse_sum(alloc, symbols)?;
    match relation(rest) {
        Some(op) => {
            let (right, after) = parse_sum(alloc, tail(rest))?;
            Ok((
                Expr::Bin(op, boxed(alloc, left)?, boxed(alloc, right)?),
                after,
            ))
        }
        None => Ok((left, rest)),
    }
}

#[cycle(parse)]
fn parse_sum<'a>(alloc: Global, symbols: &'a [Symbol]) -> Result<(Expr, &'a [Symbol]), Stop>
    ensures { MatchResult result (λ r. SumRead (syms_of symbols.now) (expr_view r.0)
        (syms_of r.1.now)) (λ stop. Fails want_sum (syms_of symbols.now) stop) }
{
    let (mut left, mut rest) = parse_term(alloc, symbols)?;
    'more: while let Some(op) = sign(rest) {
        let (right, after) = parse_term(alloc, tail(rest))?;
        left = Expr::Bin(op, boxed(alloc, left)?, boxed(alloc, right)?);
        rest = after;
    }
    Ok((left, rest))
}

#[cycle(parse)]
fn parse_term<'a>(alloc: Global, symbols: &'a [Symbol]) -> Result<(Expr, &'a [Symbol]), Stop>
    ensures { MatchResult result (λ r. TermRead (syms_of symbols.now) (expr_view r.0)
        (syms_of r.1.now)) (λ stop. Fails want_term (syms_of symbols.now) stop) }
{
    let (mut left, mut rest) = parse_unary(alloc, symbols)?;
    'more: while let Some(op) = product(rest) {
        let (right, after) = parse_unary(alloc, tail(rest))?;
        left = Expr::Bin(op, boxed(alloc, left)?, boxed(alloc, right)?);
        rest = after;
    }
    Ok((left, rest))
}

#[cycle(parse)]
fn parse_unary<'a>(alloc: Global, symbols: &'a [Symbol]) -> Result<(Expr, &'a [Symbol]), Stop>
    ensures { MatchResult result (λ r. UnaryRead (syms_of symbols.now) (expr_view r.0)
        (syms_of r.1.now)) (λ stop. Fails want_unary (syms_of symbols.now) stop) }
{
    if begins_minus(symbols) {
        let (operand, rest) = parse_unary(alloc, tail(symbols))?;
        return Ok((Expr::Neg(boxed(alloc, operand)?), rest));
    }
    parse_access(alloc, symbols)
}

#[cycle(parse)]
fn parse_access<'a>(alloc: Global, symbols: &'a [Symbol]) -> Result<(Expr, &'a [Symbol]), Stop>
    requires { is_minus (head (syms_of symbols.now)) ≡ false }
    ensures { MatchResult result (λ r. AccessRead (syms_of symbols.now) (expr_view r.0)
        (syms_of r.1.now)) (λ stop. Fails want_unary (syms_of symbols.now) stop) }
{
    let (mut base, mut rest) = parse_atom(alloc, symbols)?;
    let mut chain = first_name(alloc, symbols)?;
    'more: loop {
        if begins_point(rest) {
            let (key, after) = parse_key(tail(rest))?;
            chain = longer(chain, key)?;
            base = Expr::Key(boxed(alloc, base)?, copied(key)?);
            rest = after;
        } else if begins_left_bracket(rest) {
            let (index, after) = parse_index(alloc, tail(rest))?;
            chain = None;
            base = Expr::Index(boxed(alloc, base)?, boxed(alloc, index)?);
            rest = after;
        } else if begins_left_paren(rest) {
            let Some(name) = chain else {
                return Ok((base, rest));
            };
            let (args, after) = parse_args(alloc, tail(rest))?;
            chain = None;
            base = call(&name, args);
            rest = after;
        } else {
            return Ok((base, rest));
        }
    }
}

#[cycle(parse)]
fn parse_atom<'a>(alloc: Global, symbols: &'a [Symbol]) -> Result<(Expr, &'a [Symbol]), Stop>
    requires { is_minus (head (syms_of symbols.now)) ≡ false }
    ensures { MatchResult result (λ r. AtomRead (syms_of symbols.now) (expr_view r.0)
        (syms_of r.1.now)) (λ stop. Fails want_unary (syms_of symbols.now) stop) }
{
    if begins_left_paren(symbols) {
        return parse_group(alloc, tail(symbols));
    }
    match leaf(alloc, symbols)? {
        Some(value) => Ok((value, tail(symbols))),
        None => Err(Stop::Syntax(symbols.len())),
    }
}

/// Behind a `(`.
#[cycle(parse)]
fn parse_group<'a>(alloc: Global, symbols: &'a [Symbol]) -> Result<(Expr, &'a [Symbol]), Stop>
    ensures { MatchResult result (λ r. GroupRead (syms_of symbols.now) (expr_view r.0)
        (syms_of r.1.now)) (λ stop. Fails want_group (syms_of symbols.now) stop) }
{
    let (inner, rest) = parse_or(alloc, symbols)?;
    if begins_right_paren(rest) {
        Ok((inner, tail(rest)))
    } else {
        Err(Stop::Syntax(rest.len()))
    }
}

/// Behind a `[`.
#[cycle(parse)]
fn parse_index<'a>(alloc: Global, symbols: &'a [Symbol]) -> Result<(Expr, &'a [Symbol]), Stop>
    ensures { MatchResult result (λ r. IndexRead (syms_of symbols.now) (expr_view r.0)
        (syms_of r.1.now)) (λ stop. Fails want_index (syms_of symbols.now) stop) }
{
    let (index, rest) = parse_or(alloc, symbols)?;
    if begins_right_bracket(rest) {
        Ok((index, tail(rest)))
    } else {
        Err(Stop::Syntax(rest.len()))
    }
}

/// Behind the `(` of a call.
#[cycle(parse)]
fn parse_args<'a>(alloc: Global, symbols: &'a [Symbol]) -> Result<(Exprs, &'a [Symbol]), Stop>
    ensures { MatchResult result (λ r. ArgsRead (syms_of symbols.now) (exprs_view r.0)
        (syms_of r.1.now)) (λ stop. Fails want_call (syms_of symbols.now) stop) }
{
    let mut args = no_args(alloc)?;
    if begins_right_paren(symbols) {
        return Ok((args, tail(symbols)));
    }
    let (first, mut rest) = parse_or(alloc, symbols)?;
    add(&mut args, first)?;
    'more: while begins_comma(rest) {
        let (next, after) = parse_or(alloc, tail(rest))?;
        add(&mut args, next)?;
        rest = after;
    }
    if begins_right_paren(rest) {
        Ok((args, tail(rest)))
    } else {
        Err(Stop::Syntax(rest.len()))
    }
}

/// Behind a point.
fn parse_key(symbols: &[Symbol]) -> Result<(&Text, &[Symbol]), Stop>
    ensures { MatchResult result (λ r. KeyRead (syms_of symbols.now) r.0.now (syms_of r.1.now))
        (λ stop. Fails want_key (syms_of symbols.now) stop) }
{
    match name(symbols) {
        Some(key) => Ok((key, tail(symbols))),
        None => Err(Stop::Syntax(symbols.len())),
    }
}
