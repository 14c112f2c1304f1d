// The faults that symbols have besides the grammar.
ghost use Rattle.std.specs.Prelude.{◌≡◌, false, drop, map, option_map, IfOk};
ghost use Rattle.wf_ast.specs.Func.{func_named};
ghost use Rattle.wf_expr.specs.Calls.{faults_in, name_faults, call_faults, arguments as arguments_in, role as role_of};
ghost use Rattle.wf_expr.specs.Kinds.{placed_of, sym_of, syms_of};
ghost use Rattle.wf_expr.specs.Scanning.{first_of, faults_here, key_behind};

use crate::fault::ExprFault;
use crate::functions::function;
use crate::kind::{Kind, Symbol};
use crate::role::Role;
use crate::symbol::{begins_left_paren, begins_point, begins_right_paren, tail};
use std::alloc::Global;
use wf_value::{OutOfMemory, Text};

/// The first fault of symbols that begin an expression.
pub(crate) fn first_fault(
    alloc: Global,
    symbols: &[Symbol],
) -> Result<Option<ExprFault>, OutOfMemory>
    ensures { IfOk result (λ f. f ≡ first_of (faults_in false (map placed_of symbols.now))) }
{
    let mut rest = symbols;
    let mut after_point = false;
    'scan: while !rest.is_empty() {
        let fault = own_fault(alloc, after_point, rest)?;
        if fault.is_some() {
            return Ok(fault);
        }
        after_point = begins_point(rest);
        rest = behind(rest);
    }
    Ok(None)
}

fn behind(symbols: &[Symbol]) -> &[Symbol]
    ensures { map placed_of result.now ≡ drop 1 (map placed_of symbols.now) }
{
    match symbols {
        [_, after @ ..] => after,
        [] => symbols,
    }
}

/// The fault of the first symbol.
fn own_fault(
    alloc: Global,
    after_point: bool,
    symbols: &[Symbol],
) -> Result<Option<ExprFault>, OutOfMemory>
    ensures { IfOk result (λ f. f ≡ first_of
        (faults_here after_point (map placed_of symbols.now))) }
{
    match symbols {
        [
            Symbol {
                kind: Kind::Decimal,
                at,
            },
            ..
        ] => Ok(Some(ExprFault::Decimal(*at))),
        [
            Symbol {
                kind: Kind::Name(name),
                at,
            },
            rest @ ..,
        ] => {
            if after_point {
                Ok(None)
            } else {
                name_fault(alloc, *at, name, rest)
            }
        }
        _ => Ok(None),
    }
}

/// The fault of a name at a place, with what stands behind it.
fn name_fault(
    alloc: Global,
    at: u32,
    name: &Text,
    symbols: &[Symbol],
) -> Result<Option<ExprFault>, OutOfMemory>
    ensures { IfOk result (λ f. f ≡ first_of (name_faults at name.now (syms_of symbols.now))) }
{
    let mut joined = String::from_str(alloc, name.as_str())?;
    let mut rest = symbols;
    'join: while let Some(key) = key(rest) {
        joined.push_str(".")?;
        joined.push_str(key.as_str())?;
        rest = tail(tail(rest));
    }
    if begins_left_paren(rest) {
        Ok(call_fault(at, &joined, tail(rest)))
    } else {
        Ok(None)
    }
}

/// The name behind the point that stands first.
fn key(symbols: &[Symbol]) -> Option<&Text>
    ensures { option_map (λ x. x.now) result ≡ key_behind (syms_of symbols.now) }
{
    match symbols {
        [
            Symbol {
                kind: Kind::Point,
                ..
            },
            Symbol {
                kind: Kind::Name(name),
                ..
            },
            ..
        ] => Some(name),
        _ => None,
    }
}

/// The fault of a call at a place, with what stands behind its `(`.
#[tactic(auto, using(crate::proofs::Scans::same_fault, std::proofs::lemmas::Bool::Decides::nat_tests))]
fn call_fault(at: u32, name: &str, symbols: &[Symbol]) -> Option<ExprFault>
    ensures { result ≡ first_of (call_faults at (func_named name.now)
        (arguments_in (syms_of symbols.now))) }
{
    match function(name) {
        None => Some(ExprFault::UnknownFunction(at)),
        Some(callee) => match arguments(symbols) {
            None => None,
            Some(count) => {
                if callee.least <= count && count <= callee.most {
                    None
                } else {
                    Some(ExprFault::Arity(at))
                }
            }
        },
    }
}

/// How many arguments a call has whose `(` these symbols follow, if it is closed in them.
fn arguments(symbols: &[Symbol]) -> Option<usize>
    ensures { result ≡ arguments_in (syms_of symbols.now) }
{
    if begins_right_paren(symbols) {
        return Some(0);
    }
    let mut depth: usize = 0;
    let mut commas: usize = 0;
    for symbol in symbols {
        match role(&symbol.kind) {
            Role::Opens => depth += 1,
            Role::Closes => {
                if depth == 0 {
                    return Some(commas + 1);
                }
                depth -= 1;
            }
            Role::Parts => {
                if depth == 0 {
                    commas += 1;
                }
            }
            Role::GoesOn => {}
        }
    }
    None
}

fn role(kind: &Kind) -> Role
    ensures { result ≡ role_of (sym_of kind.now) }
{
    match kind {
        Kind::LeftParen | Kind::LeftBracket => Role::Opens,
        Kind::RightParen | Kind::RightBracket => Role::Closes,
        Kind::Comma => Role::Parts,
        _ => Role::GoesOn,
    }
}
