// What symbols begin with.
ghost use Rattle.std.specs.Prelude.{◌≡◌, drop, option_map};
ghost use Rattle.wf_expr.specs.Kinds.{syms_of};
ghost use Rattle.wf_expr.specs.Machine as machine;

use crate::kind::{Kind, Symbol};
use wf_ast::Op;
use wf_value::Text;

/// What stands behind the first symbol.
pub(crate) fn tail(symbols: &[Symbol]) -> &[Symbol]
    ensures { syms_of result.now ≡ drop 1 (syms_of symbols.now) }
{
    match symbols {
        [_, after @ ..] => after,
        [] => symbols,
    }
}

/// Whether the first symbol is `or`.
pub(crate) fn begins_or(symbols: &[Symbol]) -> bool
    ensures { result ≡ machine.is_or (machine.head (syms_of symbols.now)) }
{
    match symbols {
        [Symbol { kind: Kind::Or, .. }, ..] => true,
        _ => false,
    }
}

/// Whether the first symbol is `and`.
pub(crate) fn begins_and(symbols: &[Symbol]) -> bool
    ensures { result ≡ machine.is_and (machine.head (syms_of symbols.now)) }
{
    match symbols {
        [
            Symbol {
                kind: Kind::And,
                ..
            },
            ..
        ] => true,
        _ => false,
    }
}

/// Whether the first symbol is `not`.
pub(crate) fn begins_not(symbols: &[Symbol]) -> bool
    ensures { result ≡ machine.is_not (machine.head (syms_of symbols.now)) }
{
    match symbols {
        [
            Symbol {
                kind: Kind::Not,
                ..
            },
            ..
        ] => true,
        _ => false,
    }
}

/// Whether the first symbol is `-`.
pub(crate) fn begins_minus(symbols: &[Symbol]) -> bool
    ensures { result ≡ machine.is_minus (machine.head (syms_of symbols.now)) }
{
    match symbols {
        [
            Symbol {
                kind: Kind::Sign(Op::Sub),
                ..
            },
            ..
        ] => true,
        _ => false,
    }
}

/// Whether the first symbol is `.`.
pub(crate) fn begins_point(symbols: &[Symbol]) -> bool
    ensures { result ≡ machine.is_point (machine.head (syms_of symbols.now)) }
{
    match symbols {
        [
            Symbol {
                kind: Kind::Point,
                ..
            },
            ..
        ] => true,
        _ => false,
    }
}

/// Whether the first symbol is `,`.
pub(crate) fn begins_comma(symbols: &[Symbol]) -> bool
    ensures { result ≡ machine.is_comma (machine.head (syms_of symbols.now)) }
{
    match symbols {
        [
            Symbol {
                kind: Kind::Comma,
                ..
            },
            ..
        ] => true,
        _ => false,
    }
}

/// Whether the first symbol is `(`.
pub(crate) fn begins_left_paren(symbols: &[Symbol]) -> bool
    ensures { result ≡ machine.is_left_paren (machine.head (syms_of symbols.now)) }
{
    match symbols {
        [
            Symbol {
                kind: Kind::LeftParen,
                ..
            },
            ..
        ] => true,
        _ => false,
    }
}

/// Whether the first symbol is `)`.
pub(crate) fn begins_right_paren(symbols: &[Symbol]) -> bool
    ensures { result ≡ machine.is_right_paren (machine.head (syms_of symbols.now)) }
{
    match symbols {
        [
            Symbol {
                kind: Kind::RightParen,
                ..
            },
            ..
        ] => true,
        _ => false,
    }
}

/// Whether the first symbol is `[`.
pub(crate) fn begins_left_bracket(symbols: &[Symbol]) -> bool
    ensures { result ≡ machine.is_left_bracket (machine.head (syms_of symbols.now)) }
{
    match symbols {
        [
            Symbol {
                kind: Kind::LeftBracket,
                ..
            },
            ..
        ] => true,
        _ => false,
    }
}

/// Whether the first symbol is `]`.
pub(crate) fn begins_right_bracket(symbols: &[Symbol]) -> bool
    ensures { result ≡ machine.is_right_bracket (machine.head (syms_of symbols.now)) }
{
    match symbols {
        [
            Symbol {
                kind: Kind::RightBracket,
                ..
            },
            ..
        ] => true,
        _ => false,
    }
}

/// The operator that the first symbol is, where it compares, as `==` or `in`.
pub(crate) fn relation(symbols: &[Symbol]) -> Option<Op>
    ensures { result ≡ machine.relation_of (machine.head (syms_of symbols.now)) }
{
    match symbols {
        [
            Symbol {
                kind: Kind::Relation(op),
                ..
            },
            ..
        ] => Some(*op),
        _ => None,
    }
}

/// The operator that the first symbol is, where it is `+` or `-`.
pub(crate) fn sign(symbols: &[Symbol]) -> Option<Op>
    ensures { result ≡ machine.sign_of (machine.head (syms_of symbols.now)) }
{
    match symbols {
        [
            Symbol {
                kind: Kind::Sign(op),
                ..
            },
            ..
        ] => Some(*op),
        _ => None,
    }
}

/// The operator that the first symbol is, where it multiplies or divides.
pub(crate) fn product(symbols: &[Symbol]) -> Option<Op>
    ensures { result ≡ machine.product_of (machine.head (syms_of symbols.now)) }
{
    match symbols {
        [
            Symbol {
                kind: Kind::Product(op),
                ..
            },
            ..
        ] => Some(*op),
        _ => None,
    }
}

/// The name that the first symbol is.
pub(crate) fn name(symbols: &[Symbol]) -> Option<&Text>
    ensures { option_map (λ x. x.now) result
        ≡ machine.name_of (machine.head (syms_of symbols.now)) }
{
    match symbols {
        [
            Symbol {
                kind: Kind::Name(name),
                ..
            },
            ..
        ] => Some(name),
        _ => None,
    }
}
