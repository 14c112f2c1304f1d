// What names, numbers and marks are to the grammar.
ghost use Rattle.std.specs.Prelude.{◌≡◌, true, IfOk};
ghost use Rattle.wf_expr.specs.Kinds.{sym_of};
ghost use Rattle.wf_expr.specs.Symbols as symbols;
ghost use Rattle.wf_value.specs.HttpRequest.{is_among};
ghost use Rattle.wf_span.specs.Tokens.{is_token};
ghost use Rattle.wf_span.specs.declared.token.TokenKind.TheVariants as token;

use crate::kind::Kind;
use std::alloc::Global;
use wf_ast::Op;
use wf_value::{OutOfMemory, Text};

/// A word, or else a name.
pub(crate) fn word(alloc: Global, text: &str) -> Result<Kind, OutOfMemory>
    ensures { IfOk result (λ k. sym_of k ≡ symbols.word text.now) }
{
    match text {
        "and" => Ok(Kind::And),
        "or" => Ok(Kind::Or),
        "not" => Ok(Kind::Not),
        "in" => Ok(Kind::Relation(Op::In)),
        "null" => Ok(Kind::Null),
        _ => {
            if is_true(text) {
                Ok(Kind::Bool(true))
            } else if is_false(text) {
                Ok(Kind::Bool(false))
            } else {
                Ok(Kind::Name(Text::new(alloc, text)?))
            }
        }
    }
}

fn is_true(text: &str) -> bool
    ensures { result ≡ is_among text.now symbols.true_words }
{
    text == "true" || text == "True" || text == "TRUE"
}

fn is_false(text: &str) -> bool
    ensures { result ≡ is_among text.now symbols.false_words }
{
    text == "false" || text == "False" || text == "FALSE"
}

/// A whole number of 64 bits, or else a decimal.
pub(crate) fn digits(text: &str) -> Kind
    requires { is_token token.Number text.now ≡ true }
    ensures { sym_of result ≡ symbols.digits text.now }
{
    match text.parse::<i64>() {
        Ok(number) => Kind::Number(number),
        Err(_) => Kind::Decimal,
    }
}

/// The symbol of a mark, as `==` or `(`.
pub(crate) fn mark(text: &str) -> Kind
    ensures { sym_of result ≡ symbols.mark text.now }
{
    match text {
        "==" => Kind::Relation(Op::Eq),
        "!=" => Kind::Relation(Op::Ne),
        "<" => Kind::Relation(Op::Lt),
        "<=" => Kind::Relation(Op::Le),
        ">" => Kind::Relation(Op::Gt),
        ">=" => Kind::Relation(Op::Ge),
        "+" => Kind::Sign(Op::Add),
        "-" => Kind::Sign(Op::Sub),
        "*" => Kind::Product(Op::Mul),
        "/" => Kind::Product(Op::Div),
        "//" => Kind::Product(Op::TruncDiv),
        "%" => Kind::Product(Op::Rem),
        "." => Kind::Point,
        "[" => Kind::LeftBracket,
        "]" => Kind::RightBracket,
        "(" => Kind::LeftParen,
        ")" => Kind::RightParen,
        _ => Kind::Comma,
    }
}
