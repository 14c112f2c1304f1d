// Texts as templates.
ghost use Rattle.std.specs.Prelude.{◌≡◌, ◌<◌, ◌++◌, ◌∷◌, [], false, length, map, IfOk, IfErr, MatchOption, MatchResult};
ghost use Rattle.wf_ast.specs.View.{part_view, parts_view, template_view};
ghost use Rattle.wf_expr.specs.declared.fault.ExprFault.TheVariants as fault;
ghost use Rattle.wf_expr.specs.Pieces.{hole};
ghost use Rattle.wf_expr.specs.Splits.{piece_of};
ghost use Rattle.wf_expr.specs.Texts.{AreParts, IsFaultIn, IsFaultOf, IsPart, IsTemplateOf, end_of, has_expressions as opens_any, is_whole};

use crate::piece::Piece;
use crate::split::pieces;
use crate::{ExprFault, parse};
use std::alloc::Global;
use wf_ast::{Expr, Part, Parts, Template, boxed};
use wf_value::{Text, Value};

/// Whether an expression stands in a text of a source, or begins in it: whether it has a `${`.
pub fn has_expressions(text: &str) -> bool
    ensures { result ≡ opens_any text.now }
{
    text.contains("${")
}

/// The template that a text of a source is: itself where no expression stands in it, the value of an expression
/// where it is one `${`, an expression and its `}`, and else the texts of its parts in a row. It is an error when an
/// expression is none, with its first fault, and when a `${` isn't closed, which is `Syntax` at the text's end;
/// places are told in bytes from behind the `${`, and one past 4,294,967,295 as this. The first of several faults is told.
pub fn parse_template(alloc: Global, text: &str) -> Result<Template, ExprFault>
    ensures template { IfOk result (λ t. IsTemplateOf text.now (template_view t)) }
    ensures fault { IfErr result (IsFaultOf text.now) }
{
    if !has_expressions(text) {
        return Ok(Template::Lit(Value::Text(owned(alloc, text)?)));
    }
    let pieces = pieces(alloc, text)?;
    match alone(&pieces) {
        Some(source) => Ok(Template::Expr(in_box(alloc, parse(alloc, source)?)?)),
        None => Ok(Template::Join(parts(alloc, &pieces)?)),
    }
}

/// An expression in a box.
fn in_box(alloc: Global, expr: Expr) -> Result<Box<Expr>, ExprFault>
    ensures { MatchResult result (λ held. held.value ≡ expr) (λ f. f ≡ fault.OutOfMemory) }
{
    Ok(boxed(alloc, expr)?)
}

/// The expression that stands alone, if one does.
fn alone<'a>(pieces: &[Piece<'a>]) -> Option<&'a str>
    ensures { MatchOption result (is_whole (map piece_of pieces.now)
        ≡ false) (λ s. map piece_of pieces.now ≡ hole s.now ∷ []) }
{
    match pieces {
        [Piece::Hole(source)] => Some(*source),
        _ => None,
    }
}

/// The parts that pieces are.
fn parts(alloc: Global, pieces: &[Piece<'_>]) -> Result<Parts, ExprFault>
    ensures { MatchResult result (λ xs. AreParts (map piece_of pieces.now) (parts_view xs))
        (IsFaultIn (map piece_of pieces.now)) }
{
    let mut parts = no_parts(alloc)?;
    'join: for piece in pieces {
        add(&mut parts, part(alloc, piece)?)?;
    }
    Ok(parts)
}

/// The part that a piece is.
fn part(alloc: Global, piece: &Piece<'_>) -> Result<Part, ExprFault>
    ensures { MatchResult result (λ x. IsPart (piece_of piece.now) (part_view x))
        (IsFaultIn (piece_of piece.now ∷ [])) }
{
    match piece {
        Piece::Said(text) => Ok(Part::Text(owned(alloc, text)?)),
        Piece::Hole(source) => Ok(Part::Expr(parse(alloc, source)?)),
        Piece::Unclosed(text) => Err(ExprFault::Syntax(end(text))),
    }
}

/// The end of a text as a place; one past 4,294,967,295 is told as this.
fn end(text: &str) -> u32
    ensures { result ≡ end_of text.now }
{
    match u32::try_from(text.len()) {
        Ok(place) => place,
        Err(_) => u32::MAX,
    }
}

fn owned(alloc: Global, text: &str) -> Result<Text, ExprFault>
    ensures { MatchResult result (λ t. t ≡ text.now) (λ f. f ≡ fault.OutOfMemory) }
{
    Ok(Text::new(alloc, text)?)
}

fn no_parts(alloc: Global) -> Result<Parts, ExprFault>
    ensures { MatchResult result (λ xs. parts_view xs ≡ []) (λ f. f ≡ fault.OutOfMemory) }
{
    Ok(Parts::new(alloc)?)
}

fn add(parts: &mut Parts, part: Part) -> Result<(), ExprFault>
    ensures { MatchResult result (λ _. parts_view parts.new
        ≡ parts_view parts.old ++ part_view part ∷ []) (λ f. f ≡ fault.OutOfMemory) }
{
    parts.push(part)?;
    Ok(())
}
