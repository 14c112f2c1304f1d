// Texts cut into pieces.
ghost use Rattle.std.specs.Prelude.{◌≡◌, ◌<◌, ◌++◌, ◌∷◌, [], length, map, IfOk, MatchOption};
ghost use Rattle.wf_expr.specs.Pieces.{hole, in_hole, pieces as pieces_of, unclosed};
ghost use Rattle.wf_expr.specs.Splits.{piece_of, said_in};
ghost use Rattle.wf_expr.specs.declared.quoting.Quoting.TheVariants.{Bare};

use crate::piece::Piece;
use crate::quoting::hole_length;
use std::alloc::Global;
use wf_value::OutOfMemory;

/// The pieces of a text, in their order.
pub(crate) fn pieces(alloc: Global, text: &str) -> Result<Vec<Piece<'_>>, OutOfMemory>
    ensures { IfOk result (λ ps. map piece_of ps.items ≡ pieces_of text.now) }
{
    let mut made = Vec::new(alloc);
    let mut rest = text;
    'cut: while let Some((front, opened)) = rest.split_once("${") {
        add_said(&mut made, front)?;
        let Some((source, behind)) = split_hole(opened) else {
            add(&mut made, Piece::Unclosed(opened))?;
            return Ok(made);
        };
        add(&mut made, Piece::Hole(source))?;
        rest = behind;
    }
    add_said(&mut made, rest)?;
    Ok(made)
}

/// The expression that a text begins with, and what stands behind its `}`.
fn split_hole(text: &str) -> Option<(&str, &str)>
    ensures { MatchOption result (in_hole Bare text.now
        ≡ unclosed text.now ∷ []) (λ r. (in_hole Bare text.now ≡ hole r.0.now ∷ pieces_of r.1.now)
        × (length r.1.now < length text.now)) }
{
    let length = hole_length(text.as_bytes())?;
    let (source, closed) = text.split_at(length);
    Some((source, closed.split_at(1).1))
}

fn add<'a>(pieces: &mut Vec<Piece<'a>>, piece: Piece<'a>) -> Result<(), OutOfMemory>
    ensures { IfOk result (λ _. map piece_of pieces.new.items
        ≡ map piece_of pieces.old.items ++ piece_of piece.entry ∷ []) }
{
    pieces.push(piece)?;
    Ok(())
}

/// Adds what is said, if anything is.
fn add_said<'a>(pieces: &mut Vec<Piece<'a>>, text: &'a str) -> Result<(), OutOfMemory>
    ensures { IfOk result (λ _. map piece_of pieces.new.items
        ≡ map piece_of pieces.old.items ++ said_in text.now) }
{
    if text.is_empty() {
        Ok(())
    } else {
        add(pieces, Piece::Said(text))
    }
}
