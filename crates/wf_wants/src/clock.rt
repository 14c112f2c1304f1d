//! What names `sys.now`, whether or not an evaluation comes there.
ghost use Rattle.std.specs.Prelude.{◌≡◌, ◌||◌, ◌∷◌, List, map};
ghost use Rattle.wf_ast.specs.Tree as t;
ghost use Rattle.wf_ast.specs.Tree.{exprs, fields, templates};
ghost use Rattle.wf_model.specs.Kinds.{expr_now, exprs_now, fields_now, is_now, parts_now, template_now, templates_now};
ghost use Rattle.wf_ast.specs.Instrs.{instr};
ghost use Rattle.wf_wants.specs.Clocks.{call_now};
ghost use Rattle.wf_model.specs.Shapes.{decoded, fields_by, hole_by, named_by, piece_by, shape_by};

use wf_ast::{Func, Instr, Postfix};
use wf_model::{NamedShape, NamedShapes, Piece, Shape};

/// Whether a shape names the clock, with the compiled expressions of its node.
#[cycle(clock)]
pub(crate) fn is_clock_in(shape: &Shape, codes: &[Postfix]) -> bool
    ensures { result ≡ template_now (shape_by codes.now shape.now) }
{
    match shape {
        Shape::Lit(_) => false,
        Shape::Hole(place) => is_at(codes, *place),
        Shape::Join(pieces) => is_in_pieces(pieces.items(), codes),
        Shape::List(shapes) => is_in_shapes(shapes.items(), codes),
        Shape::Literals(_) => false,
        Shape::Map(named) => is_in_named(named.items(), codes),
    }
}

#[cycle(clock)]
fn is_in_shapes(shapes: &[Shape], codes: &[Postfix]) -> bool
    ensures { result ≡ templates_now (templates (map (shape_by codes.now) shapes.now)) }
{
    for shape in shapes {
        if is_clock_in(shape, codes) {
            return true;
        }
    }
    false
}

#[cycle(clock)]
fn is_in_named(named: &[NamedShape], codes: &[Postfix]) -> bool
    ensures { result ≡ fields_now (fields (map (named_by codes.now) named.now)) }
{
    for member in named {
        if is_clock_in(&member.shape, codes) {
            return true;
        }
    }
    false
}

/// Whether one of some named shapes names the clock, with the compiled expressions of their node.
pub(crate) fn is_clock_named(named: &NamedShapes, codes: &[Postfix]) -> bool
    ensures { result ≡ fields_now (fields (fields_by codes.now named.now)) }
{
    is_in_named(named.items(), codes)
}

fn is_in_pieces(pieces: &[Piece], codes: &[Postfix]) -> bool
    ensures { result ≡ parts_now (map (piece_by codes.now) pieces.now) }
{
    for piece in pieces {
        if is_in_piece(piece, codes) {
            return true;
        }
    }
    false
}

fn is_in_piece(piece: &Piece, codes: &[Postfix]) -> bool
    ensures { (ps : List t.Part) → parts_now (piece_by codes.now piece.now ∷ ps)
        ≡ (result || parts_now ps) }
{
    match piece {
        Piece::Text(_) => false,
        Piece::Hole(place) => is_at(codes, *place),
    }
}

/// Whether the expression at a place names the clock.
fn is_at(codes: &[Postfix], place: u32) -> bool
    ensures { result ≡ expr_now (hole_by codes.now place) }
{
    match codes.get(place as usize) {
        Some(code) => is_in(code),
        None => false,
    }
}

/// Whether one of some compiled expressions names the clock.
pub(crate) fn is_clock_among(codes: &[Postfix]) -> bool
    ensures { result ≡ exprs_now (exprs (map decoded codes.now)) }
{
    for code in codes {
        if is_in(code) {
            return true;
        }
    }
    false
}

/// Whether a compiled expression names the clock.
fn is_in(code: &Postfix) -> bool
    ensures { result ≡ expr_now (decoded code.now) }
{
    for i in code.items() {
        if is_call(i) {
            return true;
        }
    }
    false
}

/// Whether an instruction reads the clock.
fn is_call(i: &Instr) -> bool
    ensures { result ≡ call_now (instr i.now) }
{
    match i {
        Instr::Call(f, _) => is_now(*f),
        _ => false,
    }
}

/// Whether a function reads the clock.
pub(crate) fn is_now(function: Func) -> bool
    ensures { result ≡ is_now function }
{
    match function {
        Func::SysNow => true,
        _ => false,
    }
}
