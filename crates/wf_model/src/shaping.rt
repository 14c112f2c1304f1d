// Templates to shapes: each expression is compiled, and its place stands in the shape.
ghost use Rattle.std.specs.Prelude.{◌≡◌, IfOk, map};
ghost use Rattle.wf_ast.specs.Tree as t;
ghost use Rattle.wf_ast.specs.View.{expr_view, field_view, part_view, template_view};
ghost use Rattle.wf_model.specs.Compiles.{Compiles, code_list};
ghost use Rattle.wf_model.specs.Shapes.{decoded, named_by, named_list, piece_by, piece_list, shape_by, shape_list};

use crate::codes::Codes;
use crate::grow::add;
use crate::shape::{NamedShape, NamedShapes, Piece, Pieces, Shape, Shapes};
use std::alloc::Global;
use wf_ast::{NamedTemplate, Part, Template};
use wf_value::OutOfMemory;

/// The shape of a template: its expressions are compiled into the codes.
#[cycle(shaping)]
pub fn shape_of(alloc: Global, t: &Template, codes: &mut Codes) -> Result<Shape, OutOfMemory>
    ensures { IfOk result (λ s. Compiles (code_list codes.old) (code_list codes.new)
        (λ cs. shape_by cs s) (template_view t.now)) }
{
    match t {
        Template::Lit(v) => Ok(Shape::Lit(v.copy(alloc)?)),
        Template::Expr(e) => Ok(Shape::Hole(codes.add(alloc, e)?)),
        Template::Join(parts) => Ok(Shape::Join(pieces(alloc, parts.items(), codes)?)),
        Template::List(ts) => Ok(Shape::List(shapes(alloc, ts.items(), codes)?)),
        Template::Literals(list) => Ok(Shape::Literals(list.copy()?)),
        Template::Map(fs) => Ok(Shape::Map(named_of(alloc, fs.items(), codes)?)),
    }
}

/// The shapes of templates.
#[cycle(shaping)]
fn shapes(alloc: Global, ts: &[Template], codes: &mut Codes) -> Result<Shapes, OutOfMemory>
    ensures { IfOk result (λ ss. Compiles (code_list codes.old) (code_list codes.new)
        (λ cs. map (shape_by cs) (shape_list ss)) (map template_view ts.now)) }
{
    let mut items = Vec::new(alloc);
    for t in ts {
        add(&mut items, shape_of(alloc, t, codes)?)?;
    }
    Ok(Shapes { items })
}

/// The shapes of named templates.
#[cycle(shaping)]
pub fn named_of(
    alloc: Global,
    fs: &[NamedTemplate],
    codes: &mut Codes,
) -> Result<NamedShapes, OutOfMemory>
    ensures { IfOk result (λ ns. Compiles (code_list codes.old) (code_list codes.new)
        (λ cs. map (named_by cs) (named_list ns)) (map field_view fs.now)) }
{
    let mut items = Vec::new(alloc);
    for f in fs {
        let shape = shape_of(alloc, &f.template, codes)?;
        let name = f.name.copy()?;
        add(&mut items, NamedShape { name, shape })?;
    }
    Ok(NamedShapes { items })
}

/// The pieces of a joined text.
fn pieces(alloc: Global, parts: &[Part], codes: &mut Codes) -> Result<Pieces, OutOfMemory>
    ensures { IfOk result (λ ps. Compiles (code_list codes.old) (code_list codes.new)
        (λ cs. map (piece_by cs) (piece_list ps)) (map part_view parts.now)) }
{
    let mut items = Vec::new(alloc);
    for part in parts {
        add(&mut items, piece(alloc, part, codes)?)?;
    }
    Ok(Pieces { items })
}

/// The piece of a part.
fn piece(alloc: Global, part: &Part, codes: &mut Codes) -> Result<Piece, OutOfMemory>
    ensures { IfOk result (λ p. Compiles (code_list codes.old) (code_list codes.new)
        (λ cs. piece_by cs p) (part_view part.now)) }
{
    match part {
        Part::Text(x) => Ok(Piece::Text(x.copy()?)),
        Part::Expr(e) => Ok(Piece::Hole(codes.add(alloc, e)?)),
    }
}
