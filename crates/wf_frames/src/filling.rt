//! The values of shapes.
ghost use Rattle.std.specs.Prelude.{map, Ok};
ghost use Rattle.wf_value.specs.Data.{Items, Pairs, items_of, pairs_of, no_pairs};
ghost use Rattle.wf_value.specs.Errors.{Answer};
ghost use Rattle.wf_value.specs.Plain.{plain};
ghost use Rattle.wf_ast.specs.Eval as meaning;
ghost use Rattle.wf_ast.specs.Tree.{templates, fields};
ghost use Rattle.wf_eval.specs.Answers.{Answers, Gives, GivesText, kept_list, kept_map, put_all};
ghost use Rattle.wf_eval.specs.Sight.{seen};
ghost use Rattle.wf_model.specs.Shapes.{fields_by, named_by, piece_by, shape_by};

use crate::codes::value_at;
use std::alloc::Global;
use wf_ast::Postfix;
use wf_eval::{Look, copied, keep, map_of, owned, shown};
use wf_model::{NamedShape, NamedShapes, Piece, Shape};
use wf_value::{List, Map, Raise, Text, Value};

/// The value of the template that a shape stands for with the compiled expressions of its node, or its first error: members of lists in
/// their order, members of maps in the order of the keys.
#[cycle(fill)]
#[inline(always)]
pub fn fill_shape<K: Look>(
    alloc: Global,
    shape: &Shape,
    codes: &[Postfix],
    look: &K,
    now: u64,
) -> Result<Value, Raise>
    ensures { Gives result
        (meaning.fill (shape_by codes.now shape.now) (seen (K.sight look.now) now)) }
{
    match shape {
        Shape::Lit(v) => keep(copied(alloc, v)?),
        Shape::Hole(place) => value_at(alloc, codes, *place, look, now),
        Shape::Join(pieces) => keep(Value::Text(joined(alloc, pieces.items(), codes, look, now)?)),
        Shape::List(shapes) => keep_list(fill_all(alloc, shapes.items(), codes, look, now)),
        Shape::Literals(list) => keep(Value::List(list.copy()?)),
        Shape::Map(named) => keep_map(alloc, fill_named(alloc, named.items(), codes, look, now)),
    }
}

/// The texts of the pieces in a row.
fn joined<K: Look>(
    alloc: Global,
    pieces: &[Piece],
    codes: &[Postfix],
    look: &K,
    now: u64,
) -> Result<Text, Raise>
    ensures { GivesText result
        (meaning.joined (seen (K.sight look.now) now) (map (piece_by codes.now) pieces.now)) }
{
    let mut text = String::new(alloc);
    for piece in pieces {
        let more = piece_text(alloc, piece, codes, look, now)?;
        text.push_str(more.as_str())?;
    }
    owned(alloc, text.as_str())
}

/// The text of a piece.
fn piece_text<K: Look>(
    alloc: Global,
    piece: &Piece,
    codes: &[Postfix],
    look: &K,
    now: u64,
) -> Result<Text, Raise>
    ensures { GivesText result
        (meaning.part_text (seen (K.sight look.now) now) (piece_by codes.now piece.now)) }
{
    match piece {
        Piece::Text(t) => owned(alloc, t.as_str()),
        Piece::Hole(place) => {
            let v = value_at(alloc, codes, *place, look, now)?;
            shown(alloc, &v)
        }
    }
}

/// The values of the members of a list.
#[cycle(fill)]
fn fill_all<K: Look>(
    alloc: Global,
    shapes: &[Shape],
    codes: &[Postfix],
    look: &K,
    now: u64,
) -> Result<List, Raise>
    ensures { Answers (λ l. items_of l) result
        (meaning.fill_all (templates (map (shape_by codes.now) shapes.now))
        (seen (K.sight look.now) now)) }
{
    let mut list = List::new(alloc)?;
    for shape in shapes {
        let value = fill_shape(alloc, shape, codes, look, now)?;
        list.push(value)?;
    }
    Ok(list)
}

/// The values of the members of a map, with their keys, in the order of the keys.
#[cycle(fill)]
fn fill_named<K: Look>(
    alloc: Global,
    named: &[NamedShape],
    codes: &[Postfix],
    look: &K,
    now: u64,
) -> Result<Vec<(Text, Value)>, Raise>
    ensures { Answers (λ ps. put_all ps.items no_pairs) result
        (meaning.fill_fields (fields (map (named_by codes.now) named.now))
        (seen (K.sight look.now) now)) }
{
    let mut pairs = Vec::new(alloc);
    for member in named {
        let value = fill_shape(alloc, &member.shape, codes, look, now)?;
        let key = owned(alloc, member.name.as_str())?;
        pairs.push((key, value))?;
    }
    Ok(pairs)
}

/// The list of these values, if it keeps within the limits.
fn keep_list(made: Result<List, Raise>) -> Result<Value, Raise>
    ensures { (d : Answer Items) → Answers (λ l. items_of l) made d → Gives result (kept_list d) }
{
    keep(Value::List(made?))
}

/// The values of the named templates of a call, by their names, or the first error.
pub(crate) fn fill_args<K: Look>(
    alloc: Global,
    named: &NamedShapes,
    codes: &[Postfix],
    look: &K,
    now: u64,
) -> Result<Map, Raise>
    ensures { Answers (λ m. pairs_of m) result
        (meaning.fill_fields (fields (fields_by codes.now named.now))
        (seen (K.sight look.now) now)) }
{
    map_of(alloc, fill_named(alloc, named.items(), codes, look, now)?)
}

/// The map of these pairs, if it keeps within the limits.
fn keep_map(alloc: Global, pairs: Result<Vec<(Text, Value)>, Raise>) -> Result<Value, Raise>
    ensures { (d : Answer Pairs) → Answers (λ ps. put_all ps.items no_pairs) pairs d
        → Gives result (kept_map d) }
{
    keep(Value::Map(map_of(alloc, pairs?)?))
}
