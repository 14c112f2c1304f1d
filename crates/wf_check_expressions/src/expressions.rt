// The first expression of a node that reads a name of no visible layer.
ghost use Rattle.std.specs.Prelude.{◌≡◌, map};
ghost use Rattle.std.specs.List.{list_all};
ghost use Rattle.wf_ast.specs.Accept as rules;
ghost use Rattle.wf_ast.specs.Nodes.{EntryPart, nth};
ghost use Rattle.wf_ast.specs.Tree.{exprs, fields, templates};
ghost use Rattle.wf_ast.specs.View.{body_view, entry_view, expr_view, field_view, over_view, part_view as piece_view, template_view};
ghost use Rattle.wf_diagnostics.specs.Answers.{IsRuleFault};
ghost use Rattle.wf_check_expressions.specs.Expressions.{are_fine, body_failing, failing, fields_failing, is_part_fine, items_failing, over_failing, part_failing};
ghost use Rattle.wf_symbols.specs.Around.{around_view, layer_view};
ghost use Rattle.wf_diagnostics.specs.Parts.{part_view};
ghost use Rattle.wf_diagnostics.specs.Said.{as_said};
ghost use Rattle.wf_check_expressions.specs.Tests.{sees};
ghost use Rattle.wf_diagnostics.specs.declared.kind.CheckKind.TheVariants as kinds;
ghost use Rattle.wf_value.specs.HttpUrl.{first_of_two};

use crate::reads::sees_expr;
use std::alloc::Global;
use wf_ast::{Body, Entry, Expr, NamedTemplate, Over, Part as Piece, Template, Work};
use wf_diagnostics::{CheckKind, Part, Stop, keyed, speak};
use wf_symbols::{Here, Layer, Scopes};

fn all_pass(es: &[Expr], layers: &[Layer]) -> bool
    ensures { result ≡ are_fine (sees (map layer_view layers.now))
        (exprs (map expr_view es.now)) }
{
    for e in es {
        if !sees_expr(e, layers) {
            return false;
        }
    }
    true
}

fn piece_passes(piece: &Piece, layers: &[Layer]) -> bool
    ensures { result ≡ is_part_fine (sees (map layer_view layers.now)) (piece_view piece.now) }
{
    match piece {
        Piece::Text(_) => true,
        Piece::Expr(e) => sees_expr(e, layers),
    }
}

fn pieces_pass(pieces: &[Piece], layers: &[Layer]) -> bool
    ensures { result ≡ list_all (is_part_fine (sees (map layer_view layers.now)))
        (map piece_view pieces.now) }
{
    for piece in pieces {
        if !piece_passes(piece, layers) {
            return false;
        }
    }
    true
}

// ---- templates

#[cycle(template)]
fn failing(alloc: Global, layers: &[Layer], template: &Template) -> Result<(), Stop>
    ensures { IsRuleFault result (λ path. as_said kinds.UnknownName
        (failing (sees (map layer_view layers.now)) (template_view template.now) path)) }
{
    match template {
        Template::Lit(_) => Ok(()),
        Template::Expr(e) => speak(alloc, CheckKind::UnknownName, !sees_expr(e, layers)),
        Template::Join(pieces) => {
            speak(
                alloc,
                CheckKind::UnknownName,
                !pieces_pass(pieces.items(), layers),
            )
        }
        Template::List(members) => items_failing(alloc, layers, members.items()),
        Template::Literals(_) => Ok(()),
        Template::Map(members) => fields_failing(alloc, layers, members.items()),
    }
}

#[cycle(template)]
fn items_failing(alloc: Global, layers: &[Layer], members: &[Template]) -> Result<(), Stop>
    ensures { IsRuleFault result (λ path. as_said kinds.UnknownName
        (items_failing (sees (map layer_view layers.now))
        (templates (map template_view members.now)) path 0)) }
{
    'each: for index in 0..members.len() {
        match failing(alloc, layers, &members[index]) {
            Ok(()) => {}
            Err(stop) => return Err(stop.at_index(index)),
        }
    }
    Ok(())
}

#[cycle(template)]
fn fields_failing(alloc: Global, layers: &[Layer], members: &[NamedTemplate]) -> Result<(), Stop>
    ensures { IsRuleFault result (λ path. as_said kinds.UnknownName
        (fields_failing (sees (map layer_view layers.now))
        (fields (map field_view members.now)) path)) }
{
    'each: for member in members {
        match failing(alloc, layers, &member.template) {
            Ok(()) => {}
            Err(stop) => return Err(stop.at_key(alloc, member.name.as_str())),
        }
    }
    Ok(())
}

// ---- nodes

/// What a loop runs over.
fn over_failing(alloc: Global, layers: &[Layer], over: &Over) -> Result<(), Stop>
    ensures { IsRuleFault result (λ path. as_said kinds.UnknownName
        (over_failing (sees (map layer_view layers.now)) (over_view over.now) path)) }
{
    match over {
        Over::List(list) => {
            let found = failing(alloc, layers, list);
            keyed(alloc, "in", found)
        }
        Over::Range(first, last) => {
            let found = ends_failing(alloc, layers, first, last);
            keyed(alloc, "range", found)
        }
    }
}

/// The ends of a range.
fn ends_failing(
    alloc: Global,
    layers: &[Layer],
    first: &Template,
    last: &Template,
) -> Result<(), Stop>
    ensures { IsRuleFault result (λ path. as_said kinds.UnknownName
        (first_of_two
        (failing (sees (map layer_view layers.now)) (template_view first.now) (nth path 0))
        (failing (sees (map layer_view layers.now)) (template_view last.now) (nth path 1)))) }
{
    match failing(alloc, layers, first) {
        Ok(()) => {}
        Err(stop) => return Err(stop.at_index(0)),
    }
    match failing(alloc, layers, last) {
        Ok(()) => Ok(()),
        Err(stop) => Err(stop.at_index(1)),
    }
}

/// What a body reads in its own move.
fn body_failing(alloc: Global, layers: &[Layer], body: &Body) -> Result<(), Stop>
    ensures { IsRuleFault result (λ path. as_said kinds.UnknownName
        (body_failing (sees (map layer_view layers.now)) (body_view body.now) path)) }
{
    match body {
        Body::Call(call) => {
            let found = fields_failing(alloc, layers, call.args.items());
            keyed(alloc, "args", found)
        }
        Body::For(repeated) => {
            let found = over_failing(alloc, layers, &repeated.over);
            keyed(alloc, "for", found)
        }
        Body::Parallel(parallel) => match &parallel.work {
            Work::Branches(_) => Ok(()),
            Work::Loop(repeated) => {
                let found = over_failing(alloc, layers, &repeated.over);
                let found = keyed(alloc, "for", found);
                keyed(alloc, "parallel", found)
            }
        },
        Body::Raise(value) => {
            let found = failing(alloc, layers, value);
            keyed(alloc, "raise", found)
        }
        Body::Return(value) => {
            let found = failing(alloc, layers, value);
            keyed(alloc, "return", found)
        }
        Body::Nothing => Ok(()),
        Body::Assign(_) => Ok(()),
        Body::Switch(_) => Ok(()),
        Body::Block(_) => Ok(()),
        Body::Try(_) => Ok(()),
    }
}

/// An entry: its places come before its value.
fn entry_failing(alloc: Global, layers: &[Layer], entry: &Entry) -> Result<(), Stop>
    ensures { IsRuleFault result (λ path. as_said kinds.UnknownName
        (part_failing (sees (map layer_view layers.now)) (EntryPart (entry_view entry.now)) path)) }
{
    let fine = all_pass(entry.target.places.items(), layers);
    match speak(alloc, CheckKind::UnknownName, !fine) {
        Ok(()) => {}
        Err(stop) => return Err(stop),
    }
    failing(alloc, layers, &entry.value)
}

/// What a node reads in its own move.
fn part_failing(alloc: Global, layers: &[Layer], part: &Part) -> Result<(), Stop>
    ensures { IsRuleFault result (λ path. as_said kinds.UnknownName
        (part_failing (sees (map layer_view layers.now)) (part_view part.now) path)) }
{
    match part {
        Part::Flow(_) => Ok(()),
        Part::Step(step) => body_failing(alloc, layers, &step.body),
        Part::Arm(arm) => {
            let found = failing(alloc, layers, &arm.condition);
            keyed(alloc, "condition", found)
        }
        Part::Body(body) => body_failing(alloc, layers, body),
        Part::Entry(entry) => entry_failing(alloc, layers, entry),
        Part::Branch(_, _) => Ok(()),
    }
}

/// An expression reads a name of no visible layer.
pub fn unknown_name(alloc: Global, part: &Part, scopes: &Scopes, here: Here) -> Result<(), Stop>
    ensures { IsRuleFault result (λ path. as_said kinds.UnknownName
        (rules.rule_name (around_view scopes.now here) (part_view part.now) path)) }
{
    let _here = here;
    part_failing(alloc, scopes.layers.as_slice(), part)
}
