// The rules of variables: what is written, and what is shared.
ghost use Rattle.std.specs.Prelude.{◌≡◌, codes, map, option_map};
ghost use Rattle.wf_ast.specs.Accept as rules;
ghost use Rattle.wf_ast.specs.Nodes.{below};
ghost use Rattle.wf_ast.specs.View.{body_view};
ghost use Rattle.wf_diagnostics.specs.Answers.{IsRuleFault};
ghost use Rattle.wf_symbols.specs.Around.{around_view, layer_view};
ghost use Rattle.wf_symbols.specs.Names.{names_of};
ghost use Rattle.wf_diagnostics.specs.Parts.{part_view};
ghost use Rattle.wf_diagnostics.specs.Said.{as_said};
ghost use Rattle.wf_diagnostics.specs.declared.kind.CheckKind.TheVariants as kinds;

use std::alloc::Global;
use wf_ast::Body;
use wf_diagnostics::{CheckKind, Part, Stop, keyed, speak, speak_at};
use wf_symbols::{Here, Layer, Names, Scopes, is_visible};
use wf_value::Text;

/// A shared name of the parallel step whose task the layer is, or a name of no layer outside.
fn may_cross(name: &str, shared: &Option<Names>, outside: &[Layer]) -> bool
    ensures { result ≡ rules.may_cross name.now (option_map names_of shared.now)
        (map layer_view outside.now) }
{
    match shared {
        None => true,
        Some(shared) => !is_visible(name, outside) || shared.has(name),
    }
}

/// No task that doesn't share the name stands between here and the layer that has it.
fn may_write(name: &str, layers: &[Layer]) -> bool
    ensures { result ≡ rules.may_write name.now (map layer_view layers.now) }
{
    match layers {
        [] => true,
        [layer, outside @ ..] => {
            if layer.binds.has(name) {
                return true;
            }
            may_cross(name, &layer.shared, outside) && may_write(name, outside)
        }
    }
}

fn undeclared_result(alloc: Global, body: &Body, scopes: &Scopes, here: Here) -> Result<(), Stop>
    ensures { IsRuleFault result (λ path. as_said kinds.UndeclaredWrite
        (rules.write_fault (around_view scopes.now here)
        (rules.result_of_call (rules.call_of (body_view body.now)))
        (below path (codes "result")))) }
{
    let _here = here;
    match body {
        Body::Call(call) => match &call.result {
            None => Ok(()),
            Some(name) => {
                let speaks = !may_write(name.as_str(), scopes.layers.as_slice());
                speak_at(alloc, CheckKind::UndeclaredWrite, speaks, "result")
            }
        },
        Body::Nothing => Ok(()),
        Body::Assign(_) => Ok(()),
        Body::Switch(_) => Ok(()),
        Body::For(_) => Ok(()),
        Body::Parallel(_) => Ok(()),
        Body::Block(_) => Ok(()),
        Body::Try(_) => Ok(()),
        Body::Raise(_) => Ok(()),
        Body::Return(_) => Ok(()),
    }
}

/// A branch, or the body of a parallel loop, assigns a name from outside that isn't shared.
pub fn undeclared_write(alloc: Global, part: &Part, scopes: &Scopes, here: Here) -> Result<(), Stop>
    ensures { IsRuleFault result (λ path. as_said kinds.UndeclaredWrite
        (rules.rule_write (around_view scopes.now here) (part_view part.now) path)) }
{
    match part {
        Part::Flow(_) => Ok(()),
        Part::Step(step) => undeclared_result(alloc, &step.body, scopes, here),
        Part::Arm(_) => Ok(()),
        Part::Body(body) => undeclared_result(alloc, body, scopes, here),
        Part::Entry(entry) => {
            let speaks = !may_write(entry.target.name.as_str(), scopes.layers.as_slice());
            speak(alloc, CheckKind::UndeclaredWrite, speaks)
        }
        Part::Branch(_, _) => Ok(()),
    }
}

/// The first shared name that is of no visible layer.
fn unseen_shared(alloc: Global, shared: &[Text], layers: &[Layer]) -> Result<(), Stop>
    ensures { IsRuleFault result (λ path. as_said kinds.UnknownShared
        (rules.unknown_shared (map layer_view layers.now) shared.now path 0)) }
{
    'each: for index in 0..shared.len() {
        if !is_visible(shared[index].as_str(), layers) {
            return Err(Stop::here(alloc, CheckKind::UnknownShared).at_index(index));
        }
    }
    Ok(())
}

fn unseen_shared_in(alloc: Global, body: &Body, layers: &[Layer]) -> Result<(), Stop>
    ensures { IsRuleFault result (λ path. as_said kinds.UnknownShared
        (rules.unknown_shared (map layer_view layers.now) (rules.shared_in (body_view body.now))
        (below (below path (codes "parallel")) (codes "shared")) 0)) }
{
    match body {
        Body::Parallel(parallel) => {
            let found = unseen_shared(alloc, parallel.shared.items(), layers);
            let found = keyed(alloc, "shared", found);
            keyed(alloc, "parallel", found)
        }
        Body::Nothing => Ok(()),
        Body::Assign(_) => Ok(()),
        Body::Call(_) => Ok(()),
        Body::Switch(_) => Ok(()),
        Body::For(_) => Ok(()),
        Body::Block(_) => Ok(()),
        Body::Try(_) => Ok(()),
        Body::Raise(_) => Ok(()),
        Body::Return(_) => Ok(()),
    }
}

/// A shared name is of no layer outside.
pub fn unknown_shared(alloc: Global, part: &Part, scopes: &Scopes, here: Here) -> Result<(), Stop>
    ensures { IsRuleFault result (λ path. as_said kinds.UnknownShared
        (rules.rule_shared (around_view scopes.now here) (part_view part.now) path)) }
{
    let _here = here;
    let layers = scopes.layers.as_slice();
    match part {
        Part::Flow(_) => Ok(()),
        Part::Step(step) => unseen_shared_in(alloc, &step.body, layers),
        Part::Arm(_) => Ok(()),
        Part::Body(body) => unseen_shared_in(alloc, body, layers),
        Part::Entry(_) => Ok(()),
        Part::Branch(_, _) => Ok(()),
    }
}
