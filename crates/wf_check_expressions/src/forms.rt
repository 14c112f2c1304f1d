// The forms that aren't built yet: one line a form, so that it goes when its form comes.
ghost use Rattle.std.specs.Prelude.{◌≡◌, map, option_map};
ghost use Rattle.wf_ast.specs.Func.{func_named, special_named};
ghost use Rattle.wf_ast.specs.View.{body_view, flow_view};
ghost use Rattle.wf_diagnostics.specs.Answers.{IsRuleFault};
ghost use Rattle.wf_check_expressions.specs.Forms as forms;
ghost use Rattle.wf_diagnostics.specs.Parts.{part_view};
ghost use Rattle.wf_diagnostics.specs.Said.{as_said};
ghost use Rattle.wf_diagnostics.specs.declared.kind.CheckKind.TheVariants as kinds;

use crate::flow_named;
use std::alloc::Global;
use wf_ast::{Body, Flow, function_named};
use wf_diagnostics::{CheckKind, Part, Stop, speak_at};

/// The key of a call that names no workflow: none where its function is built.
fn uncalled(name: &str) -> Option<&'static str>
    ensures { option_map (λ k. k.now) result
        ≡ forms.uncalled (func_named name.now) (special_named name.now) }
{
    match function_named(name) {
        Some(_) => None,
        None if is_built(name) => None,
        None => Some("call"),
    }
}

/// Whether a function of this name that only steps may call is built: a call of HTTP, a sleep, or the log.
fn is_built(name: &str) -> bool
    ensures { result ≡ forms.is_built (special_named name.now) }
{
    match name {
        "http.get" | "http.post" | "http.put" | "http.patch" | "http.delete" => true,
        "http.request" | "sys.log" | "sys.sleep" | "sys.sleep_until" => true,
        _ => false,
    }
}

/// The key of a body whose form isn't built.
fn form_key(flows: &[Flow], body: &Body) -> Option<&'static str>
    ensures { option_map (λ k. k.now) result
        ≡ forms.form_key (map flow_view flows.now) (body_view body.now) }
{
    match body {
        Body::Call(call) => match flow_named(flows, call.name.as_str()) {
            None => uncalled(call.name.as_str()),
            Some(_) => None,
        },
        Body::Parallel(_) => Some("parallel"),
        Body::Nothing | Body::Assign(_) | Body::Switch(_) | Body::For(_) => None,
        Body::Block(_) | Body::Try(_) | Body::Raise(_) | Body::Return(_) => None,
    }
}

fn form_of(alloc: Global, body: &Body, flows: &[Flow]) -> Result<(), Stop>
    ensures { IsRuleFault result (λ path. as_said kinds.NotYet
        (forms.form (map flow_view flows.now) (body_view body.now) path)) }
{
    match form_key(flows, body) {
        None => Ok(()),
        Some(key) => speak_at(alloc, CheckKind::NotYet, true, key),
    }
}

/// A form that isn't built yet is used.
pub fn not_yet(alloc: Global, part: &Part, flows: &[Flow]) -> Result<(), Stop>
    ensures { IsRuleFault result (λ path. as_said kinds.NotYet
        (forms.not_yet (map flow_view flows.now) (part_view part.now) path)) }
{
    match part {
        Part::Flow(_) => Ok(()),
        Part::Step(step) => form_of(alloc, &step.body, flows),
        Part::Arm(_) => Ok(()),
        Part::Body(body) => form_of(alloc, body, flows),
        Part::Entry(_) => Ok(()),
        Part::Branch(_, _) => Ok(()),
    }
}
