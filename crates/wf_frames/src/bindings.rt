// Names and the values that they are bound to.
ghost use Rattle.std.specs.Prelude.{◌≡◌, [], ◌∷◌, IfNone, IfOk, IfSome, OnOk, map, option_map};
ghost use Rattle.wf_ast.specs.View.{param_view};
ghost use Rattle.wf_model.specs.Calls as calls;
ghost use Rattle.wf_value.specs.Data.{pairs_of};
ghost use Rattle.wf_value.specs.Plain.{plain};

use std::alloc::Global;
use wf_ast::Param;
use wf_name::Name;
use wf_value::{Map, OutOfMemory, Value};

/// Names and the values that they are bound to, in their order.
#[derive(Drop)]
pub struct Bindings {
    // the first at the end
    items: Vec<(Name, Value)>,
}

impl Bindings {
    ghost use Rattle.wf_frames.specs.Bound.{bindings_of};

    /// None. It allocates nothing.
    pub fn new(alloc: Global) -> Bindings
        ensures { bindings_of result ≡ [] }
    {
        Bindings {
            items: Vec::new(alloc),
        }
    }

    /// The parameters of a call with their values, those of the arguments and else their defaults; none where one has no value.
    pub fn given(
        alloc: Global,
        params: &[Param],
        args: &Map,
    ) -> Result<Option<Bindings>, OutOfMemory>
        ensures { IfOk result (λ o. option_map bindings_of o
            ≡ calls.given (map param_view params.now) (pairs_of args.now)) }
    {
        let mut bindings = Bindings::new(alloc);
        let mut at = params.len();
        while at > 0 {
            at -= 1;
            let param = &params[at];
            let found = value_for(alloc, param, args)?;
            let Some(value) = found else {
                return Ok(None);
            };
            bindings.put_first(Name::of(param.name.copy()?), value)?;
        }
        Ok(Some(bindings))
    }

    /// Puts one before all others.
    #[tactic(auto, using(crate::proofs::Reversed::bindings_put))]
    pub fn put_first(&mut self, name: Name, value: Value) -> Result<(), OutOfMemory>
        ensures { OnOk result (bindings_of self.new ≡ (name, plain value) ∷ bindings_of self.old) }
    {
        self.items.push((name, value))?;
        Ok(())
    }

    /// Takes the first.
    #[tactic(auto, using(crate::proofs::Reversed::bindings_taken))]
    pub(crate) fn take_first(&mut self) -> Option<(Name, Value)>
        ensures first { IfSome result (λ x. bindings_of self.old
            ≡ (x.0, plain x.1) ∷ bindings_of self.new) }
        ensures none { IfNone result (bindings_of self.old ≡ []) }
    {
        self.items.pop()
    }
}

/// What an argument gives a parameter, and else its default.
fn value_for(alloc: Global, param: &Param, args: &Map) -> Result<Option<Value>, OutOfMemory>
    ensures { IfOk result (λ o. option_map plain o
        ≡ calls.value_for (param_view param.now) (pairs_of args.now)) }
{
    if let Some(value) = args.get(param.name.as_str()) {
        return Ok(Some(value.copy(alloc)?));
    }
    match &param.default {
        Some(value) => Ok(Some(value.copy(alloc)?)),
        None => Ok(None),
    }
}
