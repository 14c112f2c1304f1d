// Arguments by their names.
ghost use Rattle.std.specs.Prelude.{◌≡◌, option_map};
ghost use Rattle.wf_value.specs.Data.{pairs_of};
ghost use Rattle.wf_value.specs.Pairs.{get};
ghost use Rattle.wf_value.specs.Plain.{plain};

use wf_value::{Map, Value};

/// The argument of this name.
pub(crate) fn argument<'a>(args: &'a Map, name: &str) -> Option<&'a Value>
    ensures { option_map (λ v. plain v.now) result ≡ get name.now (pairs_of args.now) }
{
    args.get(name)
}
