// The functions that expressions may call.
ghost use Rattle.std.specs.Prelude.{◌≡◌, ◌+◌, length, option_map};
ghost use Rattle.wf_ast.specs.Func.{func_named};
ghost use Rattle.wf_expr.specs.Callees.{callee_of};

use crate::callee::Callee;
use wf_ast::{Func, function_named};

/// The function of a name.
pub(crate) fn function(name: &str) -> Option<Callee>
    ensures { result ≡ option_map callee_of (func_named name.now) }
{
    match function_named(name) {
        Some(function) => {
            let arguments = function.arguments;
            Some(callee(function.func, arguments.needs, arguments.may))
        }
        None => None,
    }
}

fn callee(func: Func, needs: &[&str], may: &[&str]) -> Callee
    ensures { result ≡ record {
      func = func;
      least = length needs.now;
      most = length needs.now + length may.now;
    } }
{
    let least = needs.len();
    let most = least + may.len();
    Callee { func, least, most }
}
