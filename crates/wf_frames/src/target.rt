// What the calls of a program come to.
ghost use Rattle.std.specs.Prelude.{◌≡◌, IfSome, None, Some, false, option_map};
ghost use Rattle.wf_ast.specs.Func.{special_named};
ghost use Rattle.wf_callbacks.specs.Plain.{plain_method};
ghost use Rattle.wf_model.specs.Calls.{http_method};
ghost use Rattle.wf_frames.specs.Built.{is_sleep, nap_special};

use wf_ast::Function;
use wf_callbacks::Method;

/// Which sleep a call is: one of some seconds, or one until a moment.
#[derive(Debug, Clone, Copy, PartialEq, Eq)]
pub enum Nap {
    For,
    Until,
}

/// What a call names: the workflow of the node with this number, a function, a call of HTTP, whose name tells its method, or none where
/// the method is among the arguments, a sleep, or the log.
#[derive(Clone, Copy)]
pub enum Target {
    Flow(u32),
    Function(Function),
    Http(Option<Method>),
    Sleeps(Nap),
    Log,
}

/// The sleep of a name; none where the name is that of no sleep.
pub fn nap_named(name: &str) -> Option<Nap>
    ensures named { IfSome result (λ b. option_map (λ e. e.special) (special_named name.now)
        ≡ Some (nap_special b)) }
    ensures none { result ≡ None → is_sleep (special_named name.now) ≡ false }
{
    match name {
        "sys.sleep" => Some(Nap::For),
        "sys.sleep_until" => Some(Nap::Until),
        _ => None,
    }
}

/// The call of HTTP of a name, with the method that the name tells.
pub fn http_named(name: &str) -> Option<Option<Method>>
    ensures { option_map (option_map plain_method) result ≡ http_method (special_named name.now) }
{
    match name {
        "http.get" => Some(Some(Method::Get)),
        "http.post" => Some(Some(Method::Post)),
        "http.put" => Some(Some(Method::Put)),
        "http.patch" => Some(Some(Method::Patch)),
        "http.delete" => Some(Some(Method::Delete)),
        "http.request" => Some(None),
        _ => None,
    }
}
