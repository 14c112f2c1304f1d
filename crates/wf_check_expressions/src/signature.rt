// The functions that calls may name, with the names of their arguments.
ghost use Rattle.std.specs.Prelude.{◌≡◌, [], Some, map, option_map};
ghost use Rattle.wf_ast.specs.Func.{call_signature, special_in, specials};
ghost use Rattle.wf_ast.specs.Functions.{signature_of};

use wf_ast::{ArgumentNames, function_named};

/// What an HTTP call may have.
const HTTP_MAY: &[&str] = &["headers", "query", "body", "auth", "timeout"];

/// What a call step may name.
pub(crate) fn signature(name: &str) -> Option<ArgumentNames>
    ensures { option_map signature_of result ≡ call_signature name.now }
{
    match function_named(name) {
        Some(function) => Some(function.arguments),
        None => special_signature(name),
    }
}

/// Those that expressions may not call.
fn special_signature(name: &str) -> Option<ArgumentNames>
    ensures { option_map signature_of result
        ≡ option_map (λ e. e.signature) (special_in specials name.now) }
{
    match name {
        "sys.log" => taking(&[], &["data", "text", "json", "severity"]),
        "sys.sleep" => needing(&["seconds"]),
        "sys.sleep_until" => needing(&["time"]),
        "http.get" => taking(&["url"], HTTP_MAY),
        "http.post" => taking(&["url"], HTTP_MAY),
        "http.put" => taking(&["url"], HTTP_MAY),
        "http.patch" => taking(&["url"], HTTP_MAY),
        "http.delete" => taking(&["url"], HTTP_MAY),
        "http.request" => taking(&["method", "url"], HTTP_MAY),
        "events.create_callback_endpoint" => taking(&[], &["http_callback_method"]),
        "events.await_callback" => taking(&["callback"], &["timeout"]),
        _ => None,
    }
}

fn needing(needs: &'static [&'static str]) -> Option<ArgumentNames>
    ensures { option_map signature_of result
        ≡ Some (record { needs = map (λ n. n.now) needs.now; may = [] }) }
{
    Some(ArgumentNames { needs, may: &[] })
}

fn taking(needs: &'static [&'static str], may: &'static [&'static str]) -> Option<ArgumentNames>
    ensures { option_map signature_of result
        ≡ Some (record { needs = map (λ n. n.now) needs.now; may = map (λ n. n.now) may.now }) }
{
    Some(ArgumentNames { needs, may })
}
