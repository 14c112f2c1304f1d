// The request of a call.
ghost use Rattle.std.specs.Prelude.{◌≡◌, ◌≤◌};
ghost use Rattle.std.specs.Option.{ForSome};
ghost use Rattle.wf_http_ask.specs.Answers.{Answers};
ghost use Rattle.wf_http_ask.specs.View.{raise_of, request_view};
ghost use Rattle.wf_http_out.specs.Asked.{asked_view};
ghost use Rattle.wf_http_out.specs.View.{routes_view};
ghost use Rattle.wf_value.specs.HttpRequest.{request};
ghost use Rattle.wf_value.specs.Data.{depth};
ghost use Rattle.wf_value.specs.Plain.{plain};

use std::alloc::Global;
use wf_host::{Address, Routes};
use wf_http_out::{Asked, OutFault, address, request_bytes};
use wf_value::{Bytes, Raise, Tag};

/// The request of a call.
#[derive(Drop)]
pub struct Request {
    /// Where it is sent.
    pub address: Address,
    /// The bytes of its HTTP/1.1 message (RFC 9112).
    pub bytes: Bytes,
}

/// The request of call `number` of the execution `id`: where the URL leads by these routes
/// (`wf_http_out::address`), and the bytes that are sent there (`wf_http_out::request_bytes`).
///
/// The first of these errors that holds is told: a ValueError where the URL is bad, or a
/// ConnectionError where it leads nowhere; a ValueError where a field can't be sent; a ValueError
/// where the body would be sent as JSON under another media type. OutOfMemory may come in place of
/// any answer. The body nests at most 100 deep.
pub fn request_of(
    alloc: Global,
    routes: &Routes,
    asked: &Asked,
    id: &str,
    number: u64,
) -> Result<Request, Raise>
    requires { ForSome asked.now.body (λ v. depth (plain v) ≤ 100) }
    ensures { Answers request_view result
        (request (routes_view routes.now) (asked_view asked.now) id.now number) }
{
    let goal = match address(alloc, asked.url.as_str(), routes) {
        Ok(goal) => goal,
        Err(fault) => return Err(raise_of(fault)),
    };
    match request_bytes(alloc, &goal, asked, id, number) {
        Ok(bytes) => Ok(Request {
            address: goal.address,
            bytes,
        }),
        Err(fault) => Err(raise_of(fault)),
    }
}

/// The error that a fault raises.
fn raise_of(fault: OutFault) -> Raise
    ensures { result ≡ raise_of fault }
{
    match fault {
        OutFault::BadUrl | OutFault::BadHeader | OutFault::BadBody => {
            Raise::Error(Tag::ValueError)
        }
        OutFault::NoRoute => Raise::Error(Tag::ConnectionError),
        OutFault::OutOfMemory => Raise::OutOfMemory,
    }
}
