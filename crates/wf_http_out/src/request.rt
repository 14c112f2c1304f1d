// The bytes of a request.
ghost use Rattle.std.specs.Prelude.{◌≡◌, ◌≤◌, IfOk, option_map, string_bytes};
ghost use Rattle.std.specs.Option.{ForSome};
ghost use Rattle.wf_value.specs.HttpRequest as request;
ghost use Rattle.wf_value.specs.Data.{depth};
ghost use Rattle.wf_value.specs.Plain.{plain};
ghost use Rattle.wf_http_out.specs.Asked.{asked_view, head_text, payload_view};
ghost use Rattle.wf_http_out.specs.View.{AgreesWith, goal_view};

use crate::body::{Payload, is_good_body, payload_of};
use crate::fields::are_good_fields;
use crate::lines::Lines;
use crate::{Asked, Goal, OutFault};
use std::alloc::{AllocError, Global};
use wf_value::{Bytes, OutOfMemory};

/// The bytes of call `k` of the execution `id`, as one HTTP/1.1 message (RFC 9112): the request
/// line, `Host`, the caller's fields in their order, `Connection: close`, `X-Workflow-Call`,
/// `Content-Type` where there is a body and the caller gave none, `Content-Length` where there is a
/// body or the method is POST, PUT or PATCH, an empty line and the body. The query's pairs are
/// escaped (RFC 3986, section 2.1).
///
/// The errors are `BadHeader` where a field can't be sent, then `BadBody` where the body would be
/// sent as JSON under another media type, and `OutOfMemory`. The body nests at most 100 deep.
pub fn request_bytes(
    alloc: Global,
    goal: &Goal,
    asked: &Asked,
    id: &str,
    k: u64,
) -> Result<Bytes, OutFault>
    requires { ForSome asked.now.body (λ v. depth (plain v) ≤ 100) }
    ensures { AgreesWith (λ b. b) result
        (request.request_bytes (goal_view goal.now) (asked_view asked.now) id.now k) }
{
    if !are_good_fields(asked.fields.items()) {
        return Err(OutFault::BadHeader);
    }
    if !is_good_body(asked) {
        return Err(OutFault::BadBody);
    }
    Ok(written(alloc, goal, asked, id, k)?)
}

fn written(
    alloc: Global,
    goal: &Goal,
    asked: &Asked,
    id: &str,
    k: u64,
) -> Result<Bytes, OutOfMemory>
    requires { ForSome asked.now.body (λ v. depth (plain v) ≤ 100) }
    ensures { IfOk result (λ b. b ≡ request.request_text (goal_view goal.now) (asked_view asked.now)
        id.now k) }
{
    let payload = payload_of(alloc, &asked.body)?;
    let head = head_of(alloc, goal, asked, id, k, &payload)?;
    let mut bytes = head.into_bytes();
    if let Some(payload) = &payload {
        bytes.extend_from_slice(payload.bytes.as_slice())?;
    }
    Bytes::new(alloc, bytes.as_slice())
}

/// The lines of a request, the empty one too.
fn head_of(
    alloc: Global,
    goal: &Goal,
    asked: &Asked,
    id: &str,
    k: u64,
    payload: &Option<Payload>,
) -> Result<String, AllocError>
    ensures { IfOk result (λ t. string_bytes t
        ≡ head_text (goal_view goal.now) (asked_view asked.now) id.now k
        (option_map payload_view payload.now)) }
{
    let fields = asked.fields.items();
    let mut lines = Lines {
        text: String::new(alloc),
    };
    lines.start(asked.method, goal.target.as_str(), asked.query.items())?;
    lines.field("Host", goal.authority.as_str())?;
    lines.fields(fields)?;
    lines.field("Connection", "close")?;
    lines.call(alloc, id, k)?;
    lines.media_type(fields, payload)?;
    lines.length(alloc, asked.method, payload)?;
    lines.end()?;
    Ok(lines.text)
}
