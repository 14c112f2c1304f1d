// What a request to a callback gives.
ghost use Rattle.std.specs.Prelude.{◌≡◌, IfOk};
ghost use Rattle.wf_callbacks.specs.Plain.{plain_visitor};
ghost use Rattle.wf_http_value.specs.Gives.{GivesOrRaises};
ghost use Rattle.wf_value.specs.HttpText.{header_map, visit_map, visit_result};
ghost use Rattle.wf_value.specs.Data.{pairs_of};
ghost use Rattle.wf_value.specs.Plain.{plain};

use crate::ReplyFault;
use crate::body::body_value;
use crate::fault::BodyFault;
use crate::headers::header_map;
use crate::limits::kept;
use std::alloc::Global;
use wf_callbacks::Visitor;
use wf_value::{Map, OutOfMemory, Text, Value};

/// The value that a request to a callback gives: a map of `http_request` alone, which is a map of
/// `body`, `headers` and `method`. JSON that says no value is a text, or else bytes.
///
/// A ResourceLimitError past the limits on size, 4,194,304, and on nesting, 100.
pub fn visit_value(alloc: Global, visitor: &Visitor) -> Result<Value, ReplyFault>
    ensures { GivesOrRaises result (visit_result (plain_visitor visitor.now)) }
{
    let fields = visitor.headers.items();
    let headers = header_map(alloc, fields)?;
    match body_value(alloc, true, fields, &headers, visitor.body.as_slice()) {
        Ok(body) => kept(alloc, visit_map(alloc, visitor, headers, body)?),
        Err(BodyFault::NoJson) => unreachable!(),
        Err(BodyFault::OutOfMemory) => Err(ReplyFault::OutOfMemory),
    }
}

fn visit_map(
    alloc: Global,
    visitor: &Visitor,
    headers: Map,
    body: Value,
) -> Result<Value, OutOfMemory>
    requires { pairs_of headers ≡ header_map visitor.now.headers }
    ensures { IfOk result (λ v. plain v ≡ visit_map (plain_visitor visitor.now) (plain body)) }
{
    let method = Value::Text(Text::new(alloc, visitor.method.name())?);
    let mut request = Map::new(alloc)?;
    request.insert(Text::new(alloc, "method")?, method)?;
    request.insert(Text::new(alloc, "headers")?, Value::Map(headers))?;
    request.insert(Text::new(alloc, "body")?, body)?;
    let mut pairs = Map::new(alloc)?;
    pairs.insert(Text::new(alloc, "http_request")?, Value::Map(request))?;
    Ok(Value::Map(pairs))
}
