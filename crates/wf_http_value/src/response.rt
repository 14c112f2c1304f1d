// What an answer gives or raises.
ghost use Rattle.wf_http_value.specs.Gives.{GivesOrRaises};
ghost use Rattle.wf_value.specs.Events.{Response};
ghost use Rattle.wf_value.specs.HttpText.{reply_result};

use crate::ReplyFault;
use crate::body::body_value;
use crate::fault::BodyFault;
use crate::headers::header_map;
use crate::limits::{kept, raise, raise_nested};
use crate::maps::{http_error, result_map};
use std::alloc::Global;
use wf_value::{Bytes, Tag, Value};

/// The value that a response of this code, of these fields and of this body gives: a map of `body`,
/// `code` and `headers`.
///
/// An HttpError with the same where the code is 400 or more; a ResponseTypeError where a body under
/// `application/json` says no value, and the code is less; a ResourceLimitError past the limits on
/// size, 4,194,304, and on nesting, 100.
pub fn response_value(
    alloc: Global,
    code: u16,
    fields: &[(Bytes, Bytes)],
    body: &[u8],
) -> Result<Value, ReplyFault>
    ensures { GivesOrRaises result (reply_result (Response code fields.now body.now)) }
{
    let is_error = code >= 400;
    let headers = header_map(alloc, fields)?;
    match body_value(alloc, is_error, fields, &headers, body) {
        Ok(body) if is_error => raise_nested(alloc, http_error(alloc, code, headers, body)?),
        Ok(body) => kept(alloc, result_map(alloc, code, headers, body)?),
        Err(BodyFault::NoJson) => raise(alloc, Tag::ResponseTypeError),
        Err(BodyFault::OutOfMemory) => Err(ReplyFault::OutOfMemory),
    }
}
