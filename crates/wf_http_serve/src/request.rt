// What a head asks.
ghost use Rattle.std.specs.Prelude.{◌≡◌, IfOk, OnOk, map, take};
ghost use Rattle.httparse.specs.Grammar.{RequestHead};
ghost use Rattle.httparse.specs.Spans.{IsHeaderWithin, IsRequestAt, IsRequestOf, IsRequestWithin, header_bytes};
ghost use Rattle.std.specs.Prelude.{All, ◌≤◌, length, IsUtf8};
ghost use Rattle.wf_http_serve.specs.Plain.{IsAskedBy};

use httparse::spans::{HeaderSpan, RequestSpans};
use std::alloc::Global;
use wf_callbacks::Fields;
use wf_value::{Bytes, OutOfMemory, Text};

/// The head of a request.
#[derive(Drop)]
pub(crate) struct Request {
    pub(crate) method: Text,
    pub(crate) target: Text,
    pub(crate) fields: Fields,
}

impl Request {
    /// The parts of a head that stands at the front of these bytes.
    pub(crate) fn new(
        alloc: Global,
        front: &[u8],
        spans: &RequestSpans,
        room: &[HeaderSpan],
    ) -> Result<Request, OutOfMemory>
        requires within { IsRequestWithin front.now room.now spans.now }
        requires head { IsRequestOf front.now room.now spans.now }
        ensures { IfOk result (λ r. (h : RequestHead) → IsRequestAt front.now room.now spans.now h
            → IsAskedBy h r) }
    {
        Ok(Request {
            method: text_of(alloc, spans.method.of(front))?,
            target: text_of(alloc, spans.path.of(front))?,
            fields: fields_of(alloc, front, &room[..spans.headers])?,
        })
    }
}

fn text_of(alloc: Global, bytes: &[u8]) -> Result<Text, OutOfMemory>
    requires { IsUtf8 bytes.now }
    ensures { IfOk result (λ t. t ≡ bytes.now) }
{
    match str::from_utf8(bytes) {
        Ok(text) => Text::new(alloc, text),
        Err(_) => unreachable!(),
    }
}

fn fields_of(alloc: Global, front: &[u8], spans: &[HeaderSpan]) -> Result<Fields, OutOfMemory>
    requires { All (IsHeaderWithin (length front.now)) spans.now }
    ensures { IfOk result (λ f. f ≡ map (header_bytes front.now) spans.now) }
{
    let mut fields = Fields::new(alloc)?;
    for span in spans {
        let name = Bytes::new(alloc, span.name.of(front))?;
        let value = Bytes::new(alloc, span.value.of(front))?;
        fields.push(name, value)?;
    }
    Ok(fields)
}
