// The head of an answer.
ghost use Rattle.std.specs.Prelude.{◌≡◌, ◌≤◌, All, IfOk, length, map};
ghost use Rattle.httparse.specs.Grammar.{ResponseHead};
ghost use Rattle.httparse.specs.Spans.{IsHeaderWithin, IsResponseAt, IsResponseOf, IsResponseWithin, header_bytes};
ghost use Rattle.wf_http_in.specs.Found.{IsHeadOf};

use httparse::spans::{HeaderSpan, ResponseSpans};
use std::alloc::Global;
use std::marker::Model;
use wf_value::{Bytes, OutOfMemory};

/// The head of an answer: its code and its fields. Contracts see it as plain data, the names and
/// values in their order.
#[derive(Drop)]
pub struct Head {
    code: u16,
    fields: Vec<(Bytes, Bytes)>,
}

impl Model for Head {
    ghost use Rattle.wf_http_in.specs.HeadData.{HeadData};

    ghost Value = { HeadData };

    ghost use Rattle.std.specs.Prelude.{◌≤◌};

    ghost view = { λ a. record { code = a.code; fields = a.fields.items } };

    ghost invariant = { λ a. a.code ≤ 999 };
}

impl Head {
    /// The parts of a head that stands at the front of these bytes.
    pub(crate) fn new(
        alloc: Global,
        front: &[u8],
        spans: &ResponseSpans,
        room: &[HeaderSpan],
    ) -> Result<Head, OutOfMemory>
        requires within { IsResponseWithin front.now room.now spans.now }
        requires head { IsResponseOf front.now room.now spans.now }
        ensures { IfOk result (λ r. (h : ResponseHead) → IsResponseAt front.now room.now spans.now h
            → IsHeadOf h r) }
    {
        let fields = fields_of(alloc, front, &room[..spans.headers])?;
        Ok(Head {
            code: spans.code,
            fields,
        })
    }

    /// The status code, from 0 to 999 (RFC 9110, section 15).
    pub fn code(&self) -> u16
        ensures code { result ≡ self.now.code }
        ensures most { result ≤ 999 }
    {
        self.code
    }

    /// The fields in their order: names, and values without the blanks around them.
    pub fn fields(&self) -> &[(Bytes, Bytes)]
        ensures { result.now ≡ self.now.fields }
    {
        self.fields.as_slice()
    }
}

fn fields_of(
    alloc: Global,
    front: &[u8],
    spans: &[HeaderSpan],
) -> Result<Vec<(Bytes, Bytes)>, OutOfMemory>
    requires { All (IsHeaderWithin (length front.now)) spans.now }
    ensures { IfOk result (λ f. f.items ≡ map (header_bytes front.now) spans.now) }
{
    let mut fields = Vec::new(alloc);
    for span in spans {
        let name = Bytes::new(alloc, span.name.of(front))?;
        let value = Bytes::new(alloc, span.value.of(front))?;
        fields.push((name, value))?;
    }
    Ok(fields)
}
