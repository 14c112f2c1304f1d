// How long the body of an answer is (RFC 9112, section 6.3).
ghost use Rattle.wf_http_in.specs.Bodies as bodies;
ghost use Rattle.wf_http_in.specs.Found.{IsFramed};

use crate::Head;
use wf_http_body::{Coding, Length, coding_of, length_of};

/// The bytes of a body, at most.
pub(crate) const BODY_LIMIT: usize = 2_097_152;

/// How the end of a body is told.
#[derive(Clone, Copy)]
pub(crate) enum Framing {
    // There is no body.
    Empty,
    // It has so many bytes, at most 2,097,152.
    OfLength(usize),
    // It would have more bytes.
    TooLong,
    // It comes in chunks.
    InChunks,
    // It goes to the connection's end.
    ToTheEnd,
    // The fields contradict each other, or tell no length.
    Bad,
}

/// How the body of an answer with this head is told.
pub(crate) fn framing_of(head: &Head) -> Framing
    ensures { IsFramed result (bodies.framing_of head.now.code head.now.fields) }
{
    if matches!(head.code(), 204 | 304) {
        return Framing::Empty;
    }
    let fields = head.fields();
    match coding_of(fields) {
        Coding::Chunked => Framing::InChunks,
        Coding::Other => Framing::Bad,
        Coding::Absent => match length_of(fields, BODY_LIMIT) {
            Length::Absent => Framing::ToTheEnd,
            Length::Within(length) => Framing::OfLength(length),
            Length::Past => Framing::TooLong,
            Length::Bad => Framing::Bad,
        },
    }
}
