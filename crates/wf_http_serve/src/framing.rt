// How long the body of a request is (RFC 9112, section 6.3).
ghost use Rattle.wf_http_serve.specs.Plain.{IsFramed};
ghost use Rattle.wf_http_serve.specs.Visits.{framing};

use wf_http_body::{Coding, Length, coding_of, length_of};
use wf_value::Bytes;

/// The greatest length of a body.
pub(crate) const BODY_LIMIT: usize = 262_144;

/// How the end of a body is told.
#[derive(Clone, Copy)]
pub(crate) enum Framing {
    // There is no body.
    Empty,
    // It has so many bytes, at most 262,144.
    OfLength(usize),
    // It would have more bytes.
    TooLarge,
    // It comes in chunks.
    InChunks,
    // The fields contradict each other, or tell no length.
    Bad,
}

/// How the body of a request with these fields is told.
pub(crate) fn framing_of(fields: &[(Bytes, Bytes)]) -> Framing
    ensures { IsFramed result (framing fields.now) }
{
    let length = length_of(fields, BODY_LIMIT);
    if matches!(length, Length::Bad) {
        return Framing::Bad;
    }
    match coding_of(fields) {
        Coding::Chunked => Framing::InChunks,
        Coding::Other => Framing::Bad,
        Coding::Absent => match length {
            Length::Absent => Framing::Empty,
            Length::Within(length) => Framing::OfLength(length),
            Length::Past => Framing::TooLarge,
            Length::Bad => Framing::Bad,
        },
    }
}
