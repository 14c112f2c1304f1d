// How long the body behind a head is (RFC 9112, section 6.3).
ghost use Rattle.std.specs.Prelude.{◌≤◌};
ghost use Rattle.wf_http_body.specs.Framed.{IsCoding, IsLength};

use crate::fields::next_value;
use crate::number::{is_number, is_same_number, length_told};
use wf_value::Bytes;

/// What the fields Content-Length tell.
#[derive(Debug, Clone, Copy, PartialEq, Eq)]
pub enum Length {
    /// There is none.
    Absent,
    /// So many bytes, at most the limit.
    Within(usize),
    /// More bytes than the limit.
    Past,
    /// One is no number of decimal digits, or two differ.
    Bad,
}

/// What the fields Transfer-Encoding tell.
#[derive(Debug, Clone, Copy, PartialEq, Eq)]
pub enum Coding {
    /// There is none.
    Absent,
    /// `chunked` alone.
    Chunked,
    /// Any other coding.
    Other,
}

/// How long a body is by the fields Content-Length of its head, where `limit` bytes are the most.
pub fn length_of(fields: &[(Bytes, Bytes)], limit: usize) -> Length
    requires { limit ≤ 16777216 }
    ensures { IsLength limit fields.now result }
{
    let Some((first, mut at)) = next_value(fields, b"content-length", 0) else {
        return Length::Absent;
    };
    if !is_number(first) {
        return Length::Bad;
    }
    while let Some((value, behind)) = next_value(fields, b"content-length", at) {
        if !is_number(value) || !is_same_number(first, value) {
            return Length::Bad;
        }
        at = behind;
    }
    match length_told(first, limit) {
        length if length <= limit => Length::Within(length),
        _ => Length::Past,
    }
}

/// Whether a body comes in chunks, by the fields Transfer-Encoding of its head.
pub fn coding_of(fields: &[(Bytes, Bytes)]) -> Coding
    ensures { IsCoding fields.now result }
{
    let Some((coding, at)) = next_value(fields, b"transfer-encoding", 0) else {
        return Coding::Absent;
    };
    let is_alone = next_value(fields, b"transfer-encoding", at).is_none();
    if is_alone && coding.eq_ignore_ascii_case(b"chunked") {
        Coding::Chunked
    } else {
        Coding::Other
    }
}
