// Trailer fields (RFC 9112, section 7.1.2), of all bytes heard behind the last chunk's line.
ghost use Rattle.std.specs.Prelude.{◌≡◌, ◌≤◌, IfOk, length};
ghost use Rattle.httparse.specs.Spans.{SectionOverflows};
ghost use Rattle.wf_http_body.specs.Found.{IsSection, IsGlance};

use crate::room::{FIELD_LIMIT, LARGE_ROOM};
use httparse::spans::{EMPTY_HEADER_SPAN, HeaderSpan, parse_headers};
use httparse::{Error, Status};
use std::alloc::Global;
use wf_value::OutOfMemory;

/// What the bytes heard are.
#[derive(Clone, Copy)]
pub(crate) enum Section {
    Whole,
    NotYet,
    Bad,
}

/// What at most 65,536 bytes are.
#[derive(Clone, Copy)]
pub(crate) enum Glance {
    Whole,
    // Too many fields.
    Crowded,
    NotYet,
    // No fields can come of them.
    Never,
}

/// The fields have at most `limit` bytes.
pub(crate) fn read_trailer(
    alloc: Global,
    heard: &[u8],
    limit: usize,
) -> Result<Section, OutOfMemory>
    requires { limit ≡ 65536 }
    ensures { IfOk result (IsSection heard.now) }
{
    if heard.len() <= limit {
        return Ok(match glance_at(alloc, heard)? {
            Glance::Whole => Section::Whole,
            Glance::NotYet => Section::NotYet,
            Glance::Crowded | Glance::Never => Section::Bad,
        });
    }
    Ok(match glance_at(alloc, &heard[..limit])? {
        Glance::Whole => Section::Whole,
        Glance::Crowded | Glance::NotYet | Glance::Never => Section::Bad,
    })
}

fn glance_at(alloc: Global, front: &[u8]) -> Result<Glance, OutOfMemory>
    requires { length front.now ≤ 65536 }
    ensures { IfOk result (IsGlance front.now) }
{
    let mut room = [EMPTY_HEADER_SPAN; FIELD_LIMIT];
    match parse_headers(front, &mut room) {
        Ok(Status::Complete(_)) => Ok(Glance::Whole),
        Ok(Status::Partial) => Ok(Glance::NotYet),
        Err(Error::TooManyHeaders) => glance_in_large_room(alloc, front),
        Err(_) => Ok(Glance::Never),
    }
}

/// The same with room for all fields, where there are too many.
fn glance_in_large_room(alloc: Global, front: &[u8]) -> Result<Glance, OutOfMemory>
    requires short { length front.now ≤ 65536 }
    requires many { SectionOverflows 100 front.now }
    ensures { IfOk result (IsGlance front.now) }
{
    let mut room = Vec::from_elem(alloc, EMPTY_HEADER_SPAN, LARGE_ROOM)?;
    Ok(glance_in(front, room.as_mut_slice()))
}

fn glance_in(front: &[u8], room: &mut [HeaderSpan]) -> Glance
    requires short { length front.now ≤ 65536 }
    requires many { SectionOverflows 100 front.now }
    requires room { 21846 ≤ length room.old }
    ensures { IsGlance front.now result }
{
    match parse_headers(front, room) {
        Ok(Status::Complete(_)) => Glance::Crowded,
        Ok(Status::Partial) => Glance::NotYet,
        Err(Error::TooManyHeaders) => unreachable!(),
        Err(_) => Glance::Never,
    }
}
