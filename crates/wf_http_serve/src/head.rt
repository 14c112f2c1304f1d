// Heads of requests, of all bytes heard.
ghost use Rattle.std.specs.Prelude.{◌≡◌, ◌≤◌, IfOk, length, take};
ghost use Rattle.httparse.specs.Spans.{RequestOverflows};
ghost use Rattle.wf_http_serve.specs.Found.{IsHeadFound, IsHeading, IsLook, is_settled};

use crate::first_line::has_first_line;
use crate::framing::{Framing, framing_of};
use crate::request::Request;
use httparse::spans::{EMPTY_HEADER_SPAN, HeaderSpan, parse_request};
use httparse::{Error, Status};
use std::alloc::Global;
use wf_http_body::{FIELD_LIMIT, LARGE_ROOM, add, head_length};
use wf_value::OutOfMemory;

/// The greatest length of a head.
const HEAD_LIMIT: usize = 65_536;

/// What the bytes heard are.
#[derive(Drop)]
pub(crate) enum Heading {
    // No head yet.
    NotYet,
    // No head that is taken can come of them.
    Bad,
    // A whole head, how long the body behind it is, and where that begins.
    Whole(Request, Framing, usize),
}

/// What at most 65,536 bytes are.
#[derive(Drop)]
pub(crate) enum Look {
    Whole(Request, Framing, usize),
    // A head with too many fields.
    Crowded,
    NotYet,
    // No head can come of them.
    Never,
}

impl Heading {
    /// Whether no more bytes are wanted for it.
    fn is_settled(&self) -> bool
        ensures { result ≡ is_settled self.now }
    {
        match self {
            Heading::NotYet => false,
            Heading::Bad | Heading::Whole(_, _, _) => true,
        }
    }
}

/// Adds a front of a piece to the bytes of a head: to the head's end, or all of it. Tells what they
/// are. Without memory bytes may have been added.
pub(crate) fn find_head(heard: &mut Vec<u8>, piece: &[u8]) -> Result<Heading, OutOfMemory>
    ensures grown { take (length heard.old.items) heard.new.items ≡ heard.old.items }
    ensures found { IfOk result (IsHeadFound heard.old.items piece.now heard.new.items) }
{
    let alloc = *heard.allocator();
    let (front, rest) = piece.split_at(head_length(heard.as_slice(), piece));
    add(heard, front)?;
    let heading = read_head(alloc, heard.as_slice(), HEAD_LIMIT)?;
    if heading.is_settled() {
        return Ok(heading);
    }
    add(heard, rest)?;
    read_head(alloc, heard.as_slice(), HEAD_LIMIT)
}

/// A head has at most `limit` bytes.
fn read_head(alloc: Global, heard: &[u8], limit: usize) -> Result<Heading, OutOfMemory>
    requires { limit ≡ 65536 }
    ensures { IfOk result (IsHeading heard.now) }
{
    if heard.len() <= limit {
        let look = look_at(alloc, heard)?;
        return Ok(heading_of(heard, look));
    }
    match look_at(alloc, &heard[..limit])? {
        Look::Whole(request, framing, len) => Ok(Heading::Whole(request, framing, len)),
        Look::Crowded | Look::NotYet | Look::Never => Ok(Heading::Bad),
    }
}

/// By all bytes heard.
fn heading_of(heard: &[u8], look: Look) -> Heading
    requires short { length heard.now ≤ 65536 }
    requires look { IsLook heard.now look }
    ensures { IsHeading heard.now result }
{
    match look {
        Look::Whole(request, framing, len) => Heading::Whole(request, framing, len),
        Look::Crowded => Heading::Bad,
        Look::NotYet => Heading::NotYet,
        Look::Never if has_first_line(heard) => Heading::Bad,
        Look::Never => Heading::NotYet,
    }
}

fn look_at(alloc: Global, front: &[u8]) -> Result<Look, OutOfMemory>
    requires { length front.now ≤ 65536 }
    ensures { IfOk result (IsLook front.now) }
{
    let mut room = [EMPTY_HEADER_SPAN; FIELD_LIMIT];
    match parse_request(front, &mut room) {
        Ok(Status::Complete(spans)) => {
            let request = Request::new(alloc, front, &spans, &room)?;
            let framing = framing_of(request.fields.items());
            Ok(Look::Whole(request, framing, spans.len))
        }
        Ok(Status::Partial) => Ok(Look::NotYet),
        Err(Error::TooManyHeaders) => look_in_large_room(alloc, front),
        Err(_) => Ok(Look::Never),
    }
}

/// The same with room for all fields, where there are too many.
fn look_in_large_room(alloc: Global, front: &[u8]) -> Result<Look, OutOfMemory>
    requires short { length front.now ≤ 65536 }
    requires many { RequestOverflows 100 front.now }
    ensures { IfOk result (IsLook front.now) }
{
    let mut room = Vec::from_elem(alloc, EMPTY_HEADER_SPAN, LARGE_ROOM)?;
    Ok(look_in(front, room.as_mut_slice()))
}

fn look_in(front: &[u8], room: &mut [HeaderSpan]) -> Look
    requires short { length front.now ≤ 65536 }
    requires many { RequestOverflows 100 front.now }
    requires room { 21846 ≤ length room.old }
    ensures { IsLook front.now result }
{
    match parse_request(front, room) {
        Ok(Status::Complete(_)) => Look::Crowded,
        Ok(Status::Partial) => Look::NotYet,
        Err(Error::TooManyHeaders) => unreachable!(),
        Err(_) => Look::Never,
    }
}
