// Heads of answers, of all bytes heard (RFC 9112, sections 2 to 5).
ghost use Rattle.std.specs.Prelude.{◌≡◌, ◌≤◌, IfOk, MatchOption, drop, length, take};
ghost use Rattle.httparse.specs.Spans.{ResponseOverflows};
ghost use Rattle.wf_http_in.specs.Found.{IsFinal, IsHeadFound, IsHeading, IsInterim, IsLook, is_settled};
ghost use Rattle.wf_http_in.specs.Heads.{IsPassed, is_interim_code};

use crate::Head;
use crate::framing::{Framing, framing_of};
use httparse::spans::{EMPTY_HEADER_SPAN, HeaderSpan, parse_response};
use httparse::{Error, Status};
use std::alloc::Global;
use wf_http_body::{FIELD_LIMIT, LARGE_ROOM, add, head_length};
use wf_value::OutOfMemory;

/// The bytes of a head, at most.
const HEAD_LIMIT: usize = 65_536;

/// What the bytes heard are.
#[derive(Drop)]
pub(crate) enum Heading {
    // No head yet.
    NotYet,
    // No head that is taken can come of them.
    Bad,
    // A whole head, how long the body behind it is, and where that begins.
    Whole(Head, Framing, usize),
}

/// What at most 65,536 bytes are.
#[derive(Drop)]
pub(crate) enum Look {
    Whole(Head, Framing, usize),
    // A head with too many fields.
    Crowded,
    NotYet,
    // No head can come of them.
    Never,
}

impl Heading {
    /// Whether no more bytes are wanted for it.
    fn is_settled(&self) -> bool
        ensures { result ≡ is_settled self.now }
    {
        match self {
            Heading::NotYet => false,
            Heading::Bad | Heading::Whole(_, _, _) => true,
        }
    }

    /// How long an interim head is.
    fn interim(&self) -> Option<usize>
        ensures { MatchOption result (IsFinal self.now) (IsInterim self.now) }
    {
        match self {
            Heading::Whole(head, _, len) if is_interim(head.code()) => Some(*len),
            Heading::Whole(_, _, _) | Heading::NotYet | Heading::Bad => None,
        }
    }
}

/// Heads of these codes are passed (RFC 9110, section 15.2).
fn is_interim(code: u16) -> bool
    ensures { result ≡ is_interim_code code }
{
    code >= 100 && code <= 199
}

/// Adds a front of a piece to the bytes of heads: to the end of the answer's head, or all of it.
/// Tells how long the interim heads are that come first, and what stands behind them. Without memory
/// bytes may have been added.
pub(crate) fn find_head(heard: &mut Vec<u8>, piece: &[u8]) -> Result<(usize, Heading), OutOfMemory>
    ensures grown { take (length heard.old.items) heard.new.items ≡ heard.old.items }
    ensures found { IfOk result (λ r. IsHeadFound heard.old.items piece.now heard.new.items r.0
        r.1) }
{
    let alloc = *heard.allocator();
    let mut used = 0;
    let mut passed = 0;
    loop {
        let (_, rest) = piece.split_at(used);
        let (_, begun) = heard.as_slice().split_at(passed);
        let (front, _) = rest.split_at(head_length(begun, rest));
        add(heard, front)?;
        used += front.len();
        let (_, behind) = heard.as_slice().split_at(passed);
        let (more, heading) = read_heads(alloc, behind)?;
        passed += more;
        if used == piece.len() || heading.is_settled() {
            return Ok((passed, heading));
        }
    }
}

/// How long the interim heads are that come first, and what stands behind them.
fn read_heads(alloc: Global, heard: &[u8]) -> Result<(usize, Heading), OutOfMemory>
    ensures within { IfOk result (λ r. r.0 ≤ length heard.now) }
    ensures passed { IfOk result (λ r. IsPassed heard.now r.0) }
    ensures heading { IfOk result (λ r. IsHeading (drop r.0 heard.now) r.1) }
    ensures last { IfOk result (λ r. IsFinal r.1) }
{
    let mut passed = 0;
    loop {
        let (_, rest) = heard.split_at(passed);
        let heading = read_head(alloc, rest, HEAD_LIMIT)?;
        match heading.interim() {
            Some(len) => passed += len,
            None => return Ok((passed, heading)),
        }
    }
}

/// A head has at most `limit` bytes.
fn read_head(alloc: Global, heard: &[u8], limit: usize) -> Result<Heading, OutOfMemory>
    requires { limit ≡ 65536 }
    ensures { IfOk result (IsHeading heard.now) }
{
    if heard.len() <= limit {
        let look = look_at(alloc, heard)?;
        return Ok(heading_of(heard, look));
    }
    match look_at(alloc, &heard[..limit])? {
        Look::Whole(head, framing, len) => Ok(Heading::Whole(head, framing, len)),
        Look::Crowded | Look::NotYet | Look::Never => Ok(Heading::Bad),
    }
}

/// By all bytes heard.
fn heading_of(heard: &[u8], look: Look) -> Heading
    requires short { length heard.now ≤ 65536 }
    requires look { IsLook heard.now look }
    ensures { IsHeading heard.now result }
{
    match look {
        Look::Whole(head, framing, len) => Heading::Whole(head, framing, len),
        Look::Crowded | Look::Never => Heading::Bad,
        Look::NotYet => Heading::NotYet,
    }
}

fn look_at(alloc: Global, front: &[u8]) -> Result<Look, OutOfMemory>
    requires { length front.now ≤ 65536 }
    ensures { IfOk result (IsLook front.now) }
{
    let mut room = [EMPTY_HEADER_SPAN; FIELD_LIMIT];
    match parse_response(front, &mut room) {
        Ok(Status::Complete(spans)) => {
            let head = Head::new(alloc, front, &spans, &room)?;
            let framing = framing_of(&head);
            Ok(Look::Whole(head, framing, spans.len))
        }
        Ok(Status::Partial) => Ok(Look::NotYet),
        Err(Error::TooManyHeaders) => look_in_large_room(alloc, front),
        Err(_) => Ok(Look::Never),
    }
}

/// The same with room for all fields, where there are too many.
fn look_in_large_room(alloc: Global, front: &[u8]) -> Result<Look, OutOfMemory>
    requires short { length front.now ≤ 65536 }
    requires many { ResponseOverflows 100 front.now }
    ensures { IfOk result (IsLook front.now) }
{
    let mut room = Vec::from_elem(alloc, EMPTY_HEADER_SPAN, LARGE_ROOM)?;
    Ok(look_in(front, room.as_mut_slice()))
}

fn look_in(front: &[u8], room: &mut [HeaderSpan]) -> Look
    requires short { length front.now ≤ 65536 }
    requires many { ResponseOverflows 100 front.now }
    requires room { 21846 ≤ length room.old }
    ensures { IsLook front.now result }
{
    match parse_response(front, room) {
        Ok(Status::Complete(_)) => Look::Crowded,
        Ok(Status::Partial) => Look::NotYet,
        Err(Error::TooManyHeaders) => unreachable!(),
        Err(_) => Look::Never,
    }
}
