// The parts of a body in chunks (RFC 9112, section 7.1), one by one.
ghost use Rattle.std.specs.Prelude.{◌<◌, ◌≤◌, IfOk, ℕ, length};
ghost use Rattle.wf_http_body.specs.declared.chunk.Place.TheVariants as place;
ghost use Rattle.wf_http_body.specs.Found.{IsLineEnd, IsStepWithin, Steps};

use crate::body::End;
use crate::trailer::{Section, read_trailer};
use httparse::{Status, parse_chunk_size};
use std::alloc::Global;
use wf_value::OutOfMemory;

/// The greatest length of a chunk's line, with its line end.
const LINE_LIMIT: usize = 4096;

/// The greatest length of trailer fields.
const TRAILER_LIMIT: usize = 65_536;

/// What comes next of a body in chunks.
#[derive(Debug, Clone, Copy, PartialEq, Eq)]
pub(crate) enum Place {
    // A chunk's line.
    Line,
    // So many bytes of a chunk's content, and the CR LF behind it.
    Content(u64),
    // The trailer fields, behind the last chunk's line.
    Trailer,
}

impl Place {
    /// How many bytes of a piece are wanted here: to the end of a line, or all of them for the
    /// trailer fields.
    pub(crate) fn front(self, piece: &[u8]) -> usize
        requires { 0 < length piece.now }
        ensures some { 0 < result }
        ensures within { result ≤ length piece.now }
    {
        match self {
            Place::Line | Place::Content(_) => line_length(piece),
            Place::Trailer => piece.len(),
        }
    }
}

/// How far the first line goes.
fn line_length(piece: &[u8]) -> usize
    requires { 0 < length piece.now }
    ensures some { 0 < result }
    ensures within { result ≤ length piece.now }
{
    for i in 0..piece.len() {
        if piece[i] == b'\n' {
            return i + 1;
        }
    }
    piece.len()
}

/// What stands at the front of bytes.
#[derive(Clone, Copy)]
pub(crate) enum Step {
    // So many bytes that are no content, and what comes next.
    Passes(usize, Place),
    // So many bytes of content, and what comes next.
    Takes(usize, Place),
    // No whole part.
    Ends(End),
}

/// The content may have `room` bytes more.
pub(crate) fn read_step(
    alloc: Global,
    place: Place,
    heard: &[u8],
    room: usize,
) -> Result<Step, OutOfMemory>
    ensures step { IfOk result (Steps place heard.now room) }
    ensures within { IfOk result (IsStepWithin heard.now) }
{
    match place {
        Place::Line => Ok(read_line(heard)),
        Place::Content(0) => Ok(read_end(heard)),
        Place::Content(left) => Ok(read_content(heard, left, room)),
        Place::Trailer => read_last(alloc, heard),
    }
}

fn read_line(heard: &[u8]) -> Step
    ensures step { (room : ℕ) → Steps place.Line heard.now room result }
    ensures within { IsStepWithin heard.now result }
{
    match parse_chunk_size(heard) {
        Ok(Status::Complete((start, _))) if start > LINE_LIMIT => Step::Ends(End::Bad),
        Ok(Status::Complete((start, 0))) => Step::Passes(start, Place::Trailer),
        Ok(Status::Complete((start, size))) => Step::Passes(start, Place::Content(size)),
        Ok(Status::Partial) if heard.len() > LINE_LIMIT => Step::Ends(End::Bad),
        Ok(Status::Partial) => Step::Ends(End::More),
        Err(_) => Step::Ends(End::Bad),
    }
}

/// Of a chunk whose content isn't whole.
fn read_content(heard: &[u8], left: u64, room: usize) -> Step
    requires { 1 ≤ left }
    ensures step { Steps (place.Content left) heard.now room result }
    ensures within { IsStepWithin heard.now result }
{
    if heard.is_empty() {
        return Step::Ends(End::More);
    }
    let taken = left.min(heard.len() as u64);
    if taken > room as u64 {
        return Step::Ends(End::TooLarge);
    }
    Step::Takes(taken as usize, Place::Content(left - taken))
}

/// Behind a chunk's content.
fn read_end(heard: &[u8]) -> Step
    ensures step { (room : ℕ) → Steps (place.Content 0) heard.now room result }
    ensures within { IsStepWithin heard.now result }
{
    match end_of(heard) {
        LineEnd::Whole => Step::Passes(2, Place::Line),
        LineEnd::NotYet => Step::Ends(End::More),
        LineEnd::Wrong => Step::Ends(End::Bad),
    }
}

/// Behind the line of the last chunk.
fn read_last(alloc: Global, heard: &[u8]) -> Result<Step, OutOfMemory>
    ensures step { IfOk result (λ s. (room : ℕ) → Steps place.Trailer heard.now room s) }
    ensures within { IfOk result (IsStepWithin heard.now) }
{
    Ok(match read_trailer(alloc, heard, TRAILER_LIMIT)? {
        Section::Whole => Step::Ends(End::Whole),
        Section::NotYet => Step::Ends(End::More),
        Section::Bad => Step::Ends(End::Bad),
    })
}

/// The CR LF behind a chunk's content.
#[derive(Clone, Copy)]
pub(crate) enum LineEnd {
    Whole,
    NotYet,
    Wrong,
}

fn end_of(heard: &[u8]) -> LineEnd
    ensures { IsLineEnd heard.now result }
{
    if heard.is_empty() {
        return LineEnd::NotYet;
    }
    if heard[0] != b'\r' {
        return LineEnd::Wrong;
    }
    if heard.len() == 1 {
        return LineEnd::NotYet;
    }
    if heard[1] != b'\n' {
        return LineEnd::Wrong;
    }
    LineEnd::Whole
}
