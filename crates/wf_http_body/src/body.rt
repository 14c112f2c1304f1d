// Bodies in chunks, read as they come.
ghost use Rattle.std.specs.Prelude.{◌≡◌, ◌<◌, ◌≤◌, [], ◌++◌, IfOk, List, ℕ, OnErr, drop, length, take};
ghost use Rattle.wf_http_body.specs.declared.body.End.TheVariants.{More};
ghost use Rattle.wf_http_body.specs.Parts.{IsFresh, IsOpenBody, IsOpenPart, IsPart, IsRead, IsSame, ReadsBody};

use crate::chunk::{Place, Step, read_step};
use crate::room::add;
use std::alloc::Global;
use wf_value::OutOfMemory;

/// What comes of a body.
#[derive(Debug, Clone, Copy, PartialEq, Eq)]
pub enum End {
    /// More has to come.
    More,
    /// The body is whole.
    Whole,
    /// A chunk is malformed.
    Bad,
    /// It has more bytes than the limit.
    TooLarge,
}

/// How many bytes were read, what is read next, and what comes of the body.
#[derive(Clone, Copy)]
pub(crate) struct Read {
    used: usize,
    place: Place,
    end: End,
}

/// How far a body in chunks was read (RFC 9112, section 7.1). Of its bytes it keeps a line, a line
/// end or trailer fields that aren't whole: at most 4,096 bytes of a line and 65,536 of a trailer.
#[derive(Drop)]
pub struct Chunks {
    place: Place,
    // Bytes that are still to be read.
    unread: Vec<u8>,
}

impl Chunks {
    /// A body of which nothing was heard.
    pub fn new(alloc: Global) -> Chunks
        ensures { IsFresh result }
    {
        Chunks {
            place: Place::Line,
            unread: Vec::new(alloc),
        }
    }

    /// Hears a piece of a body, and adds what it has of the content, which is at most `limit`
    /// bytes long. Without memory nothing is heard, and the content stays.
    pub fn feed(
        &mut self,
        content: &mut Vec<u8>,
        piece: &[u8],
        limit: usize,
    ) -> Result<End, OutOfMemory>
        ensures kept { OnErr result (IsSame self.old self.new) }
        ensures content { OnErr result (content.new.items ≡ content.old.items) }
        ensures read { IfOk result (λ e. (all : List ℕ)
            → IsOpenBody limit self.old all content.old.items
            → ReadsBody limit self.new (all ++ piece.now) content.new.items e) }
    {
        let unread = self.unread.len();
        let length = content.len();
        match read_piece(self.place, &mut self.unread, content, piece, limit) {
            Ok(read) => {
                self.settle(read);
                Ok(read.end)
            }
            Err(error) => {
                self.unread.truncate(unread);
                content.truncate(length);
                Err(error)
            }
        }
    }

    /// Takes what was read. Of a body that is settled nothing is kept.
    fn settle(&mut self, read: Read)
        requires { read.used ≤ length self.old.unread.items }
        ensures { (limit : ℕ) (all content : List ℕ)
            → IsRead limit read.place all (drop read.used self.old.unread.items) content read.end
            → ReadsBody limit self.new all content read.end }
    {
        self.place = read.place;
        match read.end {
            End::More => self.pass(read.used),
            End::Whole | End::Bad | End::TooLarge => self.unread.clear(),
        }
    }

    /// So many unread bytes were read.
    fn pass(&mut self, used: usize)
        requires { used ≤ length self.old.unread.items }
        ensures place { self.new.place ≡ self.old.place }
        ensures unread { self.new.unread.items ≡ drop used self.old.unread.items }
    {
        if used > 0 {
            let left = self.unread.len() - used;
            self.unread.rotate_left(used);
            self.unread.truncate(left);
        }
    }
}

/// Reads a piece behind unread bytes. Without memory these and the content may have grown.
fn read_piece(
    place: Place,
    unread: &mut Vec<u8>,
    content: &mut Vec<u8>,
    piece: &[u8],
    limit: usize,
) -> Result<Read, OutOfMemory>
    ensures unread { take (length unread.old.items) unread.new.items ≡ unread.old.items }
    ensures content { take (length content.old.items) content.new.items ≡ content.old.items }
    ensures within { IfOk result (λ r. r.used ≤ length unread.new.items) }
    ensures read { IfOk result (λ r. (all : List ℕ)
        → IsOpenPart limit place all unread.old.items content.old.items
        → IsRead limit r.place (all ++ piece.now) (drop r.used unread.new.items) content.new.items
        r.end) }
{
    let (read, heard) = read_begun(place, unread, content, piece, limit)?;
    match read.end {
        End::Whole | End::Bad | End::TooLarge => return Ok(read),
        End::More => {}
    }
    if heard == piece.len() {
        return Ok(read);
    }
    let alloc = *unread.allocator();
    let (_, rest) = piece.split_at(heard);
    let more = read_parts(alloc, read.place, content, rest, limit)?;
    let (_, behind) = rest.split_at(more.used);
    add(unread, behind)?;
    Ok(Read {
        used: read.used,
        place: more.place,
        end: more.end,
    })
}

/// Reads what the unread bytes begin, with as many bytes of a piece as that takes, and tells how
/// many these are. Then all is read, or nothing more of the piece is there.
fn read_begun(
    place: Place,
    unread: &mut Vec<u8>,
    content: &mut Vec<u8>,
    piece: &[u8],
    limit: usize,
) -> Result<(Read, usize), OutOfMemory>
    ensures unread { take (length unread.old.items) unread.new.items ≡ unread.old.items }
    ensures content { take (length content.old.items) content.new.items ≡ content.old.items }
    ensures within { IfOk result (λ r. r.0.used ≤ length unread.new.items) }
    ensures piece { IfOk result (λ r. r.1 ≤ length piece.now) }
    ensures read { IfOk result (λ r. (all : List ℕ)
        → IsOpenPart limit place all unread.old.items content.old.items
        → IsRead limit r.0.place (all ++ take r.1 piece.now) (drop r.0.used unread.new.items)
        content.new.items r.0.end) }
    ensures all { IfOk result (λ r. r.0.end ≡ More → r.1 < length piece.now
        → drop r.0.used unread.new.items ≡ []) }
{
    let alloc = *unread.allocator();
    let mut used = 0;
    let mut next = place;
    let mut heard = 0;
    while used < unread.len() && heard < piece.len() {
        let (_, rest) = piece.split_at(heard);
        let (front, _) = rest.split_at(next.front(rest));
        add(unread, front)?;
        heard += front.len();
        let (_, begun) = unread.as_slice().split_at(used);
        let read = read_parts(alloc, next, content, begun, limit)?;
        used += read.used;
        next = read.place;
        match read.end {
            End::Whole | End::Bad | End::TooLarge => {
                let end = read.end;
                let place = next;
                return Ok((Read { used, place, end }, heard));
            }
            End::More => {}
        }
    }
    let read = Read {
        used,
        place: next,
        end: End::More,
    };
    Ok((read, heard))
}

/// Reads from a place on, as far as the bytes go. Without memory the content may have grown.
fn read_parts(
    alloc: Global,
    from: Place,
    content: &mut Vec<u8>,
    heard: &[u8],
    limit: usize,
) -> Result<Read, OutOfMemory>
    ensures grown { take (length content.old.items) content.new.items ≡ content.old.items }
    ensures within { IfOk result (λ r. r.used ≤ length heard.now) }
    ensures read { IfOk result (λ r. (all : List ℕ)
        → IsPart limit from all heard.now content.old.items
        → IsRead limit r.place all (drop r.used heard.now) content.new.items r.end) }
{
    let mut place = from;
    let mut used = 0;
    loop {
        let (_, rest) = heard.split_at(used);
        let room = limit.saturating_sub(content.len());
        match read_step(alloc, place, rest, room)? {
            Step::Passes(length, next) => {
                used += length;
                place = next;
            }
            Step::Takes(length, next) => {
                let (taken, _) = rest.split_at(length);
                add(content, taken)?;
                used += length;
                place = next;
            }
            Step::Ends(end) => return Ok(Read { used, place, end }),
        }
    }
}
