// An answer that comes in pieces.
ghost use Rattle.std.specs.Prelude.{◌≡◌, ◌≤◌, [], ◌++◌, List, ℕ, OnErr, OnOk, drop, if◌then◌else◌, is_ok, length, option_map};
ghost use Rattle.wf_value.specs.HttpBody.{Close as Connection, Open as is_open, Ended as has_ended, Broke as is_broken};
ghost use Rattle.wf_http_body.specs.Parts.{IsFresh};
ghost use Rattle.wf_http_in.specs.AnswerOf.{AnswerOf};
ghost use Rattle.wf_http_in.specs.View.{answer_view, close_view};
ghost use Rattle.wf_http_in.specs.declared.stage.Stage.TheVariants.{Head};
ghost use Rattle.wf_http_in.specs.Stages.{GoesOn, HasHeard, IsBodyBy, IsSame, KeepsLittle, Leaves, settled, unfinished};

use crate::Answer;
use crate::body::read_body;
use crate::framing::Framing;
use crate::heads::{Heading, find_head};
use crate::stage::Stage;
use std::alloc::Global;
use std::mem;
use wf_http_body::{Chunks, End};
use wf_value::OutOfMemory;

/// An answer, as it is heard piece by piece (RFC 9112). Its pieces may be cut anywhere: the answer
/// depends on all bytes heard alone, and on how the connection stands. Of an answer that is settled
/// its head and its body alone are kept, and nothing of one that is broken or too long.
///
/// A head that isn't whole is read anew with each piece, so one of 65,536 bytes that comes byte by
/// byte costs some 2,000,000,000 steps; so is the line of a chunk, of at most 4,096 bytes, and the
/// trailer fields, of at most 65,536. Else each byte is read once, and copied once.
#[derive(Drop)]
pub struct Reading {
    stage: Stage,
    // Bytes of a head that isn't whole.
    unread: Vec<u8>,
    // How far a body in chunks was read.
    chunks: Chunks,
    // The body so far.
    content: Vec<u8>,
    close: Close,
}

/// How the connection stands.
#[derive(Clone, Copy)]
pub(crate) enum Close {
    Open,
    Ended,
    Broke,
}

impl Reading {
    /// A reading that has heard nothing, of an open connection.
    pub fn new(alloc: Global) -> Reading
        ensures { HasHeard result [] is_open }
    {
        Reading {
            stage: Stage::Head,
            unread: Vec::new(alloc),
            chunks: Chunks::new(alloc),
            content: Vec::new(alloc),
            close: Close::Open,
        }
    }

    /// Hears the next piece, of any length. Without memory nothing is heard.
    pub fn feed(&mut self, piece: &[u8]) -> Result<(), OutOfMemory>
        ensures { (heard : List ℕ) (close : Connection) → HasHeard self.old heard close
            → HasHeard self.new (if is_ok result then heard ++ piece.now else heard) close }
    {
        match &self.stage {
            Stage::Head => self.hear_head(piece),
            Stage::Body(_, framing) => {
                let framing = *framing;
                self.hear_body(framing, piece)
            }
            Stage::Whole(_) | Stage::Bad | Stage::TooLong => Ok(()),
        }
    }

    /// Hears that the connection has ended.
    pub fn end(&mut self)
        ensures { (heard : List ℕ) (close : Connection) → HasHeard self.old heard close
            → HasHeard self.new heard has_ended }
    {
        self.close = Close::Ended;
    }

    /// Hears that the connection is broken, or was refused.
    pub fn broke(&mut self)
        ensures { (heard : List ℕ) (close : Connection) → HasHeard self.old heard close
            → HasHeard self.new heard is_broken }
    {
        self.close = Close::Broke;
    }

    /// The answer of all bytes heard, however they were cut, and of how the connection stands.
    /// There is none exactly where the connection is open and more has to come.
    pub fn answer(&self) -> Option<Answer<'_>>
        ensures { (heard : List ℕ) (close : Connection) → HasHeard self.now heard close
            → AnswerOf heard close (option_map answer_view result) }
    {
        match &self.stage {
            Stage::Head => self.unfinished(),
            Stage::Body(head, framing) => match framing {
                Framing::ToTheEnd => match self.close {
                    Close::Open => None,
                    Close::Ended => Some(Answer::Response(head, self.content.as_slice())),
                    Close::Broke => Some(Answer::Broken),
                },
                _ => self.unfinished(),
            },
            Stage::Whole(head) => Some(Answer::Response(head, self.content.as_slice())),
            Stage::Bad => Some(Answer::Broken),
            Stage::TooLong => Some(Answer::TooLong),
        }
    }
}

impl Reading {
    /// The answer where neither a head nor a body is whole.
    fn unfinished(&self) -> Option<Answer<'_>>
        ensures { option_map answer_view result ≡ unfinished (close_view self.now.close) }
    {
        match self.close {
            Close::Open => None,
            Close::Ended | Close::Broke => Some(Answer::Broken),
        }
    }

    /// Hears a piece behind a head that isn't whole.
    fn hear_head(&mut self, piece: &[u8]) -> Result<(), OutOfMemory>
        requires { self.old.stage ≡ Head }
        ensures { (heard : List ℕ) (close : Connection) → HasHeard self.old heard close
            → HasHeard self.new (if is_ok result then heard ++ piece.now else heard) close }
    {
        let length = self.unread.len();
        let read = self.read_head(piece);
        if read.is_err() {
            self.unread.truncate(length);
        }
        read
    }

    /// The same, where without memory more bytes may stand behind those of the head.
    fn read_head(&mut self, piece: &[u8]) -> Result<(), OutOfMemory>
        requires { self.old.stage ≡ Head }
        ensures kept { OnErr result (IsSame self.old self.new) }
        ensures close { self.new.close ≡ self.old.close }
        ensures read { OnOk result (GoesOn self.old piece.now self.new) }
    {
        let begun = self.unread.len();
        let (passed, heading) = find_head(&mut self.unread, piece)?;
        match heading {
            Heading::NotYet => self.pass(passed),
            Heading::Bad => self.refuse(Stage::Bad),
            Heading::Whole(head, framing, len) => {
                let (_, rest) = piece.split_at((passed + len).saturating_sub(begun));
                let end = read_body(&mut self.chunks, &mut self.content, framing, rest)?;
                let alloc = *self.unread.allocator();
                self.unread = Vec::new(alloc);
                self.stage = Stage::Body(head, framing);
                self.settle(end);
            }
        }
        Ok(())
    }

    /// Hears a piece of a body.
    fn hear_body(&mut self, framing: Framing, piece: &[u8]) -> Result<(), OutOfMemory>
        requires { IsBodyBy framing self.old.stage }
        ensures { (heard : List ℕ) (close : Connection) → HasHeard self.old heard close
            → HasHeard self.new (if is_ok result then heard ++ piece.now else heard) close }
    {
        let end = read_body(&mut self.chunks, &mut self.content, framing, piece)?;
        self.settle(end);
        Ok(())
    }

    /// Goes to the stage behind an end.
    fn settle(&mut self, end: End)
        ensures stage { self.new.stage ≡ settled end self.old.stage }
        ensures left { Leaves end self.old.chunks self.new.chunks self.old.content.items
            self.new.content.items }
        ensures little { KeepsLittle self.old.stage self.old.unread.items self.old.chunks
            self.old.content.items
            → KeepsLittle self.new.stage self.new.unread.items self.new.chunks
            self.new.content.items }
        ensures close { self.new.close ≡ self.old.close }
    {
        match end {
            End::More => {}
            End::Whole => {
                let alloc = *self.content.allocator();
                self.chunks = Chunks::new(alloc);
                let stage = mem::replace(&mut self.stage, Stage::Bad);
                self.stage = stage.whole();
            }
            End::Bad => self.refuse(Stage::Bad),
            End::TooLarge => self.refuse(Stage::TooLong),
        }
    }

    /// So many bytes of interim heads were read.
    fn pass(&mut self, used: usize)
        requires { used ≤ length self.old.unread.items }
        ensures stage { self.new.stage ≡ self.old.stage }
        ensures unread { self.new.unread.items ≡ drop used self.old.unread.items }
        ensures chunks { self.new.chunks ≡ self.old.chunks }
        ensures content { self.new.content.items ≡ self.old.content.items }
        ensures close { self.new.close ≡ self.old.close }
    {
        if used > 0 {
            let left = self.unread.len() - used;
            self.unread.rotate_left(used);
            self.unread.truncate(left);
        }
    }

    /// What was heard isn't wanted any more, so nothing of it is kept.
    fn refuse(&mut self, stage: Stage)
        ensures stage { self.new.stage ≡ stage }
        ensures unread { self.new.unread.items ≡ [] }
        ensures chunks { IsFresh self.new.chunks }
        ensures content { self.new.content.items ≡ [] }
        ensures close { self.new.close ≡ self.old.close }
    {
        let alloc = *self.content.allocator();
        self.unread = Vec::new(alloc);
        self.chunks = Chunks::new(alloc);
        self.content = Vec::new(alloc);
        self.stage = stage;
    }
}
