// A request that comes in pieces.
ghost use Rattle.std.specs.Prelude.{◌≡◌, [], ◌++◌, List, ℕ, OnErr, OnOk, if◌then◌else◌, is_ok};
ghost use Rattle.wf_value.specs.HttpBody.{Close, Ended, Open};
ghost use Rattle.wf_http_body.specs.Parts.{IsFresh};
ghost use Rattle.wf_http_serve.specs.Plain.{plain_state};
ghost use Rattle.wf_http_serve.specs.declared.stage.Stage.TheVariants.{Head};
ghost use Rattle.wf_http_serve.specs.Stages.{GoesOn, HasHeard, IsBodyBy, IsSame, KeepsLittle, Leaves, settled};
ghost use Rattle.wf_http_serve.specs.Visits.{VisitOf};

use crate::asker::{Asker, VisitState};
use crate::body::read_body;
use crate::framing::Framing;
use crate::head::{Heading, find_head};
use crate::stage::Stage;
use std::alloc::Global;
use std::mem;
use wf_http_body::{Chunks, End};
use wf_value::OutOfMemory;

/// What of a request that comes to a callback was heard so far (RFC 9112). Its pieces may be cut
/// anywhere: what is known depends on all bytes heard alone. Of a request that is whole its head and
/// its body alone are kept, and nothing of one that is bad or too large.
///
/// A head that isn't whole is read anew with each piece, so one of 65,536 bytes that comes byte by
/// byte costs some 2,000,000,000 steps; so are the line of a chunk, of at most 4,096 bytes, and the
/// trailer fields, of at most 65,536. Else each byte is read once, and copied once.
#[derive(Drop)]
pub struct Visit {
    stage: Stage,
    // Bytes of a head that isn't whole.
    unread: Vec<u8>,
    // How far a body in chunks was read.
    chunks: Chunks,
    // The body so far.
    content: Vec<u8>,
    is_ended: bool,
}

impl Visit {
    /// A visit of which nothing was heard.
    pub fn new(alloc: Global) -> Visit
        ensures { HasHeard result [] Open }
    {
        Visit {
            stage: Stage::Head,
            unread: Vec::new(alloc),
            chunks: Chunks::new(alloc),
            content: Vec::new(alloc),
            is_ended: false,
        }
    }

    /// Hears a piece. Without memory nothing is heard.
    pub fn feed(&mut self, piece: &[u8]) -> Result<(), OutOfMemory>
        ensures { (heard : List ℕ) (close : Close) → HasHeard self.old heard close
            → HasHeard self.new (if is_ok result then heard ++ piece.now else heard) close }
    {
        match &self.stage {
            Stage::Head => self.hear_head(piece),
            Stage::Body(_, framing) => {
                let framing = *framing;
                self.hear_body(framing, piece)
            }
            Stage::Asked(_) | Stage::Bad | Stage::TooLarge => Ok(()),
        }
    }

    /// Hears the end of the connection.
    pub fn end(&mut self)
        ensures { (heard : List ℕ) (close : Close) → HasHeard self.old heard close
            → HasHeard self.new heard Ended }
    {
        self.is_ended = true;
    }

    /// What is known of all that was heard.
    pub fn state(&self) -> VisitState<'_>
        ensures { (heard : List ℕ) (close : Close) → HasHeard self.now heard close
            → VisitOf heard close (plain_state result) }
    {
        match &self.stage {
            Stage::Head | Stage::Body(_, _) => {
                if self.is_ended {
                    VisitState::Bad
                } else {
                    VisitState::NotYet
                }
            }
            Stage::Asked(request) => VisitState::Asked(Asker {
                request,
                body: self.content.as_slice(),
            }),
            Stage::Bad => VisitState::Bad,
            Stage::TooLarge => VisitState::TooLarge,
        }
    }
}

impl Visit {
    /// Hears a piece behind a head that isn't whole.
    fn hear_head(&mut self, piece: &[u8]) -> Result<(), OutOfMemory>
        requires { self.old.stage ≡ Head }
        ensures { (heard : List ℕ) (close : Close) → HasHeard self.old heard close
            → HasHeard self.new (if is_ok result then heard ++ piece.now else heard) close }
    {
        let length = self.unread.len();
        let read = self.read_head(piece);
        if read.is_err() {
            self.unread.truncate(length);
        }
        read
    }

    /// The same, where without memory more bytes may stand behind those of the head.
    fn read_head(&mut self, piece: &[u8]) -> Result<(), OutOfMemory>
        requires { self.old.stage ≡ Head }
        ensures kept { OnErr result (IsSame self.old self.new) }
        ensures ended { self.new.is_ended ≡ self.old.is_ended }
        ensures read { OnOk result (GoesOn self.old piece.now self.new) }
    {
        let begun = self.unread.len();
        match find_head(&mut self.unread, piece)? {
            Heading::NotYet => {}
            Heading::Bad => self.refuse(Stage::Bad),
            Heading::Whole(request, framing, len) => {
                let (_, rest) = piece.split_at(len.saturating_sub(begun));
                let end = read_body(&mut self.chunks, &mut self.content, framing, rest)?;
                let alloc = *self.unread.allocator();
                self.unread = Vec::new(alloc);
                self.stage = Stage::Body(request, framing);
                self.settle(end);
            }
        }
        Ok(())
    }

    /// Hears a piece of a body.
    fn hear_body(&mut self, framing: Framing, piece: &[u8]) -> Result<(), OutOfMemory>
        requires { IsBodyBy framing self.old.stage }
        ensures { (heard : List ℕ) (close : Close) → HasHeard self.old heard close
            → HasHeard self.new (if is_ok result then heard ++ piece.now else heard) close }
    {
        let end = read_body(&mut self.chunks, &mut self.content, framing, piece)?;
        self.settle(end);
        Ok(())
    }

    /// Goes to the stage behind an end.
    fn settle(&mut self, end: End)
        ensures stage { self.new.stage ≡ settled end self.old.stage }
        ensures left { Leaves end self.old.chunks self.new.chunks self.old.content.items
            self.new.content.items }
        ensures little { KeepsLittle self.old.stage self.old.unread.items self.old.chunks
            self.old.content.items
            → KeepsLittle self.new.stage self.new.unread.items self.new.chunks
            self.new.content.items }
        ensures ended { self.new.is_ended ≡ self.old.is_ended }
    {
        match end {
            End::More => {}
            End::Whole => {
                let alloc = *self.content.allocator();
                self.chunks = Chunks::new(alloc);
                let stage = mem::replace(&mut self.stage, Stage::Bad);
                self.stage = stage.whole();
            }
            End::Bad => self.refuse(Stage::Bad),
            End::TooLarge => self.refuse(Stage::TooLarge),
        }
    }

    /// What was heard isn't wanted any more, so nothing of it is kept.
    fn refuse(&mut self, stage: Stage)
        ensures stage { self.new.stage ≡ stage }
        ensures unread { self.new.unread.items ≡ [] }
        ensures chunks { IsFresh self.new.chunks }
        ensures content { self.new.content.items ≡ [] }
        ensures ended { self.new.is_ended ≡ self.old.is_ended }
    {
        let alloc = *self.content.allocator();
        self.unread = Vec::new(alloc);
        self.chunks = Chunks::new(alloc);
        self.content = Vec::new(alloc);
        self.stage = stage;
    }
}
