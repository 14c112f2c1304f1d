// Bodies of answers, read as they come.
ghost use Rattle.std.specs.Prelude.{◌≡◌, ◌≢◌, ◌++◌, IfOk, List, OnErr, ℕ};
ghost use Rattle.wf_value.specs.HttpBody as plain;
ghost use Rattle.wf_http_body.specs.declared.body.Chunks.{Chunks as ChunksRead};
ghost use Rattle.wf_http_body.specs.Parts.{IsSame};
ghost use Rattle.wf_http_in.specs.declared.framing.Framing.TheVariants.{InChunks, ToTheEnd};
ghost use Rattle.wf_http_in.specs.Found.{IsFramed};
ghost use Rattle.wf_http_in.specs.Stages.{IsPartOf, IsRead};

use crate::framing::{BODY_LIMIT, Framing};
use wf_http_body::{Chunks, End, add, read_length};
use wf_value::OutOfMemory;

/// Hears a piece of a body, and adds its content to that so far. Without memory nothing is heard.
pub(crate) fn read_body(
    chunks: &mut Chunks,
    content: &mut Vec<u8>,
    framing: Framing,
    piece: &[u8],
) -> Result<End, OutOfMemory>
    ensures kept { OnErr result (IsSame chunks.old chunks.new) }
    ensures content { OnErr result (content.new.items ≡ content.old.items) }
    ensures chunks { (framing ≢ InChunks) → chunks.new ≡ chunks.old }
    ensures read { IfOk result (λ e. (f : plain.Framing) (all : List ℕ) → IsFramed framing f
        → IsPartOf framing chunks.old all content.old.items
        → IsRead framing f chunks.new (all ++ piece.now) content.new.items e) }
{
    match framing {
        Framing::Empty => Ok(End::Whole),
        Framing::TooLong => Ok(End::TooLarge),
        Framing::Bad => Ok(End::Bad),
        Framing::OfLength(length) => read_length(content, length, piece),
        Framing::ToTheEnd => read_all(content, piece),
        Framing::InChunks => chunks.feed(content, piece, BODY_LIMIT),
    }
}

/// The same of a body that goes to the connection's end.
fn read_all(content: &mut Vec<u8>, piece: &[u8]) -> Result<End, OutOfMemory>
    ensures kept { OnErr result (content.new.items ≡ content.old.items) }
    ensures read { IfOk result (λ e. (f : plain.Framing) (c : ChunksRead) (all : List ℕ)
        → IsFramed ToTheEnd f → IsPartOf ToTheEnd c all content.old.items
        → IsRead ToTheEnd f c (all ++ piece.now) content.new.items e) }
{
    if piece.len() > BODY_LIMIT.saturating_sub(content.len()) {
        return Ok(End::TooLarge);
    }
    add(content, piece)?;
    Ok(End::More)
}
