// Bodies of requests, read as they come.
ghost use Rattle.std.specs.Prelude.{◌≡◌, ◌≢◌, ◌++◌, IfOk, List, ℕ, OnErr};
ghost use Rattle.wf_value.specs.HttpBody as plain;
ghost use Rattle.wf_http_body.specs.Parts.{IsSame};
ghost use Rattle.wf_http_serve.specs.declared.framing.Framing.TheVariants.{InChunks};
ghost use Rattle.wf_http_serve.specs.Plain.{IsFramed};
ghost use Rattle.wf_http_serve.specs.Stages.{IsPartOf, IsRead};

use crate::framing::{BODY_LIMIT, Framing};
use wf_http_body::{Chunks, End, read_length};
use wf_value::OutOfMemory;

/// Hears a piece of a body, and adds its content to that so far. Without memory nothing is heard.
pub(crate) fn read_body(
    chunks: &mut Chunks,
    content: &mut Vec<u8>,
    framing: Framing,
    piece: &[u8],
) -> Result<End, OutOfMemory>
    ensures kept { OnErr result (IsSame chunks.old chunks.new) }
    ensures content { OnErr result (content.new.items ≡ content.old.items) }
    ensures chunks { (framing ≢ InChunks) → chunks.new ≡ chunks.old }
    ensures read { IfOk result (λ e. (f : plain.Framing) (all : List ℕ) → IsFramed framing f
        → IsPartOf framing chunks.old all content.old.items
        → IsRead framing f chunks.new (all ++ piece.now) content.new.items e) }
{
    match framing {
        Framing::Empty => Ok(End::Whole),
        Framing::TooLarge => Ok(End::TooLarge),
        Framing::Bad => Ok(End::Bad),
        Framing::OfLength(length) => read_length(content, length, piece),
        Framing::InChunks => chunks.feed(content, piece, BODY_LIMIT),
    }
}
