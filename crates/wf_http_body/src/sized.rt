// Bodies of so many bytes, read as they come.
ghost use Rattle.std.specs.Prelude.{◌≡◌, ◌≤◌, ◌++◌, IfOk, List, ℕ, OnErr, length};
ghost use Rattle.wf_http_body.specs.Lengths.{IsLengthPart, IsLengthRead};

use crate::body::End;
use crate::room::add;
use wf_value::OutOfMemory;

/// Hears a piece of a body of `size` bytes, and adds it to the content. Without memory the content
/// stays.
pub fn read_length(content: &mut Vec<u8>, size: usize, piece: &[u8]) -> Result<End, OutOfMemory>
    ensures kept { OnErr result (content.new.items ≡ content.old.items) }
    ensures read { IfOk result (λ e. (limit : ℕ) (all : List ℕ) → size ≤ limit
        → IsLengthPart size all content.old.items
        → IsLengthRead limit size (all ++ piece.now) content.new.items e) }
{
    let missing = size.saturating_sub(content.len());
    let used = piece.len().min(missing);
    let (taken, _) = piece.split_at(used);
    add(content, taken)?;
    Ok(if used == missing {
        End::Whole
    } else {
        End::More
    })
}
