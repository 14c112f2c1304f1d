// Room for fields and bytes.
ghost use Rattle.std.specs.Prelude.{◌≡◌, ◌++◌, OnErr, OnOk};

use wf_value::OutOfMemory;

/// How many fields a head, or the trailer of a body in chunks, may have.
pub const FIELD_LIMIT: usize = 100;

/// Room for all fields of 65,536 bytes: a field has three bytes at least.
pub const LARGE_ROOM: usize = 21_846;

/// Adds bytes at the end of others. Without memory those stay.
pub fn add(bytes: &mut Vec<u8>, more: &[u8]) -> Result<(), OutOfMemory>
    ensures added { OnOk result (bytes.new.items ≡ bytes.old.items ++ more.now) }
    ensures kept { OnErr result (bytes.new.items ≡ bytes.old.items) }
{
    bytes.extend_from_slice(more)?;
    Ok(())
}
