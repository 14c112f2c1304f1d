// Frames that are left.
ghost use Rattle.std.specs.Prelude.{◌≡◌};
ghost use Rattle.wf_frames.specs.Frames.{inner};
ghost use Rattle.wf_frames.specs.Owned.{Around, IsLinked, held_by, own_of};
ghost use Rattle.wf_frames.specs.Turns.{Leaves};

use crate::frames::Frames;
use wf_scope::{Chain, Scopes};

/// The innermost frame is left, with its layer if it has one; whether there was one.
#[inline(always)]
pub fn leave(frames: &mut Frames, scopes: &mut Scopes) -> bool
    ghost around: { Around }
    requires { IsLinked around (own_of frames.old) scopes.old }
    ensures left { Leaves result (inner frames.old) (held_by around frames.old scopes.old)
        (inner frames.new) (held_by around frames.new scopes.new) }
    ensures linked { IsLinked around (own_of frames.new) scopes.new }
{
    let Some(frame) = frames.pop() else {
        return false;
    };
    match frame.mark() {
        Some(number) => {
            scopes.close(Chain { number });
            true
        }
        None => true,
    }
}
