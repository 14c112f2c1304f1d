// What the innermost frame does, as far as frames go.
ghost use Rattle.std.specs.Prelude.{◌≡◌, List, IfOk, OnOk};
ghost use Rattle.wf_eval.specs.Sight.{seen};
ghost use Rattle.wf_frames.specs.Fits.{Fits};
ghost use Rattle.wf_frames.specs.Foreseen.{Foresees};
ghost use Rattle.wf_frames.specs.Frames.{inner};
ghost use Rattle.wf_frames.specs.Owned.{own_of};
ghost use Rattle.wf_frames.specs.Built.{IsTableOf};
ghost use Rattle.wf_frames.specs.Steps.{HasStepOnTop, IsReady, Issues, Moves, WantsSame};
ghost use Rattle.wf_model.specs.Spots.{Spot};

use crate::step::{Step, carry_out};
use crate::{Frames, Next};
use std::alloc::Global;
use wf_eval::Look;
use wf_model::Node;
use wf_value::OutOfMemory;

/// The innermost frame's step, but for a loop's.
#[inline(always)]
pub fn step_of<K: Look>(
    alloc: Global,
    nodes: &[Node],
    frames: &mut Frames,
    look: &K,
    now: u64,
) -> Result<Step, OutOfMemory>
    ghost ns: { List Spot }
    requires tells { IsTableOf ns nodes.now }
    requires step { HasStepOnTop nodes.now (inner frames.old) }
    requires next { Foresees nodes.now frames.old }
    requires fits { Fits ns nodes.now (inner frames.old) }
    ensures moves { IfOk result
        (Moves ns (inner frames.old) (seen (K.sight look.now) now) (inner frames.new)) }
    ensures issues { IfOk result
        (Issues ns (inner frames.old) (seen (K.sight look.now) now) (inner frames.new)) }
    ensures same { IfOk result (WantsSame ns (inner frames.old)) }
    ensures fits { OnOk result (Fits ns nodes.now (inner frames.new)) }
    ensures own { OnOk result (own_of frames.new ≡ own_of frames.old) }
    ensures ready { IfOk result (IsReady ns nodes.now (inner frames.new)) }
{
    match frames.next() {
        Next::Body(n) => {
            frames.go_on();
            carry_out(alloc, nodes, n, frames, look, now)
        }
        Next::Entry(n) => {
            frames.go_on();
            Ok(Step::Assigns(n))
        }
        Next::Then(n) => {
            frames.pop();
            Ok(Step::Jumps(n))
        }
        Next::Nothing | Next::Loop | Next::Back => unreachable!(),
    }
}
