//! What frames are as parts of a state.
#![tactic(auto)]

ghost use Rattle.wf_frame_parts.specs.FrameParts.{PartsStand};

/// The parts of frames stand for the items that the frames stand for.
pub fn frames_are_their_parts()
    ensures { PartsStand }
{}
