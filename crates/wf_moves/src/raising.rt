// Errors that are raised.
ghost use Rattle.std.specs.Prelude.{◌≡◌, IfOk, OnOk};
ghost use Rattle.wf_moves.specs.Moved.{Raises};
ghost use Rattle.wf_value.specs.Errors.{error_map};
ghost use Rattle.wf_value.specs.declared.Raise.TheVariants as raised;
ghost use Rattle.wf_value.specs.declared.Tag.{Tag};

use crate::finish::{Turned, Went, turns};
use std::alloc::Global;
use wf_frames::map_of;
use wf_value::{OutOfMemory, Raise, Tag};

/// The error of this tag is raised. It is asked for no error of a request and of branches, whose maps hold more.
pub(crate) fn raises_tag(alloc: Global, tag: Tag) -> Result<Went, OutOfMemory>
    ensures { IfOk result (Raises (error_map tag)) }
{
    turns(alloc, Turned::Raises(map_of(alloc, tag)?))
}

/// The error of an evaluation is raised.
pub(crate) fn fails(alloc: Global, raise: Raise) -> Result<Went, OutOfMemory>
    ensures raised { IfOk result (λ w. (t : Tag) → raise ≡ raised.Error t
        → Raises (error_map t) w) }
    ensures error { OnOk result ((t : Tag) × (raise ≡ raised.Error t)) }
{
    match raise {
        Raise::Error(tag) => raises_tag(alloc, tag),
        Raise::OutOfMemory => Err(OutOfMemory),
    }
}
