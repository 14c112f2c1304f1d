// Why a source is refused.
ghost use Rattle.std.specs.Prelude.{◌≡◌, IfOk};
ghost use Rattle.wf_status.specs.Refusals.{refusal_text};
ghost use Rattle.wf_status.specs.Statuses.{line_end};

use crate::{Place, RefusalKind};
use std::alloc::Global;
use wf_value::{OutOfMemory, Text};

/// Why a source is refused: the first fault in it, and where this stands.
#[derive(Drop)]
pub struct Refusal {
    pub kind: RefusalKind,
    pub place: Place,
}

impl Refusal {
    /// The line that is printed, with its line end: `refused KIND at PLACE`.
    pub fn line(&self, alloc: Global) -> Result<Text, OutOfMemory>
        ensures { IfOk result (λ t. t ≡ line_end (refusal_text self.now)) }
    {
        let place = self.place.print(alloc)?;
        let text = format!(in alloc; "refused {} at {}\n", self.kind.name(), place.as_str())?;
        Text::new(alloc, text.as_str())
    }
}
