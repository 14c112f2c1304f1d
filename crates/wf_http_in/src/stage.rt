// How far an answer has come.
ghost use Rattle.std.specs.Prelude.{◌≡◌};
ghost use Rattle.wf_http_body.specs.declared.body.End.TheVariants.{Whole};
ghost use Rattle.wf_http_in.specs.Stages.{settled};

use crate::Head;
use crate::framing::Framing;

#[derive(Drop)]
pub(crate) enum Stage {
    // Its head isn't whole.
    Head,
    // Its body isn't whole, whose end is told so.
    Body(Head, Framing),
    // It is whole.
    Whole(Head),
    Bad,
    TooLong,
}

impl Stage {
    /// The stage once the body is whole.
    pub(crate) fn whole(self) -> Stage
        ensures { result ≡ settled Whole self }
    {
        match self {
            Stage::Body(head, _) => Stage::Whole(head),
            stage => stage,
        }
    }
}
