// How far a visit has come.
ghost use Rattle.std.specs.Prelude.{◌≡◌};
ghost use Rattle.wf_http_body.specs.declared.body.End.TheVariants.{Whole};
ghost use Rattle.wf_http_serve.specs.Stages.{settled};

use crate::framing::Framing;
use crate::request::Request;

#[derive(Drop)]
pub(crate) enum Stage {
    // Its head isn't whole.
    Head,
    // Its body isn't whole, whose end is told so.
    Body(Request, Framing),
    // It is whole.
    Asked(Request),
    Bad,
    TooLarge,
}

impl Stage {
    /// The stage once the body is whole.
    pub(crate) fn whole(self) -> Stage
        ensures { result ≡ settled Whole self }
    {
        match self {
            Stage::Body(request, _) => Stage::Asked(request),
            stage => stage,
        }
    }
}
