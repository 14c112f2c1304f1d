// Why there is no value.
use wf_value::{OutOfMemory, Value};

/// Why an answer or a request gives no value.
#[derive(Drop)]
pub enum ReplyFault {
    /// The program meets this error, which it can handle.
    Raised(Value),
    /// There is no memory: no error of the program.
    OutOfMemory,
}

impl From<OutOfMemory> for ReplyFault {
    ghost use Rattle.wf_http_value.specs.declared.fault.ReplyFault.TheVariants.{OutOfMemory};
    ghost use Rattle.std.specs.Prelude.{◌≡◌};

    ghost from_gives = { λ _ e. e ≡ OutOfMemory };

    fn from(_refused: OutOfMemory) -> ReplyFault {
        ReplyFault::OutOfMemory
    }
}

/// Why a body has no value.
#[derive(Clone, Copy, Drop)]
pub(crate) enum BodyFault {
    // It is to be JSON, and says no value.
    NoJson,
    OutOfMemory,
}

impl From<OutOfMemory> for BodyFault {
    ghost use Rattle.wf_http_value.specs.declared.fault.BodyFault.TheVariants.{OutOfMemory};
    ghost use Rattle.std.specs.Prelude.{◌≡◌};

    ghost from_gives = { λ _ e. e ≡ OutOfMemory };

    fn from(_refused: OutOfMemory) -> BodyFault {
        BodyFault::OutOfMemory
    }
}
