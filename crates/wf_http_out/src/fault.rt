// Why a call can't be sent.
use std::alloc::AllocError;
use thiserror::Error;
use wf_value::OutOfMemory;

/// Why a call can't be sent. A program sees `NoRoute` as a ConnectionError, and the other three
/// causes as ValueErrors.
#[derive(Clone, Copy, Debug, PartialEq, Eq, Drop, Error)]
pub enum OutFault {
    /// The text is no URL of http or https, or it has a user, no host or a bad port.
    #[error("bad URL")]
    BadUrl,
    /// A field's name or value can't be sent, or the request has that field by itself, or a name
    /// stands twice.
    #[error("bad header")]
    BadHeader,
    /// There is no route for a host that can't be reached without one.
    #[error("no route")]
    NoRoute,
    /// The body would be sent as JSON under another media type.
    #[error("bad body")]
    BadBody,
    /// There is no memory.
    #[error("out of memory")]
    OutOfMemory,
}

impl From<OutOfMemory> for OutFault {
    ghost use Rattle.wf_http_out.specs.declared.fault.OutFault.TheVariants.{OutOfMemory};
    ghost use Rattle.std.specs.Prelude.{◌≡◌};

    ghost from_gives = { λ _ e. e ≡ OutOfMemory };

    fn from(_refused: OutOfMemory) -> OutFault {
        OutFault::OutOfMemory
    }
}

impl From<AllocError> for OutFault {
    ghost use Rattle.wf_http_out.specs.declared.fault.OutFault.TheVariants.{OutOfMemory};
    ghost use Rattle.std.specs.Prelude.{◌≡◌};

    ghost from_gives = { λ _ e. e ≡ OutOfMemory };

    fn from(_refused: AllocError) -> OutFault {
        OutFault::OutOfMemory
    }
}
