// Why a source is not taken.
use wf_status::Refusal;
use wf_value::OutOfMemory;

/// Why a source is not taken.
#[derive(Drop)]
pub enum SourceFault {
    /// The source is refused, for this first fault in it.
    Refused(Refusal),
    /// There is no memory.
    OutOfMemory,
}

impl From<OutOfMemory> for SourceFault {
    ghost use Rattle.wf_source.specs.declared.fault.SourceFault.TheVariants.{OutOfMemory};
    ghost use Rattle.std.specs.Prelude.{◌≡◌};

    ghost from_gives = { λ _ e. e ≡ OutOfMemory };

    fn from(_cause: OutOfMemory) -> SourceFault {
        SourceFault::OutOfMemory
    }
}
