// Why symbols are no expression.
ghost use Rattle.std.specs.Prelude.{◌≡◌};
ghost use Rattle.wf_expr.specs.declared.stop.Stop.TheVariants as variant;

use std::alloc::{AllocError, AllocFailed};
use wf_value::OutOfMemory;

/// Where symbols stop to begin an expression: so many of them are left from there on. Or there is no
/// memory.
#[derive(Drop)]
pub(crate) enum Stop {
    Syntax(usize),
    OutOfMemory,
}

impl From<OutOfMemory> for Stop {
    ghost from_gives = { λ _ e. e ≡ variant.OutOfMemory };

    fn from(_: OutOfMemory) -> Self {
        Stop::OutOfMemory
    }
}

impl From<AllocError> for Stop {
    ghost from_gives = { λ _ e. e ≡ variant.OutOfMemory };

    fn from(_: AllocError) -> Self {
        Stop::OutOfMemory
    }
}

impl<T: Drop> From<AllocFailed<T>> for Stop {
    ghost from_gives = { λ _ e. e ≡ variant.OutOfMemory };

    fn from(_: AllocFailed<T>) -> Self {
        Stop::OutOfMemory
    }
}
