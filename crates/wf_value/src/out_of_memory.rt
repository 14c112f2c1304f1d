// Want of memory.
use std::alloc::{AllocError, AllocFailed};

/// There is no memory for what was asked.
#[derive(Debug, Clone, Copy, PartialEq, Eq, Drop)]
pub struct OutOfMemory;

impl From<AllocError> for OutOfMemory {
    fn from(_cause: AllocError) -> OutOfMemory {
        OutOfMemory
    }
}

impl<T: Drop> From<AllocFailed<T>> for OutOfMemory {
    fn from(_cause: AllocFailed<T>) -> OutOfMemory {
        OutOfMemory
    }
}
