// Why a line is no case.
use wf_value::{JsonFault, OutOfMemory};

/// Why a line is no case.
#[derive(Clone, Copy, Debug, Drop, thiserror::Error)]
pub enum CaseFault {
    #[error("no case")]
    NoCase,
    #[error("out of memory")]
    OutOfMemory,
}

impl From<OutOfMemory> for CaseFault {
    fn from(_fault: OutOfMemory) -> CaseFault {
        CaseFault::OutOfMemory
    }
}

impl From<std::alloc::AllocError> for CaseFault {
    fn from(_fault: std::alloc::AllocError) -> CaseFault {
        CaseFault::OutOfMemory
    }
}

impl From<JsonFault> for CaseFault {
    fn from(fault: JsonFault) -> CaseFault {
        match fault {
            JsonFault::OutOfMemory => CaseFault::OutOfMemory,
            _ => CaseFault::NoCase,
        }
    }
}
