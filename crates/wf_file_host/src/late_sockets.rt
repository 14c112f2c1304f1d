// Sockets that are opened late.
use crate::sockets::Sockets;
use std::alloc::Global;
use std::net::Net;
use wf_host::PollError;

/// Sockets, which are opened at the first call or wait. Where the system has none to give, each wait fails from then on, since a call
/// that was started then would never be heard.
pub(crate) enum LateSockets {
    /// No call and no wait came yet.
    Unopened,
    /// They are open.
    Open(Sockets),
    /// They can't be opened.
    Broken,
}

// Written, and not derived: it is one call wherever sockets are let go.
impl Drop for LateSockets {
    fn drop(self) {
        match self {
            LateSockets::Open(_) => {}
            LateSockets::Unopened | LateSockets::Broken => {}
        }
    }
}

impl LateSockets {
    /// The open sockets. Without memory for them they are opened at a later call.
    pub(crate) fn opened<N: Net>(
        &mut self,
        alloc: Global,
        net: &N,
    ) -> Result<&mut Sockets, PollError> {
        if matches!(self, LateSockets::Unopened) {
            *self = match Sockets::new(alloc, net) {
                Ok(sockets) => LateSockets::Open(sockets),
                Err(PollError::Failed) => LateSockets::Broken,
                Err(PollError::OutOfMemory) => return Err(PollError::OutOfMemory),
            };
        }
        match self {
            LateSockets::Open(sockets) => Ok(sockets),
            LateSockets::Unopened | LateSockets::Broken => Err(PollError::Failed),
        }
    }

    /// Forgets a call.
    pub(crate) fn drop_call(&mut self, call: u64) {
        if let LateSockets::Open(sockets) = self {
            sockets.drop_call(call);
        }
    }
}
