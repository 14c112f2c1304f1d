// Where a call is sent.
use wf_host::Address;
use wf_value::Text;

/// Where a call is sent, and what its request writes of its URL.
#[derive(Drop)]
pub struct Goal {
    /// The host that is connected to, and its port.
    pub address: Address,
    /// The authority of the URL as it was written: the `Host` line of the request.
    pub authority: Text,
    /// The path of the URL, `/` where it is empty, and its query.
    pub target: Text,
}
