// The addresses of hosts, by their names.
use std::alloc::Global;
use std::io;
use std::net::{Net, SocketAddr, ToSocketAddrs};
use wf_host::Address;
use wf_value::{OutOfMemory, Text};

/// The hosts that were found, with their addresses. Each is looked up once, since a lookup waits for the system's resolver.
#[derive(Drop)]
pub(crate) struct Names {
    found: Vec<(Text, Vec<SocketAddr>)>,
}

impl Names {
    /// None was looked up.
    pub(crate) fn new(alloc: Global) -> Names {
        Names {
            found: Vec::new(alloc),
        }
    }

    /// The addresses of a host, the first of them last. A host that isn't found has none, and is looked up again by the next call.
    pub(crate) fn addresses_of<N: Net>(
        &mut self,
        alloc: Global,
        net: &N,
        to: &Address,
    ) -> Result<Vec<SocketAddr>, OutOfMemory> {
        for (name, addresses) in self.found.iter() {
            if name.as_str() == to.name.as_str() {
                return at_port(alloc, addresses.as_slice(), to.port);
            }
        }
        let addresses = match looked_up(alloc, net, (bare(to.name.as_str()), to.port)) {
            Ok(addresses) => addresses,
            Err(e) if e.kind() == io::ErrorKind::OutOfMemory => return Err(OutOfMemory),
            Err(_) => return Ok(Vec::new(alloc)),
        };
        let copy = at_port(alloc, addresses.as_slice(), to.port)?;
        self.found.push((to.name.copy()?, addresses))?;
        Ok(copy)
    }
}

/// The same addresses, with this port.
fn at_port(
    alloc: Global,
    addresses: &[SocketAddr],
    port: u16,
) -> Result<Vec<SocketAddr>, OutOfMemory> {
    let mut copy = Vec::new(alloc);
    for address in addresses {
        let mut address = *address;
        address.set_port(port);
        copy.push(address)?;
    }
    Ok(copy)
}

/// The addresses that are found, the first of them last.
fn looked_up<N: Net, A: ToSocketAddrs>(
    alloc: Global,
    net: &N,
    host: A,
) -> io::Result<Vec<SocketAddr>> {
    let mut addresses = Vec::new(alloc);
    for address in host.to_socket_addrs(net)? {
        addresses.push(address)?;
    }
    addresses.reverse();
    Ok(addresses)
}

/// A host without the brackets that stand around an address of the sixth version.
fn bare(host: &str) -> &str {
    match host.strip_prefix('[') {
        Some(rest) => rest.strip_suffix(']').unwrap_or(host),
        None => host,
    }
}
