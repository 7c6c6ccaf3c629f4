//! Which address of a host a socket sends to: one of the socket's own family comes first.
ghost use Rattle.std.specs.Prelude.{◌≡◌};
ghost use Rattle.cadence_resolve.specs.Lookups.{IsAddressOf};
ghost use Rattle.cadence_resolve.specs.Preferred.{is_of, preferred};

use super::Target;
use super::resolver_core::no_address;
use cadence_errors::MetricResult;
use std::alloc::Allocator;
use std::io;
use std::net::{Net, SocketAddr, ToSocketAddrs, UdpSocket};

/// A family of addresses.
#[derive(Clone, Copy, Debug, PartialEq, Eq)]
pub enum Family {
    /// IPv4.
    V4,
    /// IPv6.
    V6,
}

impl Family {
    /// Returns the family of the address to which a socket is bound. It is IPv4 if the system doesn't say the address.
    pub fn of_socket(socket: &UdpSocket) -> Self {
        match socket.local_addr() {
            Ok(address) if address.is_ipv6() => Family::V6,
            _ => Family::V4,
        }
    }

    // Returns whether an address is of this family.
    fn has(self, address: SocketAddr) -> bool
        ensures { result ≡ is_of self address }
    {
        match self {
            Family::V4 => address.is_ipv4(),
            Family::V6 => !address.is_ipv4(),
        }
    }

    // Returns which of two addresses is sent to: the earlier one, unless only the later one is of this family.
    fn prefer(self, earlier: Option<SocketAddr>, later: SocketAddr) -> SocketAddr
        ensures { result ≡ preferred self earlier later }
    {
        match earlier {
            None => later,
            Some(earlier) => {
                if self.has(later) && !self.has(earlier) {
                    later
                } else {
                    earlier
                }
            }
        }
    }
}

/// Looks a host up, and returns its first address of this family, or its first address if it has none of the family, or
/// `None` if it has no address. The error is the system's.
pub fn find_address_of<T: ToSocketAddrs>(
    net: &impl Net,
    host: T,
    family: Family,
) -> io::Result<Option<SocketAddr>> {
    let mut found = None;
    for address in host.to_socket_addrs(net)? {
        found = Some(family.prefer(found, address));
    }
    Ok(found)
}

/// Looks a host up for a socket that is bound afterwards, and returns what `find_address_of` does for IPv4. This family
/// comes first because most servers listen on it alone, also on a machine whose `localhost` has both families.
pub fn find_address<T: ToSocketAddrs>(net: &impl Net, host: T) -> io::Result<Option<SocketAddr>> {
    find_address_of(net, host, Family::V4)
}

/// Returns the address of a target for a socket of this family: for a host's name the one that `find_address_of`
/// returns. It takes no memory.
///
/// For a name the errors are `SinkError::Io` if the lookup fails, and the kind `InvalidInput` with the text `No socket
/// addresses yielded` if the name has no address.
pub fn address_of<A: Allocator>(
    net: &impl Net,
    target: &Target<A>,
    family: Family,
) -> MetricResult<SocketAddr>
    ensures { IsAddressOf target.now result }
{
    match target {
        Target::Addr(address) => Ok(*address),
        Target::Name { host, port } => {
            match find_address_of(net, (host.as_str(), *port), family)? {
                Some(address) => Ok(address),
                None => Err(no_address()),
            }
        }
    }
}
