//! The address of a host, of any family or of IPv6 alone.
ghost use Rattle.std.specs.Prelude.{IfOk};
ghost use Rattle.cadence_environment.specs.Destinations.{IsSentTo};

use cadence_resolve::{Family, find_address_of};
use std::io;
use std::net::{Net, SocketAddr};

// Returns the family that is preferred: an address of it is taken before an address of the other one.
fn family_of(only_ipv6: bool) -> Family {
    if only_ipv6 { Family::V6 } else { Family::V4 }
}

/// Looks a host up, and returns the address that is sent to: its first one of IPv4, or its first one if it has none of
/// IPv4. If only addresses of IPv6 are looked up, it is the first one of IPv6, and otherwise there is none. The error is
/// the system's.
pub fn look_up_host(
    net: &impl Net,
    host: (&str, u16),
    only_ipv6: bool,
) -> io::Result<Option<SocketAddr>>
    ensures { IfOk result (IsSentTo only_ipv6) }
{
    match find_address_of(net, host, family_of(only_ipv6))? {
        Some(address) if only_ipv6 && address.is_ipv4() => Ok(None),
        found => Ok(found),
    }
}
