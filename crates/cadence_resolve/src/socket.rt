//! A socket that can send to an address.

use std::io;
use std::net::{Ipv4Addr, Ipv6Addr, Net, SocketAddr, UdpSocket};

/// Binds a UDP socket of the family of an address, IPv4 or IPv6, at a port that the system picks. Such a socket can
/// send to the address. The error is the system's.
pub fn bind_socket(net: &impl Net, address: SocketAddr) -> io::Result<UdpSocket> {
    let any = if address.is_ipv4() {
        SocketAddr::from((Ipv4Addr::UNSPECIFIED, 0))
    } else {
        SocketAddr::from((Ipv6Addr::UNSPECIFIED, 0))
    };
    UdpSocket::bind(net, any)
}

/// Binds a socket as `bind_socket` does. This one never waits: if the system can't take a packet at once, the call that
/// sends it fails with the kind `WouldBlock`. The error is the system's.
pub fn bind_nonblocking(net: &impl Net, address: SocketAddr) -> io::Result<UdpSocket> {
    let socket = bind_socket(net, address)?;
    socket.set_nonblocking(true)?;
    Ok(socket)
}
