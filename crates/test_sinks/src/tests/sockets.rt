//! Sockets on the loopback address.
use super::steps::assert_accepts;
use cadence_flow::MetricSink;
use std::io;
use std::net::{Ipv4Addr, Net, SocketAddr, UdpSocket};
use std::test::Fail;
use std::time::Duration;

/// Binds a socket at the loopback address, with a port of its own. It waits for a datagram five seconds at most.
pub fn bind_to_loopback(net: &impl Net) -> io::Result<UdpSocket> {
    let socket = UdpSocket::bind(net, SocketAddr::from((Ipv4Addr::LOCALHOST, 0)))?;
    socket.set_read_timeout(Some(Duration::from_secs(5)))?;
    Ok(socket)
}

/// Binds a socket at the address of the host `localhost`, with a port of its own. It waits for a datagram five seconds
/// at most.
pub fn bind_to_localhost(net: &impl Net) -> io::Result<UdpSocket> {
    let socket = UdpSocket::bind(net, ("localhost", 0))?;
    socket.set_read_timeout(Some(Duration::from_secs(5)))?;
    Ok(socket)
}

// Receives the next datagram, and returns whether it is this text.
fn receives(server: &UdpSocket, text: &str) -> io::Result<bool> {
    let mut bytes = [0u8; 64];
    let (count, _from) = server.recv_from(&mut bytes)?;
    Ok(&bytes[..count] == text.as_bytes())
}

/// Receives the next datagrams, and asserts that they are these texts.
pub fn assert_datagrams(server: &UdpSocket, texts: &[&str]) -> Result<(), Fail> {
    for text in texts {
        if !receives(server, text)? {
            return Err(Fail::new("another datagram"));
        }
    }
    Ok(())
}

/// Emits the line `buz:1|m`, and asserts that the server receives this datagram without a flush.
pub fn assert_sends<S: MetricSink>(
    sink: &S,
    server: &UdpSocket,
    datagram: &str,
) -> Result<(), Fail> {
    assert_accepts(sink, &[("buz:1|m", 7)])?;
    assert_datagrams(server, &[datagram])
}
