//! Packets to a host, whose name is looked up again and again.
ghost use Rattle.cadence_sinks.specs.Sockets.{is_io};

use cadence_environment::look_up_host;
use cadence_errors::SinkError;
use cadence_resolve::bind_socket;
use cadence_sinks::PacketSocket;
use std::net::{SocketAddr, UdpSocket};
use std::time::{Duration, Instant};

/// The most bytes of a datagram to a host.
pub const LONGEST_DATAGRAM: usize = 65_507;

// How many seconds an address is used before the host is looked up again.
const PERIOD: u64 = 60;

// How many seconds after the last lookup the host is looked up again if a packet was refused.
const PERIOD_AFTER_REFUSAL: u64 = 1;

/// A socket that sends each packet to a host. It looks the host up again each minute, and after a refusal, but then at
/// most once in a second. If the lookup fails, it keeps the address. Only addresses of IPv6 are looked up if no others are
/// wanted.
#[derive(Drop)]
pub struct SocketOfHost<'a> {
    rt: HostRuntime,
    host: (&'a str, u16),
    only_ipv6: bool,
    socket: UdpSocket,
    address: SocketAddr,
    last_lookup: Option<Instant>,
    is_refused: bool,
}

impl<'a> SocketOfHost<'a> {
    /// Returns a socket that sends to a host and a port, whose address was just looked up.
    pub fn new(
        rt: HostRuntime,
        host: (&'a str, u16),
        only_ipv6: bool,
        socket: UdpSocket,
        address: SocketAddr,
    ) -> SocketOfHost<'a> {
        let last_lookup = Instant::now(&rt).ok();
        SocketOfHost {
            rt,
            host,
            only_ipv6,
            socket,
            address,
            last_lookup,
            is_refused: false,
        }
    }

    // Returns whether the host is to be looked up now, and if so, stores the time as that of the last lookup. If the
    // clock fails, the host isn't looked up.
    fn is_lookup_due(&mut self) -> bool {
        let Ok(now) = Instant::now(&self.rt) else {
            return false;
        };
        let period = if self.is_refused {
            PERIOD_AFTER_REFUSAL
        } else {
            PERIOD
        };
        let is_due = match self.last_lookup {
            Some(last) => now.duration_since(last) >= Duration::from_secs(period),
            None => true,
        };
        if is_due {
            self.last_lookup = Some(now);
            self.is_refused = false;
        }
        is_due
    }

    // Looks the host up if that is due. If it has a new address, the packets go there, from a new socket.
    fn follow_host(&mut self) {
        if !self.is_lookup_due() {
            return;
        }
        let Ok(Some(address)) = look_up_host(&self.rt, self.host, self.only_ipv6) else {
            return;
        };
        if address == self.address {
            return;
        }
        if let Ok(socket) = bind_socket(&self.rt, address) {
            self.socket = socket;
            self.address = address;
        }
    }
}

impl PacketSocket for SocketOfHost<'_> {
    ghost may_give = { is_io };

    fn send_packet(&mut self, packet: &[u8], fault: &mut SinkError) -> Option<usize> {
        self.follow_host();
        match self.socket.send_to(packet, self.address) {
            Ok(count) => Some(count),
            Err(error) => {
                self.is_refused = true;
                *fault = SinkError::Io(error);
                None
            }
        }
    }
}
