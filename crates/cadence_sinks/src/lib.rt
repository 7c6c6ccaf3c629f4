//! The sinks that a Statsd client sends its lines to, from the thread that calls them.
//!
//! - `capacity`: how large the packets of a datagram socket may be
//! - `datagram`: what the sinks over UDP and over Unix sockets share: the counts, the buffer and its lock
//! - `ready`: sinks over UDP, ready made
//! - `spy`: sinks for tests, whose lines a receiver reads back
//! - `udp`: sinks over a UDP socket
//! - `unix`: sinks over a datagram socket that sends to a path
#![tactic(auto)]

mod capacity;
mod datagram;
pub mod ready;
mod spy;
mod udp;
mod unix;

pub use capacity::{MAX_PACKET, check_capacity};
pub use datagram::{PacketSocket, SocketWriter};
pub use spy::{BufferedSpyMetricSink, SpyLines, SpyMetricSink, SpyReceiver};
pub use udp::{
    BufferedUdpMetricSink, BufferedUdpMetricSinkBuilder, UdpLines, UdpMetricSink,
    UdpMetricSinkBuilder,
};
pub use unix::{BufferedUnixMetricSink, PathSocket, UnixLines, UnixMetricSink};
