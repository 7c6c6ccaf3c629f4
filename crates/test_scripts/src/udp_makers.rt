//! The constructors of sinks over UDP, and of a client over one.
use crate::memory::{Heap, has_memory_for_a_line};
use cadence::ready::{buffered_udp_client, udp_sink};
use cadence::sinks::Target;
use cadence::{
    BufferedUdpMetricSink, BufferedUdpMetricSinkBuilder, MetricResult, Runtime, UdpMetricSink,
    UdpMetricSinkBuilder,
};
use std::io;
use std::net::{Ipv4Addr, SocketAddr, UdpSocket};
use std::time::Duration;

/// How a sink over UDP, or a client over one, is made.
#[derive(Clone, Copy)]
pub enum UdpMaker {
    From,
    Built,
    /// By a builder, with a period after which the host is looked up again.
    BuiltWithPeriod,
    Buffered,
    BufferedWithCapacity,
    BuiltBuffered,
    /// By a builder, with a buffer and with a period after which the host is looked up again.
    BuiltBufferedWithPeriod,
    /// Ready made, with a socket of its own.
    Ready,
    /// A client over a buffered sink, ready made.
    Client,
}

/// Returns a period that doesn't end while the program runs, so that no later lookup takes memory.
pub fn long_period() -> Duration {
    Duration::from_secs(3600)
}

// Binds a socket at the loopback address, with a port of its own.
fn bind_to_loopback<R: Runtime>(rt: &R) -> io::Result<UdpSocket> {
    UdpSocket::bind(rt, SocketAddr::from((Ipv4Addr::LOCALHOST, 0)))
}

impl UdpMaker {
    /// Returns whether there was memory for the constructor, and for a line and a flush after it.
    pub fn has_memory<R: Runtime>(
        self,
        rt: &R,
        heap: Heap,
        server: SocketAddr,
    ) -> MetricResult<bool> {
        let to = Target::Addr(server);
        match self {
            UdpMaker::From | UdpMaker::Built | UdpMaker::BuiltWithPeriod => {
                has_memory_for_a_line(&self.make_unbuffered(rt, heap, to)?)
            }
            UdpMaker::Ready => has_memory_for_a_line(&udp_sink(rt, heap, to)?),
            UdpMaker::Client => {
                has_memory_for_a_line(buffered_udp_client(rt, heap, "p", to, 16)?.sink())
            }
            _ => has_memory_for_a_line(&self.make_buffered(rt, heap, to)?),
        }
    }

    // Makes a sink that sends each line by itself.
    fn make_unbuffered<R: Runtime>(
        self,
        rt: &R,
        heap: Heap,
        to: Target<Heap>,
    ) -> MetricResult<UdpMetricSink<R, Heap>> {
        let (own, socket) = (rt.clone()?, bind_to_loopback(rt)?);
        match self {
            UdpMaker::From => UdpMetricSink::from(own, heap, to, socket),
            UdpMaker::Built => UdpMetricSinkBuilder::new().build(own, heap, to, socket),
            _ => {
                let builder = UdpMetricSinkBuilder::new().with_resolver_period(long_period());
                builder.build(own, heap, to, socket)
            }
        }
    }

    // Makes a sink that packs lines.
    fn make_buffered<R: Runtime>(
        self,
        rt: &R,
        heap: Heap,
        to: Target<Heap>,
    ) -> MetricResult<BufferedUdpMetricSink<R, Heap>> {
        let (own, socket) = (rt.clone()?, bind_to_loopback(rt)?);
        match self {
            UdpMaker::Buffered => BufferedUdpMetricSink::from(own, heap, to, socket),
            UdpMaker::BufferedWithCapacity => BufferedUdpMetricSink::with_capacity(
                own, heap, to, socket, 16,
            ),
            UdpMaker::BuiltBuffered => {
                BufferedUdpMetricSinkBuilder::new().build(own, heap, to, socket)
            }
            _ => {
                let builder = BufferedUdpMetricSinkBuilder::new().with_resolver_period(
                    long_period(),
                );
                builder.build(own, heap, to, socket)
            }
        }
    }
}
