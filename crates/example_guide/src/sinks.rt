//! Sinks over UDP and over Unix sockets, and queues. Nobody has to listen.

use cadence::prelude::*;
use cadence::queue::QueuePolicy;
use cadence::sinks::PathSocket;
use cadence::types::SinkError;
use cadence::{
    BufferedUdpMetricSink, BufferedUnixMetricSink, DEFAULT_PORT, FlushingMetricSink, MetricResult,
    MetricSink, NopMetricSink, QueuingMetricSink, QueuingMetricSinkBuilder, Runtime, StatsdClient,
    Target, UdpMetricSink, UdpMetricSinkBuilder, UnixMetricSink,
};
use std::alloc::Global;
use std::net::{Ipv4Addr, SocketAddr, UdpSocket};
use std::time::Duration;

// The example of `UdpMetricSink`. Returns the length of the datagram that it sends.
fn send_datagram<R: Runtime>(rt: &R, alloc: Global) -> MetricResult<usize> {
    let socket = UdpSocket::bind(rt, SocketAddr::from((Ipv4Addr::UNSPECIFIED, 0)))?;
    let target = Target::Name {
        host: String::from_str(alloc, "localhost")?,
        port: DEFAULT_PORT,
    };
    let sink = UdpMetricSink::from(rt.clone()?, alloc, target, socket)?;
    Ok(sink.emit("p.visits:1|c")?)
}

// Returns a socket that may send, and the target of the datagrams.
fn bind_socket<R: Runtime>(rt: &R) -> MetricResult<(Target, UdpSocket)> {
    let target = Target::Addr(SocketAddr::from((Ipv4Addr::LOCALHOST, DEFAULT_PORT)));
    let socket = UdpSocket::bind(rt, SocketAddr::from((Ipv4Addr::UNSPECIFIED, 0)))?;
    Ok((target, socket))
}

// The example of `UdpMetricSinkBuilder`.
fn send_and_look_up<R: Runtime>(rt: &R, alloc: Global) -> MetricResult<usize> {
    let (target, socket) = bind_socket(rt)?;
    let builder = UdpMetricSinkBuilder::new().with_resolver_period(Duration::from_secs(60));
    let sink = builder.build(rt.clone()?, alloc, target, socket)?;
    Ok(sink.emit("p.visits:1|c")?)
}

// The example of `BufferedUdpMetricSink`.
fn send_packed<R: Runtime>(rt: &R, alloc: Global) -> MetricResult<usize> {
    let (target, socket) = bind_socket(rt)?;
    let sink = BufferedUdpMetricSink::with_capacity(rt.clone()?, alloc, target, socket, 1432)?;
    Ok(sink.emit("p.visits:1|c")?)
}

// The example of `FlushingMetricSink`.
fn send_each_second<R: Runtime>(rt: &R, alloc: Global) -> MetricResult<usize> {
    let (target, socket) = bind_socket(rt)?;
    let inner = BufferedUdpMetricSink::from(rt.clone()?, alloc, target, socket)?;
    let sink = FlushingMetricSink::new(rt.clone()?, alloc, inner, Duration::from_secs(1))?;
    Ok(sink.emit("p.visits:1|c")?)
}

// Takes every packet, in place of a socket.
#[derive(Drop)]
struct TakesAll;

impl PathSocket for TakesAll {
    fn send_to(&self, packet: &[u8], _path: &str) -> Result<usize, SinkError> {
        Ok(packet.len())
    }
}

// The example of `UnixMetricSink`.
fn send_to_path<R: Runtime>(rt: &R, alloc: Global, socket: TakesAll) -> MetricResult<usize> {
    let sink = UnixMetricSink::from(rt.clone()?, alloc, "/run/statsd.sock", socket)?;
    Ok(sink.emit("p.visits:1|c")?)
}

// The example of `BufferedUnixMetricSink`.
fn send_packed_to_path<R: Runtime>(rt: &R, alloc: Global, socket: TakesAll) -> MetricResult<usize> {
    let sink = BufferedUnixMetricSink::from(rt.clone()?, alloc, "/run/statsd.sock", socket)?;
    Ok(sink.emit("p.visits:1|c")?)
}

// The example of `QueuingMetricSinkBuilder`. Returns how many lines the queue accepted.
fn queue_lines<R: Runtime>(rt: &R, alloc: Global, inner: NopMetricSink) -> MetricResult<u64> {
    let builder = QueuingMetricSinkBuilder::new()
        .with_capacity(1000)
        .with_policy(QueuePolicy::DropOldest)
        .with_flush_period(Duration::from_secs(1));
    let sink = builder.build(rt.clone()?, alloc, inner)?;
    sink.emit("p.visits:1|c")?;
    sink.stop_and_wait();
    Ok(sink.submitted())
}

// The example of `QueuingMetricSink`.
fn queue_and_stop<R: Runtime>(rt: &R, alloc: Global, inner: NopMetricSink) -> MetricResult<()> {
    let sink = QueuingMetricSink::with_capacity(rt.clone()?, alloc, inner, 1000)?;
    let client = StatsdClient::from_sink(alloc, "my.service", sink)?;
    client.incr("visits")?;
    client.sink().stop_and_wait();
    client.flush()?;
    Ok(())
}

/// Runs the examples, and returns how many bytes the sinks over sockets take, and how many lines a queue.
pub fn report<R: Runtime>(rt: &R, alloc: Global) -> MetricResult<String> {
    let (plain, again) = (send_datagram(rt, alloc)?, send_and_look_up(rt, alloc)?);
    let (packed, timed) = (send_packed(rt, alloc)?, send_each_second(rt, alloc)?);
    let path = send_to_path(rt, alloc, TakesAll)?;
    let packed_path = send_packed_to_path(rt, alloc, TakesAll)?;
    queue_and_stop(rt, alloc, NopMetricSink)?;
    let queued = queue_lines(rt, alloc, NopMetricSink)?;
    Ok(format!(in alloc;
        "UDP: {plain} {again} {packed} {timed} bytes\nUnix: {path} {packed_path} bytes\n{queued} line queued\n"
    )?)
}
