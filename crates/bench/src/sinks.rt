//! Makes sinks and queues, and emits lines into a sink from one thread.

use crate::arguments::Arguments;
use crate::done::{BlackBox, Done, Note};
use crate::packets::make_line;
use cadence::sinks::Target;
use cadence::types::SinkError;
use cadence::{BufferedUdpMetricSink, MetricResult, MetricSink, QueuingMetricSink};
use std::alloc::Global;
use std::net::{Ipv4Addr, Net, SocketAddr, UdpSocket};
use std::sync::{Arc, Mutex, Wait};
use std::thread::{self, Threads};
use std::time::{Clock, Duration, Instant};

// Binds a socket at the loopback address, with a port of its own.
fn bind_to_loopback(rt: &impl Net) -> MetricResult<UdpSocket> {
    Ok(UdpSocket::bind(rt, SocketAddr::from((Ipv4Addr::LOCALHOST, 0)))?)
}

/// Makes a buffered UDP sink, and the socket of this process that it sends to, which nobody reads.
pub fn make_buffered_sink<R: Net + Wait + Clone + Drop>(
    rt: &R,
    alloc: Global,
    capacity: usize,
) -> MetricResult<(UdpSocket, BufferedUdpMetricSink<R>)> {
    let server = bind_to_loopback(rt)?;
    let target = Target::Addr(server.local_addr()?);
    let socket = bind_to_loopback(rt)?;
    let sink = BufferedUdpMetricSink::with_capacity(rt.clone()?, alloc, target, socket, capacity)?;
    Ok((server, sink))
}

/// Returns what a buffered sink sent in this time.
pub fn done_by<S: MetricSink>(time: Duration, sink: &S) -> Done {
    let stats = sink.stats();
    let bytes = stats.bytes_sent.wrapping_mul(1_000_003);
    Done {
        time,
        check: bytes.wrapping_add(stats.packets_sent),
        note: Note::Packets(stats.packets_sent),
    }
}

// Emits the line `calls` times, and flushes.
fn emit_all<R: Clock, S: MetricSink>(
    rt: &R,
    sink: &S,
    line: &str,
    calls: u64,
) -> MetricResult<Done> {
    let hidden = BlackBox::new();
    let start = Instant::now(rt)?;
    for _ in 0..calls {
        sink.emit(hidden.text(line))?;
    }
    sink.flush()?;
    Ok(done_by(start.elapsed(rt)?, sink))
}

/// Emits lines into a buffered UDP sink.
pub fn emit_to_udp<R: Clock + Net + Wait + Clone + Drop>(
    rt: &R,
    alloc: Global,
    arguments: &Arguments,
) -> MetricResult<Done> {
    let line = make_line(alloc, arguments.length)?;
    let (_server, sink) = make_buffered_sink(rt, alloc, arguments.capacity)?;
    emit_all(rt, &sink, &line, arguments.calls)
}

/// Makes a queue over a sink. A queue of capacity 0 has no bound.
pub fn make_queue<
    S: MetricSink + Send + Sync + 'static,
    R: Wait + Clock + Threads + Clone + Drop + Send + Sync + 'static,
>(rt: &R, alloc: Global, sink: S, capacity: usize) -> MetricResult<QueuingMetricSink<S, R>> {
    match capacity {
        0 => QueuingMetricSink::from(rt.clone()?, alloc, sink),
        capacity => QueuingMetricSink::with_capacity(rt.clone()?, alloc, sink, capacity),
    }
}

/// Waits until the worker has taken this many lines.
pub fn wait_until_drained<S: MetricSink, R: Wait + Drop>(
    rt: &R,
    queue: &QueuingMetricSink<S, R>,
    lines: u64,
) {
    for _ in rt.forever() {
        if queue.drained() >= lines {
            return;
        }
        thread::yield_now();
    }
}

/// A sink whose calls sleep until the lock is free.
#[derive(Drop)]
pub struct GatedSink<R: Wait + Drop> {
    rt: R,
    gate: Arc<Mutex<()>>,
}

impl<R: Wait + Drop> GatedSink<R> {
    /// Makes a sink with this gate.
    pub fn new(rt: R, gate: Arc<Mutex<()>>) -> GatedSink<R> {
        GatedSink { rt, gate }
    }
}

impl<R: Wait + Drop> MetricSink for GatedSink<R> {
    ghost may_answer = { λ _ _ _. Unit {0} };

    fn emit(&self, line: &str) -> Result<usize, SinkError> {
        let _open = self.gate.lock(&self.rt);
        Ok(line.len())
    }

    ghost flush_may_succeed = { λ _ _. tt };
}
