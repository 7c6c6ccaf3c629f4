//! Each constructor that takes memory, with each of its requests refused in turn.
use crate::memory::{Heap, has_memory_for_a_line};
use crate::udp_makers::{UdpMaker, long_period};
use cadence::prelude::*;
use cadence::queue::{QueueCore, QueuePolicy};
use cadence::sinks::{PathSocket, SpyReceiver};
use cadence::types::SinkError;
use cadence::{
    BufferedSpyMetricSink, BufferedUnixMetricSink, FlushingMetricSink, Metric, MetricError,
    MetricResult, MetricSink, NopMetricSink, QueuingMetricSink, QueuingMetricSinkBuilder, Runtime,
    SpyMetricSink, StatsdClient, UnixMetricSink,
};
use std::alloc::Global;
use std::net::SocketAddr;
use std::sync::Wait;
use test_tools::each_refused;

// How a spy is made.
#[derive(Clone, Copy)]
enum SpyMaker {
    New,
    WithCapacity,
    Buffered,
    BufferedWithCapacity,
    // A buffered spy, which is dropped while it holds a line.
    Dropped,
}

// How a sink over a Unix socket is made.
#[derive(Clone, Copy)]
enum UnixMaker {
    From,
    Buffered,
    BufferedWithCapacity,
    // A sink over a Unix socket that a thread flushes.
    Flushing,
}

// How a queue is made.
#[derive(Clone, Copy)]
enum QueueMaker {
    Core,
    BoundedCore,
    From,
    Bounded,
    Built,
    BuiltWithPeriod,
}

// How a sink, a queue or a client is made.
#[derive(Clone, Copy)]
enum Maker {
    Spy(SpyMaker),
    Unix(UnixMaker),
    Queue(QueueMaker),
    Client,
    Udp(UdpMaker),
}

// The constructors, each with its name.
const MAKERS: &[(&str, Maker)] = &[
    ("SpyMetricSink::new", Maker::Spy(SpyMaker::New)),
    (
        "SpyMetricSink::with_capacity",
        Maker::Spy(SpyMaker::WithCapacity),
    ),
    ("BufferedSpyMetricSink::new", Maker::Spy(SpyMaker::Buffered)),
    (
        "BufferedSpyMetricSink::with_capacity",
        Maker::Spy(SpyMaker::BufferedWithCapacity),
    ),
    (
        "BufferedSpyMetricSink dropped with a line",
        Maker::Spy(SpyMaker::Dropped),
    ),
    ("UnixMetricSink::from", Maker::Unix(UnixMaker::From)),
    (
        "BufferedUnixMetricSink::from",
        Maker::Unix(UnixMaker::Buffered),
    ),
    (
        "BufferedUnixMetricSink::with_capacity",
        Maker::Unix(UnixMaker::BufferedWithCapacity),
    ),
    ("FlushingMetricSink::new", Maker::Unix(UnixMaker::Flushing)),
    ("QueueCore::new", Maker::Queue(QueueMaker::Core)),
    (
        "QueueCore::with_policy",
        Maker::Queue(QueueMaker::BoundedCore),
    ),
    ("QueuingMetricSink::from", Maker::Queue(QueueMaker::From)),
    (
        "QueuingMetricSink::with_capacity",
        Maker::Queue(QueueMaker::Bounded),
    ),
    (
        "QueuingMetricSinkBuilder::build",
        Maker::Queue(QueueMaker::Built),
    ),
    (
        "the same with a flush period",
        Maker::Queue(QueueMaker::BuiltWithPeriod),
    ),
    ("StatsdClient::from_sink", Maker::Client),
    ("UdpMetricSink::from", Maker::Udp(UdpMaker::From)),
    ("UdpMetricSinkBuilder::build", Maker::Udp(UdpMaker::Built)),
    (
        "the same with a period",
        Maker::Udp(UdpMaker::BuiltWithPeriod),
    ),
    (
        "BufferedUdpMetricSink::from",
        Maker::Udp(UdpMaker::Buffered),
    ),
    (
        "BufferedUdpMetricSink::with_capacity",
        Maker::Udp(UdpMaker::BufferedWithCapacity),
    ),
    (
        "BufferedUdpMetricSinkBuilder::build",
        Maker::Udp(UdpMaker::BuiltBuffered),
    ),
    (
        "the same with a period",
        Maker::Udp(UdpMaker::BuiltBufferedWithPeriod),
    ),
    ("udp_sink", Maker::Udp(UdpMaker::Ready)),
    ("buffered_udp_client", Maker::Udp(UdpMaker::Client)),
];

// A socket that takes each packet.
#[derive(Drop)]
struct AcceptingSocket;

impl PathSocket for AcceptingSocket {
    fn send_to(&self, packet: &[u8], _path: &str) -> Result<usize, SinkError> {
        Ok(packet.len())
    }
}

// Returns whether a spy had memory for a line and a flush. Whether it had or not, there has to be one message: that of
// the first line, or that of the second one if there was no memory for the first. An unbuffered spy sends it at once,
// and a buffered one with the flush.
fn spy_has_memory<R: Wait + Drop, S: MetricSink>(
    (receiver, sink): (SpyReceiver<R, Heap>, S),
    is_buffered: bool,
) -> MetricResult<bool> {
    let has_all = has_memory_for_a_line(&sink)?;
    let came = !receiver.is_empty();
    sink.flush()?;
    let is_one = receiver.try_recv().is_some() && receiver.is_empty();
    if is_one && came == (has_all || !is_buffered) {
        return Ok(has_all);
    }
    Err(MetricError::from(SinkError::PacketRefused))
}

// Returns whether a buffered spy that is dropped while it holds a line had memory for its message. If it had none,
// there is no message.
fn dropped_spy_has_memory<R: Wait + Drop>(
    (receiver, sink): (SpyReceiver<R, Heap>, BufferedSpyMetricSink<R, Heap>),
) -> MetricResult<bool> {
    sink.emit("a:1|c")?;
    drop(sink);
    match receiver.recv() {
        Some(message) if message.as_slice() == b"a:1|c\n".as_slice() => Ok(true),
        Some(_) => Err(MetricError::from(SinkError::PacketRefused)),
        None => Ok(false),
    }
}

impl SpyMaker {
    fn has_memory<R: Runtime>(self, rt: R, heap: Heap) -> MetricResult<bool> {
        match self {
            SpyMaker::New => spy_has_memory(SpyMetricSink::new(rt, heap)?, false),
            SpyMaker::WithCapacity => spy_has_memory(
                SpyMetricSink::with_capacity(rt, heap, 1)?,
                false,
            ),
            SpyMaker::Buffered => spy_has_memory(BufferedSpyMetricSink::new(rt, heap)?, true),
            SpyMaker::BufferedWithCapacity => {
                spy_has_memory(
                    BufferedSpyMetricSink::with_capacity(rt, heap, Some(1), Some(16))?,
                    true,
                )
            }
            SpyMaker::Dropped => dropped_spy_has_memory(BufferedSpyMetricSink::new(rt, heap)?),
        }
    }
}

impl UnixMaker {
    fn has_memory<R: Runtime>(self, rt: R, heap: Heap) -> MetricResult<bool> {
        match self {
            UnixMaker::From => has_memory_for_a_line(&UnixMetricSink::from(
                rt,
                heap,
                "/run/s",
                AcceptingSocket,
            )?),
            UnixMaker::Buffered => has_memory_for_a_line(&BufferedUnixMetricSink::from(
                rt,
                heap,
                "/run/s",
                AcceptingSocket,
            )?),
            UnixMaker::BufferedWithCapacity => {
                has_memory_for_a_line(&BufferedUnixMetricSink::with_capacity(
                    rt,
                    heap,
                    "/run/s",
                    AcceptingSocket,
                    16,
                )?)
            }
            UnixMaker::Flushing => {
                let (own, alloc) = (rt.clone()?, heap.clone()?);
                let inner = UnixMetricSink::from(own, alloc, "/run/s", AcceptingSocket)?;
                has_memory_for_a_line(&FlushingMetricSink::new(rt, heap, inner, long_period())?)
            }
        }
    }
}

// Returns whether a queue had memory for a line and a flush. It has accepted exactly one line then.
fn queue_has_memory<R: Runtime>(
    sink: QueuingMetricSink<NopMetricSink, R, Heap>,
) -> MetricResult<bool> {
    let has_all = has_memory_for_a_line(&sink)?;
    if sink.submitted() != 1 {
        return Err(MetricError::from(SinkError::PacketRefused));
    }
    Ok(has_all)
}

impl QueueMaker {
    fn has_memory<R: Runtime>(self, rt: R, heap: Heap) -> MetricResult<bool> {
        match self {
            QueueMaker::Core => Ok(QueueCore::new(heap, None)?.submit(1u64).is_ok()),
            QueueMaker::BoundedCore => {
                let mut core = QueueCore::with_policy(heap, Some(1), QueuePolicy::DropOldest)?;
                Ok(core.submit(1u64).is_ok())
            }
            QueueMaker::From => queue_has_memory(QueuingMetricSink::from(rt, heap, NopMetricSink)?),
            QueueMaker::Bounded => {
                queue_has_memory(QueuingMetricSink::with_capacity(rt, heap, NopMetricSink, 1)?)
            }
            QueueMaker::Built => {
                let builder = QueuingMetricSinkBuilder::new().with_policy(QueuePolicy::DropOldest);
                queue_has_memory(builder.with_capacity(1).build(rt, heap, NopMetricSink)?)
            }
            QueueMaker::BuiltWithPeriod => {
                let builder = QueuingMetricSinkBuilder::new().with_policy(QueuePolicy::DropOldest);
                let builder = builder.with_capacity(1).with_flush_period(long_period());
                queue_has_memory(builder.build(rt, heap, NopMetricSink)?)
            }
        }
    }
}

// Returns whether there was memory for a client and for the line of a counter.
fn client_has_memory(heap: Heap) -> MetricResult<bool> {
    let line = StatsdClient::from_sink(heap, "p", NopMetricSink)?.count("k", 1u64)?;
    Ok(line.as_metric_str() == "p.k:1|c")
}

impl Maker {
    // Returns whether there was memory for the constructor, and for a line and a flush after it.
    fn has_memory<R: Runtime>(self, rt: &R, heap: Heap, server: SocketAddr) -> MetricResult<bool> {
        match self {
            Maker::Spy(maker) => maker.has_memory(rt.clone()?, heap),
            Maker::Unix(maker) => maker.has_memory(rt.clone()?, heap),
            Maker::Queue(maker) => maker.has_memory(rt.clone()?, heap),
            Maker::Client => client_has_memory(heap),
            Maker::Udp(maker) => maker.has_memory(rt, heap, server),
        }
    }

    // Returns whether there was memory for the constructor, and for a line and a flush after it. If the constructor
    // fails with `OutOfMemory`, there was none.
    fn makes<R: Runtime>(self, rt: &R, heap: Heap, server: SocketAddr) -> MetricResult<bool> {
        match self.has_memory(rt, heap, server) {
            Err(MetricError::Sink(SinkError::OutOfMemory)) => Ok(false),
            answer => answer,
        }
    }
}

/// Returns a line for each constructor, with the number of requests for memory that it makes, including those for a
/// line and a flush. In as many turns memory ran out.
pub fn report_makers<R: Runtime>(
    rt: &R,
    alloc: Global,
    server: SocketAddr,
) -> MetricResult<String> {
    let mut text = String::new(alloc);
    for (name, maker) in MAKERS {
        match each_refused(alloc, |heap| maker.makes(rt, heap, server)) {
            Ok(Some(requests)) => writeln!(&mut text, "{name} {requests}")?,
            Ok(None) => writeln!(&mut text, "{name}: never made")?,
            Err(error) => writeln!(&mut text, "{name}: {error}")?,
        }
    }
    Ok(text)
}
