//! Sinks over a Unix socket: each line by itself, and worked rows of a buffered sink and of a queue over one. The
//! library opens no Unix socket; the caller passes a `PathSocket`, which here is in memory.
use super::steps::{
    WantedError, assert_accepts, assert_counts, assert_flushes, assert_refuses,
    assert_refuses_flush,
};
use cadence_errors::{MetricResult, SinkError};
use cadence_flow::MetricSink;
use cadence_flow::io::{Answer, PacketLog, PacketWriter};
use cadence_queuing::QueuingMetricSink;
use cadence_sinks::{BufferedUnixMetricSink, PathSocket, UnixMetricSink};
use std::alloc::{AllocError, Global};
use std::sync::{Arc, Mutex, Wait};
use std::test::Fail;

// The path that each sink has to send to.
const PATH: &str = "/run/statsd.sock ";

type Log = Arc<Mutex<PacketLog>>;

// A socket that answers as the packet log that it shares. A packet to another path than `PATH` doesn't come to the log.
#[derive(Drop)]
struct RecordingSocket<R: Wait + Drop> {
    rt: R,
    log: Log,
}

impl<R: Wait + Drop> PathSocket for RecordingSocket<R> {
    fn send_to(&self, packet: &[u8], path: &str) -> Result<usize, SinkError> {
        if path != PATH {
            return Err(SinkError::NothingWritten);
        }
        self.log.lock(&self.rt).write_packet(packet)
    }
}

// Makes a socket that refuses this many packets and takes all later ones, and its log.
fn make_socket<R: Wait + Clone + Drop>(
    rt: &R,
    alloc: Global,
    refusals: usize,
) -> Result<(Log, RecordingSocket<R>), AllocError> {
    let mut answers = Vec::new(alloc);
    for _ in 0..refusals {
        answers.push(Answer::Refuse)?;
    }
    let log = Arc::new(alloc, Mutex::new(PacketLog::new(alloc, answers)))?;
    let socket = RecordingSocket {
        rt: rt.clone()?,
        log: log.clone()?,
    };
    Ok((log, socket))
}

// Asserts that exactly these packets came.
fn assert_packets<R: Wait>(rt: &R, log: &Log, wanted: &[&str]) -> Result<(), Fail> {
    let log = log.lock(rt);
    let mut is_same = log.packets().len() == wanted.len();
    for (packet, text) in log.packets().iter().zip(wanted) {
        is_same = packet.as_slice() == text.as_bytes() && is_same;
    }
    if is_same {
        Ok(())
    } else {
        Err(Fail::new("other packets"))
    }
}

#[test]
fn each_line_goes_to_the_path(rt: HostRuntime) -> Result<(), Fail> {
    let (log, socket) = make_socket(&rt, rt.alloc(), 1)?;
    let sink = UnixMetricSink::from(rt.clone()?, rt.alloc(), PATH, socket)?;
    assert_refuses(&sink, "a:1|c", WantedError::PacketRefused)?;
    assert_packets(&rt, &log, &[])?;
    assert_accepts(&sink, &[("buz:1|m", 7)])?;
    assert_flushes(&sink)?;
    assert_packets(&rt, &log, &["buz:1|m"])?;
    assert_counts(&sink, [7, 1, 5, 1])
}

// Makes a sink with a buffer of 16 bytes over a socket that refuses this many packets, and the socket's log.
fn make_buffered<R: Wait + Clone + Drop>(
    rt: &R,
    alloc: Global,
    refusals: usize,
) -> MetricResult<(Log, BufferedUnixMetricSink<RecordingSocket<R>, R>)> {
    let (log, socket) = make_socket(rt, alloc, refusals)?;
    let sink = BufferedUnixMetricSink::with_capacity(rt.clone()?, alloc, PATH, socket, 16)?;
    Ok((log, sink))
}

// A line, or a flush if it is empty; whether it succeeds; the counts of the sink then, and how many packets came.
type Step = (&'static str, bool, [u64; 4], usize);

// How many packets the socket refuses, the steps, and the packets that came when the sink is dropped. A line of 8 bytes
// takes 9 with its newline, so a packet of 16 bytes holds one, and the second line sends the first.
const ROWS: [(usize, &[Step], &[&str]); 2] = [
    (
        0,
        &[
            ("foo:54|c", true, [0, 0, 0, 0], 0),
            ("foo:67|c", true, [9, 1, 0, 0], 1),
            ("", true, [18, 2, 0, 0], 2),
            ("foo:89|c", true, [18, 2, 0, 0], 2),
        ],
        &["foo:54|c\n", "foo:67|c\n", "foo:89|c\n"],
    ),
    (
        2,
        &[
            ("foo:54|c", true, [0, 0, 0, 0], 0),
            ("foo:67|c", false, [0, 0, 9, 1], 0),
            ("", false, [0, 0, 18, 2], 0),
            ("", true, [9, 1, 18, 2], 1),
            ("foo:89|c", true, [9, 1, 18, 2], 1),
        ],
        &["foo:54|c\n", "foo:89|c\n"],
    ),
];

// Takes a step, and asserts that it has its result and its counts.
fn assert_step<S: MetricSink>(sink: &S, (line, succeeds, counts, _): Step) -> Result<(), Fail> {
    match (line.is_empty(), succeeds) {
        (false, true) => assert_accepts(sink, &[(line, line.len())])?,
        (false, false) => assert_refuses(sink, line, WantedError::PacketRefused)?,
        (true, true) => assert_flushes(sink)?,
        (true, false) => assert_refuses_flush(sink, WantedError::PacketRefused)?,
    }
    assert_counts(sink, counts)
}

#[test]
fn a_buffered_sink_sends_the_packets_of_a_row(rt: HostRuntime) -> Result<(), Fail> {
    for (refusals, steps, packets) in ROWS {
        let (log, sink) = make_buffered(&rt, rt.alloc(), refusals)?;
        for step in steps {
            assert_step(&sink, *step)?;
            assert_packets(&rt, &log, packets.get(..step.3).ok_or("no such packets")?)?;
        }
        drop(sink);
        assert_packets(&rt, &log, packets)?;
    }
    Ok(())
}

#[test]
fn a_queue_over_a_buffered_sink_sends_the_same_packets(rt: HostRuntime) -> Result<(), Fail> {
    let (log, sink) = make_buffered(&rt, rt.alloc(), 0)?;
    let queue = QueuingMetricSink::from(rt.clone()?, rt.alloc(), sink)?;
    assert_accepts(&queue, &[("foo:54|c", 8), ("foo:67|c", 8), ("foo:89|c", 8)])?;
    queue.stop_and_wait();
    assert_packets(&rt, &log, &["foo:54|c\n", "foo:67|c\n"])?;
    assert_counts(&queue, [18, 2, 0, 0])?;
    drop(queue);
    assert_packets(&rt, &log, &["foo:54|c\n", "foo:67|c\n", "foo:89|c\n"])
}
