//! The thread of a reporting sink, over a real clock and a real socket.
use super::stage::{CountedSink, make_counted};
use crate::tests::steps::{assert_receives, is_called};
use cadence::Runtime;
use cadence::ready::udp_sink;
use cadence::sinks::{MetricSink, Target, UdpMetricSink};
use cadence::types::{MetricResult, SinkError};
use cadence_agent::ReportingMetricSink;
use std::alloc::Global;
use std::net::{Ipv4Addr, Net, SocketAddr, UdpSocket};
use std::sync::Arc;
use std::sync::atomic::{AtomicU64, Ordering};
use std::test::Fail;
use std::time::Duration;

// A sink that reports over UDP.
type Reporting<R> = ReportingMetricSink<UdpMetricSink<R>, R>;

// Makes a sink that reports to this server each 20 milliseconds.
fn make_reporting<R: Runtime + Net>(
    rt: &R,
    alloc: Global,
    server: SocketAddr,
) -> MetricResult<Reporting<R>> {
    let udp = udp_sink(rt, alloc, Target::Addr(server))?;
    let period = Duration::from_millis(20);
    ReportingMetricSink::new(rt.clone()?, alloc, udp, "me", period)
}

// Emits a line, and asserts that the server receives it and two reports. A report that comes before the line has
// nothing to send. The packets of the first report are in the second one.
fn assert_reports<S: MetricSink>(sink: &S, server: &UdpSocket) -> Result<(), Fail> {
    if sink.emit("visits:1|c")? != 10 {
        return Err(Fail::new("another count of bytes"));
    }
    assert_receives(server, "visits:1|c")?;
    assert_receives(server, "me.bytes_sent:10|c")?;
    assert_receives(server, "me.packets_sent:1|c")?;
    assert_receives(server, "me.bytes_sent:37|c")?;
    assert_receives(server, "me.packets_sent:2|c")
}

#[test]
fn a_report_comes_over_udp_after_a_period(rt: HostRuntime) -> Result<(), Fail> {
    let server = UdpSocket::bind(&rt, SocketAddr::from((Ipv4Addr::LOCALHOST, 0)))?;
    server.set_read_timeout(Some(Duration::from_secs(5)))?;
    let sink = make_reporting(&rt, rt.alloc(), server.local_addr()?)?;
    assert_reports(&sink, &server)
}

// Makes a reporting sink with a period of a millisecond. Its handler counts the packets that are refused.
fn make_counting<R: Runtime>(
    rt: &R,
    alloc: Global,
    counted: CountedSink<R>,
    calls: Arc<AtomicU64>,
) -> MetricResult<ReportingMetricSink<CountedSink<R>, R>> {
    let handler = Box::new(alloc, move |error: SinkError| {
        if matches!(error, SinkError::PacketRefused) {
            calls.fetch_add(1, Ordering::SeqCst);
        }
    })?;
    let period = Duration::from_millis(1);
    ReportingMetricSink::with_error_handler(rt.clone()?, alloc, counted, "me", period, handler)
}

// Makes a reporting sink over one that refuses each line, and returns whether its handler is called.
fn handler_is_called<R: Runtime>(rt: &R, alloc: Global) -> Result<bool, Fail> {
    let (watch, counted) = make_counted(rt, alloc)?;
    watch.set_refuses(true);
    let calls = Arc::new(alloc, AtomicU64::new(0))?;
    let sink = make_counting(rt, alloc, counted, calls.clone()?)?;
    watch.stage.set([1, 0, 0, 0, 0]);
    let is_called = is_called(rt, &calls);
    drop(sink);
    Ok(is_called)
}

#[test]
fn a_handler_receives_the_errors_of_the_thread(rt: HostRuntime) -> Result<(), Fail> {
    assert!(rt; handler_is_called(&rt, rt.alloc())?);
    Ok(())
}
