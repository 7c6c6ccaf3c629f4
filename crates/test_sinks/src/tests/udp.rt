//! Sinks over UDP, to a server on this machine.
use super::sockets::{assert_datagrams, assert_sends, bind_to_localhost, bind_to_loopback};
use super::steps::{
    WantedError, assert_accepts, assert_counts, assert_flushes, assert_reaches, assert_refuses,
};
use cadence_errors::{MetricError, MetricResult, SinkError};
use cadence_flow::{MetricSink, SinkErrorHandler};
use cadence_resolve::{Runtime, Target};
use cadence_sinks::{
    BufferedUdpMetricSink, BufferedUdpMetricSinkBuilder, UdpMetricSink, UdpMetricSinkBuilder,
};
use std::alloc::Global;
use std::net::{Ipv4Addr, SocketAddr, UdpSocket};
use std::sync::Arc;
use std::sync::atomic::{AtomicU64, Ordering};
use std::test::Fail;
use std::time::{Clock, Duration};
use test_tools::{RefusingAllocator, each_refused};

#[test]
fn each_line_is_a_datagram(rt: HostRuntime) -> Result<(), Fail> {
    let (server, mine) = (bind_to_loopback(&rt)?, bind_to_loopback(&rt)?);
    let target = Target::Addr(server.local_addr()?);
    let sink = UdpMetricSink::from(rt.clone()?, rt.alloc(), target, mine)?;
    assert_accepts(&sink, &[("buz:1|m", 7), ("", 0)])?;
    assert_datagrams(&server, &["buz:1|m", ""])?;
    assert_flushes(&sink)?;
    assert_counts(&sink, [7, 2, 0, 0])
}

#[test]
fn a_refused_datagram_is_counted(rt: HostRuntime) -> Result<(), Fail> {
    let target: Target = Target::Addr(SocketAddr::from((Ipv4Addr::LOCALHOST, 0)));
    let sink = UdpMetricSink::from(rt.clone()?, rt.alloc(), target, bind_to_loopback(&rt)?)?;
    assert_refuses(&sink, "buz:1|m", WantedError::Io)?;
    assert_counts(&sink, [0, 0, 7, 1])
}

#[test]
fn a_host_is_looked_up(rt: HostRuntime) -> Result<(), Fail> {
    let server = bind_to_localhost(&rt)?;
    let (host, port) = (
        String::from_str(rt.alloc(), "localhost")?,
        server.local_addr()?.port(),
    );
    let target = Target::Name { host, port };
    let sink = UdpMetricSink::from(rt.clone()?, rt.alloc(), target, bind_to_localhost(&rt)?)?;
    assert_sends(&sink, &server, "buz:1|m")
}

#[test]
fn a_lost_host_is_refused(rt: HostRuntime) -> Result<(), Fail> {
    // a label of a name has at most 63 bytes, so nobody is asked
    let host = String::from_str(
        rt.alloc(),
        "aaaaaaaaaaaaaaaaaaaaaaaaaaaaaaaaaaaaaaaaaaaaaaaaaaaaaaaaaaaaaaaa.invalid",
    )?;
    let target = Target::Name { host, port: 8125 };
    let made = BufferedUdpMetricSink::from(rt.clone()?, rt.alloc(), target, bind_to_loopback(&rt)?);
    assert!(rt; matches!(made, Err(MetricError::Sink(SinkError::Io(_)))));
    Ok(())
}

// Asserts that the sink sends a line: if it holds lines with the flush, and otherwise at once.
fn assert_sends_on<S: MetricSink>(sink: &S, server: &UdpSocket, holds: bool) -> Result<(), Fail> {
    if !holds {
        assert_sends(sink, server, "buz:1|m")?;
        return assert_flushes(sink);
    }
    assert_accepts(sink, &[("buz:1|m", 7)])?;
    assert_flushes(sink)?;
    assert_datagrams(server, &["buz:1|m\n"])
}

// Returns whether there was memory to make the sink. If there was, the refused request is that of a later lookup: waits
// until the handler is called with its error, and asserts that the sink still sends.
fn calls_handler_and_sends<R: Clock, S: MetricSink>(
    rt: &R,
    made: MetricResult<S>,
    calls: &AtomicU64,
    (server, holds): (&UdpSocket, bool),
) -> Result<bool, Fail> {
    let sink = match made {
        Ok(sink) => sink,
        Err(MetricError::Sink(SinkError::OutOfMemory)) => return Ok(false),
        Err(_) => return Err(Fail::new("another error")),
    };
    assert_reaches(rt, calls, 1)?;
    assert_sends_on(&sink, server, holds)?;
    Ok(true)
}

// Returns whether the heap had memory to make a sink, with a buffer or without, that looks its server up every
// millisecond. Asserts that it then calls its handler and still sends.
fn makes<R: Runtime>(
    rt: &R,
    (alloc, heap): (Global, RefusingAllocator<Global>),
    server: &UdpSocket,
    holds: bool,
) -> Result<bool, Fail> {
    let calls = Arc::new(alloc, AtomicU64::new(0))?;
    let theirs = calls.clone()?;
    let (mine, to, socket) = (rt.clone()?, server.local_addr()?, bind_to_loopback(rt)?);
    let (to, period) = (Target::Addr(to), Duration::from_millis(1));
    let handler: SinkErrorHandler = Box::new(alloc, move |_| {
        theirs.fetch_add(1, Ordering::SeqCst);
    })?;
    if holds {
        let builder = BufferedUdpMetricSinkBuilder::new()
            .with_capacity(16)
            .with_resolver_period(period)
            .with_resolver_error_handler(handler);
        let made = builder.build(mine, heap, to, socket);
        return calls_handler_and_sends(rt, made, &calls, (server, holds));
    }
    let builder = UdpMetricSinkBuilder::new()
        .with_resolver_period(period)
        .with_resolver_error_handler(handler);
    let made = builder.build(mine, heap, to, socket);
    calls_handler_and_sends(rt, made, &calls, (server, holds))
}

#[test]
fn a_sink_that_looks_up_tells_its_handler(rt: HostRuntime) -> Result<(), Fail> {
    let alloc = rt.alloc();
    for holds in [false, true] {
        // Without the server the check refuses the closure: "a type names a struct or an enum that its function's
        // table lacks".
        let granted: Result<Option<u64>, Fail> = each_refused(alloc, |heap| {
            let server = bind_to_loopback(&rt)?;
            makes(&rt, (alloc, heap), &server, holds)
        });
        assert!(rt; granted?.is_some());
    }
    Ok(())
}
