//! A program of the Rust crate's README, ported: a sink over the caller's own socket, which looks its host up again
//! every five seconds.

use cadence::prelude::*;
use cadence::ready::host;
use cadence::types::SinkError;
use cadence::{
    BufferedUdpMetricSink, BufferedUdpMetricSinkBuilder, DEFAULT_PORT, MetricResult, Runtime,
    StatsdClient,
};
use std::alloc::Global;
use std::net::UdpSocket;
use std::sync::Arc;
use std::sync::atomic::{AtomicU64, Ordering};
use std::time::Duration;

// Makes the sink. Its handler counts the lookups that fail.
fn make_sink<R: Runtime>(
    rt: &R,
    alloc: Global,
    failures: Arc<AtomicU64>,
) -> MetricResult<BufferedUdpMetricSink<R>> {
    let host = host(alloc, "localhost", DEFAULT_PORT)?;
    let socket = UdpSocket::bind(rt, "0.0.0.0:0")?;
    socket.set_nonblocking(true)?;
    socket.set_write_timeout(Some(Duration::from_millis(1)))?;
    BufferedUdpMetricSinkBuilder::new()
        .with_capacity(1024)
        .with_resolver_period(Duration::from_secs(5))
        .with_resolver_error_handler(Box::new(alloc, move |_e: SinkError| {
            failures.fetch_add(1, Ordering::SeqCst);
        })?)
        .build(rt.clone()?, alloc, host, socket)
}

/// Sends two lines over such a sink.
pub fn send_over_re_resolving_sink<R: Runtime>(rt: &R, alloc: Global) -> MetricResult<()> {
    let sink = make_sink(rt, alloc, Arc::new(alloc, AtomicU64::new(0))?)?;
    let client = StatsdClient::from_sink(alloc, "my.prefix", sink)?;
    client.count("my.counter.thing", 29)?;
    client.time("my.service.call", 214u64)?;
    Ok(())
}
