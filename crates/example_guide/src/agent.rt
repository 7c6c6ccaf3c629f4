//! A client of the environment, and clients of an agent at a Unix socket.

use cadence::prelude::*;
use cadence::{
    MetricResult, MetricSink, QueuingMetricSinkBuilder, Runtime, StatsdClient, UnixMetricSink,
};
use cadence_agent::{
    Environment, EnvironmentExt, UnixSocket, buffered_unix_sink, sink_to, unix_sink,
};
use std::alloc::Global;
use std::env::Env;
use std::time::Duration;

/// Counts over a client that sends where the environment says. It is the example of `EnvironmentExt`.
pub fn count_by_environment<R: Runtime + Env>(rt: &R, alloc: Global) -> MetricResult<()> {
    let environment = Environment::read(&(rt, alloc))?;
    let sink = sink_to(rt, alloc, environment.destination())?;
    let client = environment.builder(alloc, "my.service", sink).build()?;
    client.incr("visits")?;
    client.flush()
}

/// Counts over a queue to an agent.
pub fn send_to_agent<R: Runtime>(rt: &R, alloc: Global, path: &str) -> MetricResult<()> {
    let queue = QueuingMetricSinkBuilder::new()
        .with_capacity(1000)
        .with_flush_period(Duration::from_secs(1));
    let inner = buffered_unix_sink(rt, alloc, path, 1432)?;
    let sink = queue.build(rt.clone()?, alloc, inner)?;
    let client = StatsdClient::from_sink(alloc, "my.service", sink)?;
    client.incr("visits")?;
    client.sink().stop_and_wait();
    client.flush()
}

/// Sends a line to a path. It is the example of `UnixSocket`.
pub fn send_to_nobody<R: Runtime>(rt: &R, alloc: Global) -> MetricResult<usize> {
    let socket = UnixSocket::new(rt)?;
    let sink = UnixMetricSink::from(rt.clone()?, alloc, "/run/statsd.sock", socket)?;
    Ok(sink.emit("p.visits:1|c")?)
}

/// Counts over a client to a path. It is the example of `unix_sink`.
pub fn count_for_nobody<R: Runtime>(rt: &R, alloc: Global) -> MetricResult<()> {
    let sink = unix_sink(rt, alloc, "/run/statsd.sock")?;
    let client = StatsdClient::from_sink(alloc, "my.service", sink)?;
    client.incr("visits")?;
    Ok(())
}
