//! A sink that adds up lines, what a spy below it receives, and a client whose calls make no line.

use crate::clients::add_message;
use cadence::prelude::*;
use cadence::ready::{buffered_udp_sink, host};
use cadence::{MetricResult, MetricSink, Runtime, SpyMetricSink, StatsdClient};
use cadence_aggregating::{AggregatedClient, AggregatingMetricSink, AggregatingMetricSinkBuilder};
use std::alloc::Global;
use std::time::Duration;

/// Counts over a sink that sends sums every two seconds.
pub fn count_by_sums<R: Runtime>(rt: &R, alloc: Global) -> MetricResult<()> {
    let inner = buffered_udp_sink(rt, alloc, host(alloc, "localhost", 8125)?, 1432)?;
    let builder = AggregatingMetricSinkBuilder::new()
        .with_max_contexts(1000)
        .with_flush_period(Duration::from_secs(2));
    let sink = builder.build(rt.clone()?, alloc, inner)?;
    let client = StatsdClient::from_sink(alloc, "my.service", sink)?;
    client.incr("visits")?;
    client.flush()
}

// Counts by a key of a client over a sink.
fn count_over<S: MetricSink, R: Runtime>(rt: &R, alloc: Global, sink: S) -> MetricResult<()> {
    let client = AggregatedClient::from_sink(rt.clone()?, alloc, "my.service", sink)?;
    let visits = client.counter_key("visits", &[])?;
    client.incr(&visits)?;
    client.count(&visits, 2)?;
    client.flush()?; // my.service.visits:3|c
    Ok(())
}

// Adds up two lines. It is the example of `AggregatingMetricSink`.
fn sum_of_two<R: Runtime>(rt: &R, alloc: Global, text: &mut String) -> MetricResult<()> {
    let (receiver, spy) = SpyMetricSink::new(rt.clone()?, alloc)?;
    let sink = AggregatingMetricSink::from(rt.clone()?, alloc, spy)?;
    sink.emit("visits:1|c")?;
    sink.emit("visits:2|c")?;
    sink.flush()?;
    let message = receiver.try_recv(); // visits:3|c
    add_message(alloc, text, message)
}

/// Returns the messages of two spies: one got the sum of two lines, and the other one that of two calls by a key.
pub fn report<R: Runtime>(rt: &R, alloc: Global) -> MetricResult<String> {
    let mut text = String::new(alloc);
    sum_of_two(rt, alloc, &mut text)?;
    let (receiver, spy) = SpyMetricSink::new(rt.clone()?, alloc)?;
    count_over(rt, alloc, spy)?;
    add_message(alloc, &mut text, receiver.try_recv())?;
    Ok(text)
}
