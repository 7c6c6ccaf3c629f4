//! The ends: each function sends lines, and then drops its client, as docs/reference.md says of the end of a process.
//! Nobody flushes before the drop.
use crate::Given;
use cadence::client::ClientSettings;
use cadence::prelude::*;
use cadence::{
    FlushingMetricSink, MetricResult, MetricSink, QueuingMetricSink, Runtime, StatsdClient,
};
use cadence_agent::ReportingMetricSink;
use cadence_aggregating::AggregatingMetricSinkBuilder;
use std::alloc::Global;
use std::sync::Wait;
use std::time::Duration;

// A period that doesn't pass while the program runs.
fn hour() -> Duration {
    Duration::from_secs(3600)
}

fn send<S: MetricSink>(client: &StatsdClient<Global, S>, lines: u64) -> MetricResult<()> {
    for _ in 0..lines {
        client.incr("visits")?;
    }
    Ok(())
}

// Sends the lines over a sink, and drops the client and so the sink.
fn send_and_drop<S: MetricSink>(alloc: Global, sink: S, lines: u64) -> MetricResult<()> {
    let client = StatsdClient::from_sink(alloc, "p", sink)?;
    send(&client, lines)
}

fn queue<R: Runtime>(rt: &R, alloc: Global, given: Given<R>) -> MetricResult<()> {
    let sink = QueuingMetricSink::from(rt.clone()?, alloc, given.sink)?;
    let client = StatsdClient::from_sink(alloc, "p", sink)?;
    send(&client, given.lines)?;
    client.sink().stop_and_wait();
    Ok(())
}

fn keys<R: Runtime>(rt: &R, alloc: Global, given: Given<R>) -> MetricResult<()> {
    let builder = AggregatingMetricSinkBuilder::new().with_flush_period(hour());
    let settings = ClientSettings::new(alloc, "p")?;
    let client = builder.build_client(rt.clone()?, alloc, settings, given.sink)?;
    let key = client.counter_key("visits", &[])?;
    for _ in 0..given.lines {
        client.incr(&key)?;
    }
    Ok(())
}

// The sums leave at the drop of the client, and after that the queue is stopped.
fn aggregating_over_a_queue<R: Runtime>(
    rt: &R,
    alloc: Global,
    given: Given<R>,
) -> MetricResult<()> {
    let queue = QueuingMetricSink::from(rt.clone()?, alloc, given.sink)?;
    let builder = AggregatingMetricSinkBuilder::new().with_flush_period(hour());
    let sink = builder.build(rt.clone()?, alloc, queue.clone()?)?;
    send_and_drop(alloc, sink, given.lines)?;
    queue.stop_and_wait();
    Ok(())
}

// A report before the queue is stopped, as its drop's own report would be refused.
fn reporting_over_a_queue<R: Runtime>(rt: &R, alloc: Global, given: Given<R>) -> MetricResult<()> {
    let queue = QueuingMetricSink::from(rt.clone()?, alloc, given.sink)?;
    let sink = ReportingMetricSink::new(rt.clone()?, alloc, queue, "me", hour())?;
    let client = StatsdClient::from_sink(alloc, "p", sink)?;
    send(&client, given.lines)?;
    client.sink().report()?;
    client.sink().sink().stop_and_wait();
    Ok(())
}

/// Runs the row of this name. A name that is none sends nothing.
pub fn run<R: Runtime>(rt: &R, alloc: Global, name: &str, given: Given<R>) -> MetricResult<()> {
    let Given { sink, lines } = given;
    match name {
        "queue" => queue(rt, alloc, Given { sink, lines }),
        "flushing" => {
            let sink = FlushingMetricSink::new(rt.clone()?, alloc, sink, hour())?;
            send_and_drop(alloc, sink, lines)
        }
        "aggregating" => {
            let builder = AggregatingMetricSinkBuilder::new().with_flush_period(hour());
            send_and_drop(alloc, builder.build(rt.clone()?, alloc, sink)?, lines)
        }
        "keys" => keys(rt, alloc, Given { sink, lines }),
        "reporting" => {
            let sink = ReportingMetricSink::new(rt.clone()?, alloc, sink, "me", hour())?;
            send_and_drop(alloc, sink, lines)
        }
        "aggregating_over_a_queue" => aggregating_over_a_queue(rt, alloc, Given { sink, lines }),
        "reporting_over_a_queue" => reporting_over_a_queue(rt, alloc, Given { sink, lines }),
        _ => Ok(()),
    }
}
