//! Clients over sinks that send nothing, and what spies receive, which a test may use in place of a socket.

use crate::own::{self, Event};
use crate::{errors, kinds};
use cadence::client::ErrorHandler;
use cadence::prelude::*;
use cadence::sinks::SpyReceiver;
use cadence::{
    BufferedSpyMetricSink, Chance, Decimal, MetricResult, MetricSink, NopMetricSink, Runtime,
    SpyMetricSink, StatsdClient,
};
use std::alloc::Global;

// The example of `StatsdClient`.
fn send_and_flush<S: MetricSink>(alloc: Global, sink: S) -> MetricResult<()> {
    let client = StatsdClient::from_sink(alloc, "my.service", sink)?;
    client.count("visits", 1)?;
    client.flush()?;
    Ok(())
}

// The example of `StatsdClientBuilder`.
fn send_with_default<S: MetricSink, H: ErrorHandler>(
    alloc: Global,
    sink: S,
    handler: H,
) -> MetricResult<()> {
    let client = StatsdClient::builder(alloc, "my.service", sink)
        .with_tag("env", "prod")
        .with_handler(handler)
        .build()?;
    client.incr("visits")?;
    Ok(())
}

// The example of `NopMetricSink`.
fn send_nothing(alloc: Global) -> MetricResult<()> {
    let client = StatsdClient::from_sink(alloc, "my.service", NopMetricSink)?;
    client.incr("visits")?;
    Ok(())
}

/// Adds a line or a packet in its own line of the text, if there is one.
pub fn add_message(alloc: Global, text: &mut String, message: Option<Vec<u8>>) -> MetricResult<()> {
    if let Some(message) = message {
        let message = String::from_utf8_lossy(alloc, &message)?;
        writeln!(text, "{}", message.trim_end())?;
    }
    Ok(())
}

// Adds what a spy received: each message that waits, in its own line of the text.
fn add_messages<R: Runtime>(
    alloc: Global,
    text: &mut String,
    receiver: &SpyReceiver<R>,
) -> MetricResult<()> {
    for _ in 0..u64::MAX {
        if receiver.is_empty() {
            break;
        }
        add_message(alloc, text, receiver.try_recv())?;
    }
    Ok(())
}

// The example of `SpyMetricSink`.
fn add_line<R: Runtime>(rt: &R, alloc: Global, text: &mut String) -> MetricResult<()> {
    let (receiver, sink) = SpyMetricSink::new(rt.clone()?, alloc)?;
    StatsdClient::from_sink(alloc, "p", sink)?.incr("visits")?;
    let message = receiver.try_recv(); // p.visits:1|c
    add_message(alloc, text, message)
}

// The example of `BufferedSpyMetricSink`.
fn add_packet<R: Runtime>(rt: &R, alloc: Global, text: &mut String) -> MetricResult<()> {
    let (receiver, sink) = BufferedSpyMetricSink::new(rt.clone()?, alloc)?;
    let client = StatsdClient::from_sink(alloc, "p", sink)?;
    client.incr("visits")?;
    client.flush()?;
    let message = receiver.try_recv(); // p.visits:1|c and a newline
    add_message(alloc, text, message)
}

// Sends the metrics of the examples of calls.
fn send_all<S: MetricSink>(alloc: Global, client: &StatsdClient<Global, S>) -> MetricResult<()> {
    kinds::send_each_kind(alloc, client)?;
    kinds::send_with_options(client)?;
    if let Some(tenth) = Chance::new(Decimal::new(1, 1)?) {
        kinds::send_sample(client, tenth, 0)?;
        kinds::send_sample(client, tenth, u64::MAX)?; // not sent
    }
    kinds::send_news(client)?;
    kinds::send_seven(client)?;
    kinds::send_tenth(client)?;
    let line = String::from_str(alloc, "_e{1,1}:a|b")?;
    own::send_own(client, &Event { line })
}

/// Runs the examples, and returns what spies receive of them.
pub fn report<R: Runtime>(rt: &R, alloc: Global) -> MetricResult<String> {
    let mut text = String::new(alloc);
    let (receiver, sink) = SpyMetricSink::new(rt.clone()?, alloc)?;
    send_all(alloc, &StatsdClient::from_sink(alloc, "my.service", sink)?)?;
    add_messages(alloc, &mut text, &receiver)?;
    add_line(rt, alloc, &mut text)?;
    add_packet(rt, alloc, &mut text)?;
    send_and_flush(alloc, own::MySink)?;
    send_with_default(alloc, own::AnySink, errors::DropsErrors)?;
    send_nothing(alloc)?;
    Ok(text)
}
