//! What a service does with errors.

use cadence::client::ErrorHandler;
use cadence::prelude::*;
use cadence::types::SinkError;
use cadence::{
    MetricError, MetricResult, MetricSink, NopMetricSink, QueuingMetricSink, Runtime, StatsdClient,
};
use std::alloc::Global;
use std::sync::Arc;
use std::sync::atomic::{AtomicU64, Ordering};
use std::time::Duration;

/// Counts the metrics that are lost.
#[derive(Drop)]
pub struct LostMetrics {
    number: Arc<AtomicU64>,
}

impl ErrorHandler for LostMetrics {
    fn handle(&self, _error: MetricError) {
        self.number.fetch_add(1, Ordering::SeqCst);
    }
}

/// Drops each error.
#[derive(Drop)]
pub struct DropsErrors;

impl ErrorHandler for DropsErrors {
    fn handle(&self, _error: MetricError) {}
}

/// Sends without an answer: an error goes to the client's handler.
pub fn send_quietly<S: MetricSink, H: ErrorHandler>(client: &StatsdClient<Global, S, H>) {
    client
        .count_with_tags("visits", 1)
        .with_tag("page", "home")
        .send();
}

// Sends a duration that is too long over a client that counts the metrics that are lost, and returns how many were.
fn lost_metrics(alloc: Global) -> MetricResult<u64> {
    let number = Arc::new(alloc, AtomicU64::new(0))?;
    let handler = LostMetrics {
        number: number.clone()?,
    };
    let client = StatsdClient::builder(alloc, "my.service", NopMetricSink)
        .with_handler(handler)
        .build()?;
    client.time_with_tags("wait", Duration::MAX).send();
    Ok(number.load(Ordering::SeqCst))
}

// The example of `MetricError`.
fn is_full(error: &MetricError) -> bool {
    // Whether a call found the queue full, so that a later call may succeed.
    let is_full = matches!(error.sink_error(), Some(SinkError::ChannelFull));
    is_full
}

/// Returns how many metrics a client lost, and whether the error of a queue for no lines says that it is full.
pub fn report<R: Runtime>(rt: &R, alloc: Global) -> MetricResult<String> {
    let mut text = format!(in alloc; "{} lost\n", lost_metrics(alloc)?)?;
    let none = QueuingMetricSink::with_capacity(rt.clone()?, alloc, NopMetricSink, 0)?;
    if let Err(error) = StatsdClient::from_sink(alloc, "p", none)?.incr("visits") {
        writeln!(&mut text, "full: {}", is_full(&error))?;
    }
    Ok(text)
}
