//! Makes calls of a client, whose size is an argument.

use crate::done::{BlackBox, Done, Note};
use cadence::prelude::*;
use cadence::{Metric, MetricResult, MetricSink, NopMetricSink, StatsdClient};
use std::alloc::Global;
use std::time::Instant;

/// Sends counters over a client with `count` default tags.
pub fn default_tags(rt: &HostRuntime, calls: u64, count: usize) -> MetricResult<Done> {
    let sink: Box<dyn MetricSink + Send + Sync> = Box::new(rt.alloc(), NopMetricSink)?;
    let mut builder = StatsdClient::builder(rt.alloc(), "some.prefix", sink);
    for _ in 0..count {
        builder = builder.with_tag("region", "us-east-2");
    }
    let client = builder.build()?;
    tags(rt, &client, calls, 0)
}

/// Sends counters with `tags` tags of their own.
pub fn tags<S: MetricSink>(
    rt: &HostRuntime,
    client: &StatsdClient<Global, S>,
    calls: u64,
    tags: usize,
) -> MetricResult<Done> {
    let hidden = BlackBox::new();
    let mut check = 0u64;
    let start = Instant::now(rt)?;
    for i in 0..calls {
        let mut call = client.count_with_tags(
            hidden.text("some.counter"),
            hidden.hide((i % 1000) as i64, 0),
        );
        for _ in 0..tags {
            call = call.with_tag(hidden.text("region"), hidden.text("us-east-2"));
        }
        let metric = call.try_send()?;
        check = check.wrapping_add(metric.as_metric_str().len() as u64);
    }
    Ok(Done {
        time: start.elapsed(rt)?,
        check,
        note: Note::Nothing,
    })
}

/// Sends histograms of `count` values.
pub fn values(
    rt: &HostRuntime,
    client: &StatsdClient,
    calls: u64,
    count: usize,
) -> MetricResult<Done> {
    let hidden = BlackBox::new();
    let mut check = 0u64;
    let start = Instant::now(rt)?;
    for i in 0..calls {
        let first = hidden.hide(i % 1000, 0);
        let mut values = Vec::with_capacity(rt.alloc(), count)?;
        for j in 0..count {
            values.push(first.wrapping_add(j as u64))?;
        }
        let metric = client.histogram(hidden.text("some.histogram"), values)?;
        check = check.wrapping_add(metric.as_metric_str().len() as u64);
    }
    Ok(Done {
        time: start.elapsed(rt)?,
        check,
        note: Note::Nothing,
    })
}

/// Sends counters with a key of `length` bytes.
pub fn key(
    rt: &HostRuntime,
    client: &StatsdClient,
    calls: u64,
    length: usize,
) -> MetricResult<Done> {
    let key = "k".repeat(rt.alloc(), length)?;
    let hidden = BlackBox::new();
    let mut check = 0u64;
    let start = Instant::now(rt)?;
    for i in 0..calls {
        let metric = client.count(hidden.text(&key), hidden.hide((i % 1000) as i64, 0))?;
        check = check.wrapping_add(metric.as_metric_str().len() as u64);
    }
    Ok(Done {
        time: start.elapsed(rt)?,
        check,
        note: Note::Nothing,
    })
}
