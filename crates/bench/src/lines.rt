//! Makes calls of a client, each of one size.

use crate::done::{BlackBox, Done, Note};
use cadence::prelude::*;
use cadence::{Decimal, Metric, MetricResult, MetricSink, NopMetricSink, StatsdClient};
use std::time::Instant;

/// Sends counters without tags.
pub fn count(rt: &HostRuntime, client: &StatsdClient, calls: u64) -> MetricResult<Done> {
    let hidden = BlackBox::new();
    let mut check = 0u64;
    let start = Instant::now(rt)?;
    for i in 0..calls {
        let metric = client.count(
            hidden.text("some.counter"),
            hidden.hide((i % 1000) as i64, 0),
        )?;
        check = check.wrapping_add(metric.as_metric_str().len() as u64);
    }
    Ok(Done {
        time: start.elapsed(rt)?,
        check,
        note: Note::Nothing,
    })
}

/// Sends counters with three tags of their own, two of them with a key.
pub fn count_tags(rt: &HostRuntime, client: &StatsdClient, calls: u64) -> MetricResult<Done> {
    let hidden = BlackBox::new();
    let mut check = 0u64;
    let start = Instant::now(rt)?;
    for i in 0..calls {
        let metric = client
            .count_with_tags(
                hidden.text("some.counter"),
                hidden.hide((i % 1000) as i64, 0),
            )
            .with_tag(hidden.text("host"), hidden.text("web03.example.com"))
            .with_tag(hidden.text("region"), hidden.text("us-east-2"))
            .with_tag_value(hidden.text("beta"))
            .try_send()?;
        check = check.wrapping_add(metric.as_metric_str().len() as u64);
    }
    Ok(Done {
        time: start.elapsed(rt)?,
        check,
        note: Note::Nothing,
    })
}

/// Sends counters with all options of a call: two tags, one of them with a key, a container, a time and a rate.
pub fn options(rt: &HostRuntime, client: &StatsdClient, calls: u64) -> MetricResult<Done> {
    let hidden = BlackBox::new();
    let mut check = 0u64;
    let half = Decimal::new(5, 1)?;
    let start = Instant::now(rt)?;
    for i in 0..calls {
        let metric = client
            .count_with_tags(
                hidden.text("some.counter"),
                hidden.hide((i % 1000) as i64, 0),
            )
            .with_tag(hidden.text("host"), hidden.text("web03.example.com"))
            .with_tag_value(hidden.text("beta"))
            .with_container_id(hidden.text("4bb1"))
            .with_timestamp(hidden.hide(1_700_000_000, 0))
            .with_sampling_rate(half)
            .try_send()?;
        check = check.wrapping_add(metric.as_metric_str().len() as u64);
    }
    Ok(Done {
        time: start.elapsed(rt)?,
        check,
        note: Note::Nothing,
    })
}

/// Sends counters as `count_tags` does, over a strict client.
pub fn strict_tags(rt: &HostRuntime, calls: u64) -> MetricResult<Done> {
    let sink: Box<dyn MetricSink + Send + Sync> = Box::new(rt.alloc(), NopMetricSink)?;
    let client = StatsdClient::builder(rt.alloc(), "some.prefix", sink)
        .with_strict_texts()
        .build()?;
    count_tags(rt, &client, calls)
}

/// Sends histograms of four values.
pub fn histogram4(rt: &HostRuntime, client: &StatsdClient, calls: u64) -> MetricResult<Done> {
    let hidden = BlackBox::new();
    let mut check = 0u64;
    let start = Instant::now(rt)?;
    for i in 0..calls {
        let v = hidden.hide(i % 1000, 0);
        let values = Vec::from_slice(
            rt.alloc(),
            &[v, v.wrapping_add(1), v.wrapping_add(2), v.wrapping_add(3)],
        )?;
        let metric = client.histogram(hidden.text("some.histogram"), values)?;
        check = check.wrapping_add(metric.as_metric_str().len() as u64);
    }
    Ok(Done {
        time: start.elapsed(rt)?,
        check,
        note: Note::Nothing,
    })
}
