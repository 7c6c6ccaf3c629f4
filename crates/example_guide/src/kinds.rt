//! Each kind of metric, and what a metric may have besides its value: tags, a container, a cardinality, a timestamp,
//! a sampling rate. Samples of calls, events and service checks.

use cadence::decimal::Decimal;
use cadence::prelude::*;
use cadence::{
    AlertType, Cardinality, Chance, MetricResult, MetricSink, ServiceStatus, StatsdClient,
};
use std::alloc::Global;
use std::time::Duration;

/// Sends a metric of each kind.
pub fn send_each_kind<S: MetricSink>(
    alloc: Global,
    client: &StatsdClient<Global, S>,
) -> MetricResult<()> {
    client.count("visits", 3)?;
    client.incr("logins")?;
    client.decr("sessions")?;
    client.time("startup", Duration::from_millis(1250))?;
    client.gauge("load", Decimal::new(75, 2)?)?;
    client.meter("bytes", 4096)?;
    client.histogram("size", 512u64)?;
    client.distribution("latency", Vec::from_slice(alloc, &[29u64, 30, 31])?)?;
    client.set("users", 42)?;
    client.set_text("users", "alice")?;
    client.change("load", Decimal::new(5, 1)?)?; // +0.5
    client.level("balance", Decimal::new(-5, 0)?)?; // 0, then -5
    Ok(())
}

/// Sends a counter with each option of a call.
pub fn send_with_options<S: MetricSink>(client: &StatsdClient<Global, S>) -> MetricResult<()> {
    let half = Decimal::new(5, 1)?;
    client
        .count_with_tags("visits", 1)
        .with_tag("page", "home")
        .with_tag_value("beta")
        .with_container_id("c0ffee")
        .with_cardinality(Cardinality::Low)
        .with_timestamp(1_700_000_000)
        .with_sampling_rate(half)
        .try_send()?;
    Ok(())
}

/// Sends a sample of a counter: it is sent if the number drawn, divided by 2^64, is below the chance.
pub fn send_sample<S: MetricSink>(
    client: &StatsdClient<Global, S>,
    tenth: Chance,
    draw: u64,
) -> MetricResult<()> {
    client
        .incr_with_tags("requests")
        .try_send_sampled(tenth, draw)?; // requests:1|c|@0.1
    Ok(())
}

/// Sends an event and a service check.
pub fn send_news<S: MetricSink>(client: &StatsdClient<Global, S>) -> MetricResult<()> {
    client
        .event("Deploy", "version 2.1")
        .with_alert_type(AlertType::Info)
        .with_tag("env", "prod")
        .try_send()?; // _e{6,11}:Deploy|version 2.1|t:info|#env:prod
    client
        .service_check("web", ServiceStatus::Critical)
        .with_message("no answer")
        .try_send()?; // _sc|web|2|m:no answer
    Ok(())
}

/// Sends the metrics of the examples of `MetricClient`.
pub fn send_seven<S: MetricSink>(client: &StatsdClient<Global, S>) -> MetricResult<()> {
    client.count("visits", 1)?;
    client.time("startup", Duration::from_millis(1250))?;
    client.gauge("temperature", Decimal::new(215, 1)?)?;
    client.meter("requests", 5)?;
    client.histogram("latency", Duration::from_micros(83))?;
    client.distribution("payload", 1500)?;
    client.set("users", 4711)?;
    client.set_text("users", "alice")?;
    client.change("load", Decimal::new(3, 0)?)?;
    Ok(())
}

/// Sends the metric of the example of `MetricBuilder`.
pub fn send_tenth<S: MetricSink>(client: &StatsdClient<Global, S>) -> MetricResult<()> {
    let tenth = Decimal::new(1, 1)?;
    client
        .count_with_tags("visits", 1)
        .with_tag("page", "home")
        .with_sampling_rate(tenth)
        .try_send()?;
    Ok(())
}
