//! The traits of all metrics as one bound.

use crate::client::backend::MetricBackend;
use crate::client::text_traits::{GaugedExt, SettedExt};
use crate::client::traits::{
    Counted, CountedExt, Distributed, Gauged, Histogrammed, Metered, Setted, Timed,
};
use cadence_value::decimal::Decimal;
use std::time::Duration;

/// Sends metrics of each kind with values of each type: the bound of code that is generic over its client.
///
/// ```text
/// client.count("visits", 1)?;
/// client.time("startup", Duration::from_millis(1250))?;
/// client.gauge("temperature", Decimal::new(215, 1)?)?;
/// client.meter("requests", 5)?;
/// client.histogram("latency", Duration::from_micros(83))?;
/// client.distribution("payload", 1500)?;
/// client.set("users", 4711)?;
/// client.set_text("users", "alice")?;
/// client.change("load", Decimal::new(3, 0)?)?;
/// ```
pub trait MetricClient: MetricBackend
    + Counted<i64>
    + Counted<i32>
    + Counted<u64>
    + Counted<u32>
    + CountedExt
    + Timed<u64>
    + Timed<Duration>
    + Timed<Vec<u64, <Self as MetricBackend>::Memory>>
    + Timed<Vec<Duration, <Self as MetricBackend>::Memory>>
    + Gauged<u64>
    + Gauged<Decimal>
    + Metered<u64>
    + Histogrammed<u64>
    + Histogrammed<Decimal>
    + Histogrammed<Duration>
    + Histogrammed<Vec<u64, <Self as MetricBackend>::Memory>>
    + Histogrammed<Vec<Decimal, <Self as MetricBackend>::Memory>>
    + Histogrammed<Vec<Duration, <Self as MetricBackend>::Memory>>
    + Distributed<u64>
    + Distributed<Decimal>
    + Distributed<Vec<u64, <Self as MetricBackend>::Memory>>
    + Distributed<Vec<Decimal, <Self as MetricBackend>::Memory>>
    + Setted<i64>
    + SettedExt
    + GaugedExt {}

// The bounds are repeated here, because the checker finds no impl of such a trait for a type parameter.
impl<C> MetricClient for C
where
    C: MetricBackend
        + Counted<i64>
        + Counted<i32>
        + Counted<u64>
        + Counted<u32>
        + CountedExt
        + Timed<u64>
        + Timed<Duration>
        + Timed<Vec<u64, <C as MetricBackend>::Memory>>
        + Timed<Vec<Duration, <C as MetricBackend>::Memory>>
        + Gauged<u64>
        + Gauged<Decimal>
        + Metered<u64>
        + Histogrammed<u64>
        + Histogrammed<Decimal>
        + Histogrammed<Duration>
        + Histogrammed<Vec<u64, <C as MetricBackend>::Memory>>
        + Histogrammed<Vec<Decimal, <C as MetricBackend>::Memory>>
        + Histogrammed<Vec<Duration, <C as MetricBackend>::Memory>>
        + Distributed<u64>
        + Distributed<Decimal>
        + Distributed<Vec<u64, <C as MetricBackend>::Memory>>
        + Distributed<Vec<Decimal, <C as MetricBackend>::Memory>>
        + Setted<i64>
        + SettedExt
        + GaugedExt,
{}
