//! The kinds of metrics, as types that are parameters of `MetricText`. These types have no values.
ghost use Rattle.cadence_text.specs.declared.line.MetricType.TheVariants as kind;

use cadence_text::line::MetricType;

/// A kind of metrics. The seven types of this module implement it.
pub trait MetricKind {
    ghost use Rattle.cadence_text.specs.declared.line.MetricType.{MetricType};

    ghost TYPE: { MetricType };

    /// The kind, as a value.
    const TYPE: MetricType;
}

/// The kind of a counter.
#[derive(Drop)]
pub enum Counter {}

impl MetricKind for Counter {
    ghost TYPE = { kind.Counter };

    const TYPE: MetricType = MetricType::Counter;
}

/// The kind of a timer.
#[derive(Drop)]
pub enum Timer {}

impl MetricKind for Timer {
    ghost TYPE = { kind.Timer };

    const TYPE: MetricType = MetricType::Timer;
}

/// The kind of a gauge.
#[derive(Drop)]
pub enum Gauge {}

impl MetricKind for Gauge {
    ghost TYPE = { kind.Gauge };

    const TYPE: MetricType = MetricType::Gauge;
}

/// The kind of a meter.
#[derive(Drop)]
pub enum Meter {}

impl MetricKind for Meter {
    ghost TYPE = { kind.Meter };

    const TYPE: MetricType = MetricType::Meter;
}

/// The kind of a histogram.
#[derive(Drop)]
pub enum Histogram {}

impl MetricKind for Histogram {
    ghost TYPE = { kind.Histogram };

    const TYPE: MetricType = MetricType::Histogram;
}

/// The kind of a distribution.
#[derive(Drop)]
pub enum Distribution {}

impl MetricKind for Distribution {
    ghost TYPE = { kind.Distribution };

    const TYPE: MetricType = MetricType::Distribution;
}

/// The kind of a set.
#[derive(Drop)]
pub enum Set {}

impl MetricKind for Set {
    ghost TYPE = { kind.Set };

    const TYPE: MetricType = MetricType::Set;
}
