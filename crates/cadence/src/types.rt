//! The errors of this library, the metric types, and the kinds of metrics as types (`kinds`).

pub mod kinds;
mod metric;

pub use cadence_errors::{
    Description, ErrorKind, MAX_DESCRIPTION, MetricError, MetricResult, SinkError,
};
pub use kinds::MetricKind;
pub use metric::{Counter, Distribution, Gauge, Histogram, Meter, Metric, MetricText, Set, Timer};
