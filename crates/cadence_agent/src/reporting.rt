//! The counts of a sink, sent again and again as metrics over the sink itself.

mod counts;
mod reports;
mod sink;

pub use counts::{Count, Growth, SinkCounts, growths_between};
pub use sink::ReportingMetricSink;
