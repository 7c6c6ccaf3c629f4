//! All sinks, their builders, and what a sink of a caller's own is made of.

pub use cadence_flow::{Handler, MetricSink, NopMetricSink, SinkErrorHandler};
pub use cadence_queuing::{
    FlushingMetricSink, QueuingMetricSink, QueuingMetricSinkBuilder, Worklist, work,
};
pub use cadence_resolve::{Runtime, Target};
pub use cadence_sinks::{
    BufferedSpyMetricSink, BufferedUdpMetricSink, BufferedUdpMetricSinkBuilder,
    BufferedUnixMetricSink, MAX_PACKET, PathSocket, SpyMetricSink, SpyReceiver, UdpMetricSink,
    UdpMetricSinkBuilder, UnixMetricSink, check_capacity, ready,
};
