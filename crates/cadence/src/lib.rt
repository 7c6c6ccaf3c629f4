//! A Statsd client: a service makes a sink, a client over it, and calls the client's metrics.
//!
//! - `client`: the client, its builders and the traits of its metrics; `prelude`: these traits, to be imported whole
//! - `sinks`: all sinks, and their builders; `ready`: sinks over UDP and a client over one, ready made
//! - `types`: errors and metric types; `value`, `decimal`, `line`: numbers, and the line of a metric
//! - `stats`: counts of what was sent; `io`: the packer; `queue`: queues; `resolve`: addresses of hosts
//! - `pipeline`: a queue, and logs that say what its threads did
//! - `ext`: what a service needs for values and metrics of its own types
//! - `schedule`: calls as data, and the proved run of a client; `laws`: facts for proofs to cite
#![tactic(auto)]

pub mod client;
pub mod decimal;
pub mod ext;
pub mod laws;
pub mod pipeline;
pub mod prelude;
pub mod queue;
pub mod ready;
pub mod resolve;
pub mod schedule;
pub mod sinks;
pub mod stats;
pub mod types;

pub use cadence_flow::io;
pub use cadence_resolve::{DEFAULT_PORT, Runtime};
pub use cadence_text::line;
pub use cadence_value::chance::Chance;
pub use cadence_value::value;
pub use client::{
    AlertType, BoxedHandler, ErrorHandler, EventBuilder, MetricBuilder, Priority,
    ServiceCheckBuilder, ServiceStatus, StatsdClient, StatsdClientBuilder,
};
pub use decimal::Decimal;
pub use line::Cardinality;
pub use prelude::{
    Counted, CountedExt, Distributed, Gauged, GaugedExt, Histogrammed, Metered, MetricClient,
    Setted, SettedExt, Timed,
};
pub use queue::QueuePolicy;
pub use ready::host;
pub use sinks::{
    BufferedSpyMetricSink, BufferedUdpMetricSink, BufferedUdpMetricSinkBuilder,
    BufferedUnixMetricSink, FlushingMetricSink, MetricSink, NopMetricSink, QueuingMetricSink,
    QueuingMetricSinkBuilder, SpyMetricSink, Target, UdpMetricSink, UdpMetricSinkBuilder,
    UnixMetricSink,
};
pub use stats::SinkStats;
pub use types::{
    Counter, Distribution, ErrorKind, Gauge, Histogram, Meter, Metric, MetricError, MetricResult,
    Set, SinkError, Timer,
};
