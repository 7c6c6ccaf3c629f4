//! What a service needs for values and metrics of its own types, and for a packer over its own transport.

pub use crate::client::MetricBackend;
pub use cadence_flow::SocketStats;
pub use cadence_flow::io::{MultiLineWriter, PacketWriter};
pub use cadence_value::value::{
    MetricValue, ToCounterValue, ToDistributionValue, ToGaugeValue, ToHistogramValue, ToMeterValue,
    ToSetValue, ToTimerValue,
};
