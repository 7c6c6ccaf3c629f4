//! Counts of the bytes and packets that were sent and dropped.

pub use cadence_flow::SocketStats;
pub use cadence_flow::stats::SinkStats;
