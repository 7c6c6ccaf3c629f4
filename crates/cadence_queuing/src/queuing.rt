//! A sink that queues its lines for a worker thread, which hands them to another sink.

mod builder;
mod long_texts;
mod look;
mod look_of;
mod sink;
mod worker;

pub use builder::QueuingMetricSinkBuilder;
pub use look_of::Look;
pub use sink::QueuingMetricSink;
