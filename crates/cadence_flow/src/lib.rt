//! What lines flow through, below the sinks themselves: the trait of all sinks, the packer, which keeps a log of its calls,
//! and the counts of a socket.
//!
//! - `io`: the packer, the writers of packets below it, and a writer that keeps its packets
//! - `stats`: sums of bytes and packets, and the counts of a socket, which are such sums under a lock
//! - `metric_sink`: the trait of all sinks, and a sink that drops each line
//! - `packer`: the packer as a stage, over a writer with a record of its packets (`recorded_writer`)
//! - `thread`: starts a thread that does a job
//! - `handler`: a caller's closure that receives the errors of a sink or of a resolver
#![tactic(auto)]

mod handler;
pub mod io;
mod metric_sink;
mod packer;
mod recorded_writer;
pub mod stats;
pub mod thread;

pub use handler::{Handler, SinkErrorHandler};
pub use metric_sink::{MetricSink, NopMetricSink};
pub use packer::RecordedPacker;
pub use recorded_writer::RecordedWriter;
pub use stats::{Counted, SocketStats};
