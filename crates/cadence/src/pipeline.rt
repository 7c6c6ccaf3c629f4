//! What a service needs that asks what its threads did: a queue whose worker feeds a stage, the logs of both, and looks at
//! them. The methods `accepted`, `emit_seen`, `look` and `stop_and_flush` of `QueuingMetricSink` are those of such a queue.

pub use cadence_queuing::{FedLogs, FedSink, Look, WorkerLogs};
pub use cadence_sinks::{SpyLines, UdpLines, UnixLines};
pub use cadence_stage::{Named, Names, Seen};
