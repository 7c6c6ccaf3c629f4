//! The sinks that share another sink with a thread: the queuing sink and the flushing sink.
//!
//! - `fed` and `fed_sink`: a stage that one worker feeds, and the same under a lock
//! - `feeds`: how a worker hands a line to its sink, and what proofs see of it (`handed`)
//! - `logs`: the logs that such a queue, its worker and its sink begin with
//! - `flush_timer`: when a worker that flushes by time has to flush
//! - `flushing`: a sink that is flushed by a thread again and again
//! - `repeater`: a thread that does the same work after each period
//! - `queuing`: a sink whose lines a worker thread hands to another sink
//! - `worklist`: the loop of a queuing sink's worker
#![tactic(auto)]

mod fed;
mod fed_sink;
mod feeds;
mod flush_timer;
mod flushing;
mod handed;
mod logs;
mod queuing;
mod repeater;
mod worklist;

pub use fed::{FedLogs, FedStage};
pub use fed_sink::FedSink;
pub use feeds::Feeds;
pub use flushing::FlushingMetricSink;
pub use logs::WorkerLogs;
pub use queuing::{Look, QueuingMetricSink, QueuingMetricSinkBuilder};
pub use repeater::{PeriodicWork, Repeater};
pub use worklist::{Worklist, work};
