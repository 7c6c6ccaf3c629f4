//! The queue of texts between the callers of a sink and its worker: for one thread, and under a lock. It carries a record of
//! its past, which exists in proofs only: it costs neither memory nor time.
//!
//! - `queue_core`: the queue for one thread
//! - `policy`: what a full queue does with one more text
//! - `queue_error`: why a queue refuses a text
//! - `text_ring`: the ring that stores the texts
//! - `recorded_queue`: a queue with a record of the texts that it accepted and of those that were taken
//! - `shared_queue`: a recorded queue under a lock
//! - `under_lock`: what lies under that lock, and what a call shows of the step that it made there
//! - `entering`: how a caller takes that lock to add a text, and gives way to the worker if the queue is full
//! - `taking`: how texts are taken out of a shared queue, one by one, or several at a time by a taker
//! - `named_queue`: what is known of a shared queue whose logs have names
#![tactic(auto)]

mod entering;
mod named_queue;
mod policy;
mod queue_core;
mod queue_error;
mod recorded_queue;
mod shared_queue;
mod taking;
mod text_ring;
mod under_lock;

pub use policy::QueuePolicy;
pub use queue_core::{QueueCore, Taken};
pub use queue_error::QueueError;
pub use recorded_queue::{QueueLogs, RecordedQueue};
pub use shared_queue::SharedQueue;
pub use taking::end::TakerEnd;
pub use taking::taker::{Taker, TakerRoom};
pub use text_ring::TextRing;
pub use under_lock::QueueStep;
