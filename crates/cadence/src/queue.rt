//! The queue between the callers of a sink and its worker, and a queue that records its history.

pub use cadence_audit::{
    AuditCall, AuditError, AuditReply, AuditedQueue, EndFault, Event, History, Seat, SubmitReply,
    Text,
};
pub use cadence_queue::{QueueCore, QueueError, QueuePolicy, QueueStep, SharedQueue, Taken};
