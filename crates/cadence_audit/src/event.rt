//! The events of an audited queue: its calls, each with its reply.
use super::text::Text;
use cadence_queue::Taken;
use std::alloc::{Allocator, Global};

/// The reply of an audited queue to a submit.
#[derive(Clone, Copy, Debug, PartialEq, Eq)]
pub enum SubmitReply {
    /// The queue accepted the text.
    Accepted,
    /// The queue is full: the number of waiting texts has reached its capacity.
    Full,
    /// The queue is stopped.
    Stopped,
}

/// A call of an audited queue.
#[derive(Drop)]
#[derive_where(Clone; A)]
#[derive_where(PartialEq, Eq)]
pub enum AuditCall<A: Allocator = Global> {
    /// A submit of this text.
    Submit(Text<A>),
    /// A take.
    Take,
    /// A stop.
    Stop,
}

/// The reply of an audited queue to a call.
#[derive(Drop)]
#[derive_where(Clone; A)]
#[derive_where(PartialEq, Eq)]
pub enum AuditReply<A: Allocator = Global> {
    /// The reply to a submit.
    Submit(SubmitReply),
    /// The reply to a take.
    Take(Taken<Text<A>>),
    /// The reply to a stop.
    Stop,
}

/// A call of an audited queue, with its reply.
#[derive(Drop)]
#[derive_where(Clone; A)]
#[derive_where(PartialEq, Eq)]
pub struct Event<A: Allocator = Global> {
    /// The number of the caller's seat.
    pub seat: usize,
    /// How many events the seat had before this one.
    pub count: usize,
    /// The call.
    pub call: AuditCall<A>,
    /// The reply.
    pub reply: AuditReply<A>,
}
