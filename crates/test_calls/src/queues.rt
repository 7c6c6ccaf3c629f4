//! The three kinds of queues: without a bound, refusing when full, and dropping the oldest line when full.

use crate::record::{RecordingSink, SinkState};
use cadence::queue::QueuePolicy;
use cadence::{MetricResult, QueuingMetricSink, QueuingMetricSinkBuilder, Runtime};
use std::alloc::Global;
use std::fmt;
use std::sync::Arc;

/// The bound of a queue that has one, in lines.
pub const CAPACITY: usize = 1024;

/// Whether a queue has a bound, and what it does if it is full.
#[derive(Clone, Copy, PartialEq, Eq)]
pub enum QueueKind {
    /// It has no bound.
    Unbounded,
    /// It refuses a line if it is full.
    Refusing,
    /// It drops its oldest line for a new one if it is full.
    Dropping,
}

impl QueueKind {
    /// All three.
    pub const ALL: [QueueKind; 3] = [
        QueueKind::Unbounded,
        QueueKind::Refusing,
        QueueKind::Dropping,
    ];

    fn capacity(self) -> Option<usize> {
        match self {
            QueueKind::Unbounded => None,
            QueueKind::Refusing | QueueKind::Dropping => Some(CAPACITY),
        }
    }

    fn policy(self) -> QueuePolicy {
        match self {
            QueueKind::Unbounded | QueueKind::Refusing => QueuePolicy::Refuse,
            QueueKind::Dropping => QueuePolicy::DropOldest,
        }
    }
}

impl fmt::Display for QueueKind {
    fn fmt<W: fmt::Write>(&self, f: &mut fmt::Formatter<W>) -> fmt::Result {
        f.write_str(match self {
            QueueKind::Unbounded => "an unbounded queue",
            QueueKind::Refusing => "a queue of 1024 lines that refuses more",
            QueueKind::Dropping => "a queue of 1024 lines that drops its oldest",
        })
    }
}

/// A handle of a queue over the recording sink.
pub type Queue<R> = QueuingMetricSink<RecordingSink<R>, R>;

/// Makes a queue of this kind over a recording sink, and the state that the sink shares.
pub fn make_queue<R: Runtime>(
    rt: &R,
    alloc: Global,
    kind: QueueKind,
) -> MetricResult<(Arc<SinkState>, Queue<R>)> {
    let state = Arc::new(alloc, SinkState::new(alloc)?)?;
    let sink = RecordingSink::new(rt.clone()?, state.clone()?);
    let mut builder = QueuingMetricSinkBuilder::new().with_policy(kind.policy());
    if let Some(capacity) = kind.capacity() {
        builder = builder.with_capacity(capacity);
    }
    let queue = builder.build(rt.clone()?, alloc, sink)?;
    Ok((state, queue))
}
