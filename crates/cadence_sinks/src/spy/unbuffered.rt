//! A sink for tests that makes each line a message of its receiver.
ghost use Rattle.std.specs.Prelude.{vec_items};
ghost use Rattle.cadence_errors.specs.Errors.{MayOnlyRunOutOfMemory};
ghost use Rattle.cadence_queue.specs.Answers.{IsCopyQueued, IsQueueAnswer};
ghost use Rattle.cadence_stage.specs.Answered.{IsAnswered};

use super::channel::{MessageStep, Sender, SpyReceiver, new_channel};
use cadence_errors::{MetricResult, SinkError};
use cadence_flow::MetricSink;
use cadence_stage::{AnsweringSink, OneCall, emit_by};
use std::alloc::{Allocator, Global};
use std::sync::Wait;

/// A sink for tests that makes each line a message of its receiver.
///
/// `emit` returns the line's length. The errors are `ChannelDisconnected` if the receiver was dropped, `ChannelFull` if
/// the queue has no room for one more message, and `OutOfMemory`, in this order. The sink has no counts. It stores the
/// runtime `R`, which taking the lock of its queue needs.
///
/// ```text
/// let (receiver, sink) = SpyMetricSink::new(rt.clone()?, alloc)?;
/// StatsdClient::from_sink(alloc, "p", sink)?.incr("visits")?;
/// let message = receiver.try_recv(); // p.visits:1|c
/// ```
#[derive(Drop)]
pub struct SpyMetricSink<R: Wait + Drop, A: Allocator = Global> {
    sender: Sender<R, A>,
}

impl<R: Wait + Clone + Drop, A: Allocator + Clone> SpyMetricSink<R, A> {
    /// Makes a spy and its receiver, with a queue for any number of messages. The only error is `OutOfMemory`.
    pub fn new(rt: R, alloc: A) -> MetricResult<(SpyReceiver<R, A>, Self)>
        ensures { MayOnlyRunOutOfMemory result }
    {
        let (receiver, sender) = new_channel(rt, alloc, None)?;
        Ok((receiver, SpyMetricSink { sender }))
    }

    /// Makes a spy and its receiver, with a queue for at most `queue` messages. The only error is `OutOfMemory`.
    pub fn with_capacity(rt: R, alloc: A, queue: usize) -> MetricResult<(SpyReceiver<R, A>, Self)>
        ensures { MayOnlyRunOutOfMemory result }
    {
        let (receiver, sender) = new_channel(rt, alloc, Some(queue))?;
        Ok((receiver, SpyMetricSink { sender }))
    }
}

impl<R: Wait + Drop, A: Allocator + Clone> AnsweringSink for SpyMetricSink<R, A> {
    type Receipt = MessageStep<A>;

    ghost may_answer = { λ _ line answer. IsQueueAnswer line answer };

    ghost shows = { λ _ receipt line answer. IsCopyQueued vec_items receipt line answer };

    fn emit_line(&self, line: &str, fault: &mut SinkError) -> (Option<usize>, MessageStep<A>) {
        self.sender.offer(line.as_bytes(), fault)
    }
}

impl<R: Wait + Drop, A: Allocator + Clone> MetricSink for SpyMetricSink<R, A> {
    ghost may_answer = { λ _ line answer.
        IsQueueAnswer line answer × IsAnswered line answer };

    ghost flush_may_succeed = { λ _ _. tt };

    #[inline(always)]
    fn emit(&self, line: &str) -> Result<usize, SinkError> {
        let mut fault = SinkError::NothingWritten;
        emit_by(OneCall::of(self), line, &mut fault).ok_or(fault)
    }
}
