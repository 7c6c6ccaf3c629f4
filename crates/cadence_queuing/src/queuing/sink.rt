//! The queuing sink, as callers see it: a handle of the queue.
ghost use Rattle.std.specs.Option.{ForSome};
ghost use Rattle.std.specs.Prelude.{◌≡◌, ◌∷◌, [], ◌++◌, IfErr, IfOk, List, Option, String, string_bytes};
ghost use Rattle.std.specs.Arc.{arc_value};
ghost use Rattle.cadence_queue.specs.Answers.{IsCopyQueued};
ghost use Rattle.cadence_queue.specs.Queue.{Accepts};
ghost use Rattle.cadence_queue.specs.Shown.{IsRefused, accepted_after, after_of, before_of, log_after};
ghost use Rattle.cadence_queuing.specs.Queuing.{IsQueuingAnswer, queue_capacity, wrapped_sink};
ghost use Rattle.cadence_stage.specs.Answered.{IsAnswered};

use super::worker::{Passed, Shared, WIDEST_KEPT};
use cadence_errors::SinkError;
use cadence_flow::MetricSink;
use cadence_flow::stats::SinkStats;
use cadence_queue::{QueueError, QueueStep};
use cadence_stage::{AnsweringSink, Latch, Logs, OneCall, Unnamed, emit_by};
use std::alloc::{AllocError, Allocator, Global};
use std::snapshot::Snapshot;
use std::sync::{Arc, Wait};

/// A sink that queues each line for a worker thread, which hands the lines to the wrapped sink, in order.
///
/// It is a handle: a clone is one more handle of the same queue. The drop of the last handle stops the queue and
/// doesn't wait. The worker then still hands on the queued lines, and drops the wrapped sink, so that a buffered one
/// sends its held text. But if the process ends before that, the rest is lost.
///
/// After `stop_and_wait` the worker has ended, so the drop of the last handle drops the wrapped sink itself: when this
/// drop returns, the held text was sent, even if the process ends then. There is one exception: if a flushing or a
/// reporting sink wraps a handle, its thread uses that handle while it flushes or reports, and may be the one that
/// drops it. A flush of the client before the drop sends the held text in any case. Each handle keeps the runtime `R`,
/// whose locks it takes.
///
/// ```text
/// let sink = QueuingMetricSink::with_capacity(rt.clone()?, alloc, inner, 1000)?;
/// let client = StatsdClient::from_sink(alloc, "my.service", sink)?;
/// client.incr("visits")?;
/// client.sink().stop_and_wait();
/// client.flush()?;
/// ```
pub struct QueuingMetricSink<S: Drop, R: Wait + Drop, A: Allocator = Global, N: Logs = Unnamed> {
    pub(super) rt: R,
    pub(super) alloc: A,
    pub(super) shared: Arc<Shared<S, A, N>, A>,
    pub(super) end: Arc<Latch<Passed<A, N>>, A>,
}

impl<S: Drop, R: Wait + Drop, A: Allocator, N: Logs> QueuingMetricSink<S, R, A, N> {
    /// Stops the queue for all handles, and waits until the worker has handed on the queued lines, has dropped the error
    /// handler, and has ended. A wrapped sink with a buffer still holds its text then, until it is flushed or the last
    /// handle is dropped. Neither the wrapped sink nor the error handler may call this: they run in the worker, which
    /// would wait for itself.
    pub fn stop_and_wait(&self) {
        drop(self.shared.queue.stop(&self.rt));
        let _left = self.end.wait(&self.rt);
    }

    /// Returns the number of lines that wait in the queue. Lines that the worker has taken, at most 32 at a time,
    /// aren't counted, even if it hasn't handed them on yet.
    pub fn queued(&self) -> u64 {
        self.shared.queue.waiting(&self.rt) as u64
    }

    /// Returns the number of accepted lines, modulo 2 to the 64.
    pub fn submitted(&self) -> u64 {
        self.shared.queue.submitted(&self.rt)
    }

    /// Returns the number of lines that the worker took out of the queue, modulo 2 to the 64. It takes several at a
    /// time. After `stop_and_wait` each of them has been handed on.
    pub fn drained(&self) -> u64 {
        self.shared.queue.drained(&self.rt)
    }

    /// Returns the number of lines that were dropped to make room for later ones, modulo 2 to the 64. It is 0 if the
    /// queue has no bound, or refuses lines when it is full.
    pub fn dropped(&self) -> u64 {
        self.shared.queue.dropped(&self.rt)
    }

    /// Returns how often the worker panicked. A proved worker can't panic, so this is always 0.
    pub fn panics(&self) -> u64
        ensures { result ≡ 0 }
    {
        0
    }
}

// Copies a line, into the memory of an older one if that is wide enough.
fn copy_line<A: Allocator + Clone>(
    older: Option<String<A>>,
    alloc: &A,
    line: &str,
) -> Result<String<A>, AllocError>
    ensures { IfOk result (λ copy. string_bytes copy ≡ line.now) }
{
    match older {
        Some(mut room) if room.capacity() >= line.len() => {
            room.clear();
            room.push_str(line)?;
            Ok(room)
        }
        _ => String::from_str(alloc.clone()?, line),
    }
}

impl<S: Drop, R: Wait + Drop, A: Allocator + Clone, N: Logs> QueuingMetricSink<S, R, A, N> {
    /// Queues a copy of a line, and shows the step. Returns the copy, in proofs only.
    #[inline(always)]
    pub(super) fn queue_copy(
        &self,
        line: &str,
    ) -> (
        Result<Snapshot<String<A>>, QueueError>,
        QueueStep<String<A>, A>,
    )
        ensures copy { IfOk result.0 (λ copy. string_bytes copy.value ≡ line.now) }
        ensures accepts { IfOk result.0 (λ copy. (dropped : Option (String A))
            × Accepts (before_of result.1) copy.value dropped (after_of result.1)) }
        ensures refuses { IfErr result.0 (λ e. IsRefused result.1 e) }
        ensures last { IfOk result.0 (λ copy. (earlier : List (String A))
            × (accepted_after result.1 ≡ earlier ++ copy.value ∷ [])) }
        ensures named { ForSome N.logs (λ names. log_after result.1 ≡ names.accepted) }
    {
        if line.len() > WIDEST_KEPT {
            return self.queue_long(line);
        }
        let alloc = &self.alloc;
        let (answer, step) = self
            .shared
            .queue
            .offer(&self.rt, |older| copy_line(older, alloc, line));
        match answer {
            Ok((_dropped, copy)) => (Ok(copy), step),
            Err(error) => (Err(error), step),
        }
    }

    // Queues a copy of a long line, as `queue_copy` does. No spare of the queue has enough memory for it, so the copy is
    // made before the lock is taken, in a text of an earlier long line if there is one. If the queue refuses it, the copy
    // is kept for a later line. If there is no memory for the copy, the state of the queue still decides which error comes
    // first. It is a function of its own, so that the way of other lines is short.
    #[inline(never)]
    fn queue_long(
        &self,
        line: &str,
    ) -> (
        Result<Snapshot<String<A>>, QueueError>,
        QueueStep<String<A>, A>,
    )
        ensures copy { IfOk result.0 (λ copy. string_bytes copy.value ≡ line.now) }
        ensures accepts { IfOk result.0 (λ copy. (dropped : Option (String A))
            × Accepts (before_of result.1) copy.value dropped (after_of result.1)) }
        ensures refuses { IfErr result.0 (λ e. IsRefused result.1 e) }
        ensures last { IfOk result.0 (λ copy. (earlier : List (String A))
            × (accepted_after result.1 ≡ earlier ++ copy.value ∷ [])) }
        ensures named { ForSome N.logs (λ names. log_after result.1 ≡ names.accepted) }
    {
        let queue = &self.shared.queue;
        let long_texts = &self.shared.long_texts;
        let Ok(text) = copy_line(long_texts.take(), &self.alloc, line) else {
            let (answer, step) = queue.offer(&self.rt, |_older| Err(AllocError));
            return match answer {
                Ok(_) => unreachable!(),
                Err(error) => (Err(error), step),
            };
        };
        let copy = Snapshot::of(&text);
        let (answer, step) = queue.submit_shown(&self.rt, text);
        match answer {
            Ok(_dropped) => (Ok(copy), step),
            Err((error, text)) => {
                long_texts.keep(text);
                (Err(error), step)
            }
        }
    }
}

impl<S: Drop, R: Wait + Drop, A: Allocator + Clone, N: Logs> AnsweringSink
    for QueuingMetricSink<S, R, A, N> {
    type Receipt = QueueStep<String<A>, A>;

    ghost may_answer = { λ q line answer. IsQueuingAnswer (queue_capacity q) line answer };

    ghost shows = { λ _ receipt line answer. IsCopyQueued string_bytes receipt line answer };

    // Without this hint and that of `emit`, a line of `bench queue 1 20` may take 65 instructions more.
    #[inline(always)]
    fn emit_line(&self, line: &str, fault: &mut SinkError) -> (Option<usize>, Self::Receipt) {
        let (answer, step) = self.queue_copy(line);
        match answer {
            Ok(_copy) => (Some(line.len()), step),
            Err(error) => {
                *fault = self.shared.queue.why(error).into();
                (None, step)
            }
        }
    }
}

/// `emit` puts a copy of the line last in the queue, and returns the line's length.
///
/// The errors are `ChannelDisconnected` if the queue is stopped, `ChannelFull` if as many lines wait as its capacity,
/// and `OutOfMemory`, in this order; nothing is queued then. A caller that finds the queue full gives way to the worker
/// once, and then tries again if the worker has taken lines. That takes at most two microseconds, but each sixteenth such
/// caller lets other threads run, which may take milliseconds on a busy machine. It never waits for the wrapped sink.
/// Under `DropOldest`, a full queue with a capacity above 0 drops its oldest line instead of returning an error, and
/// doesn't call the handler.
///
/// An accepted line requests memory at most once, apart from the growth of an unbounded queue: if the worker has handed
/// on a line with enough memory, the new line is copied into that. A line of more than 512 bytes is copied before the
/// lock is taken, so it may request memory once also if it is refused. For other lines the first two errors request
/// none.
/// `flush` flushes the wrapped sink and doesn't wait for the queue. `stats` returns the counts of the wrapped sink, and
/// `dropped_lines` adds `dropped` to the number of the wrapped sink.
impl<S: MetricSink, R: Wait + Drop, A: Allocator + Clone> MetricSink
    for QueuingMetricSink<S, R, A> {
    ghost may_answer = { λ q line answer.
        IsQueuingAnswer (queue_capacity q) line answer × IsAnswered line answer };

    ghost may_flush = { λ q answer. S.may_flush (arc_value q.shared).sink answer };

    #[inline(always)]
    fn emit(&self, line: &str) -> Result<usize, SinkError> {
        let mut fault = SinkError::NothingWritten;
        emit_by(OneCall::of(self), line, &mut fault).ok_or(fault)
    }

    fn flush(&self) -> Result<(), SinkError> {
        self.shared.sink.flush()
    }

    fn stats(&self) -> SinkStats {
        self.shared.sink.stats()
    }

    fn dropped_lines(&self) -> u64 {
        self.dropped()
            .wrapping_add(self.shared.sink.dropped_lines())
    }

    ghost flush_may_succeed = { λ q. S.flush_may_succeed (arc_value q.shared).sink };
}

/// A clone is one more handle of the same queue.
impl<S: Drop, R: Wait + Clone + Drop, A: Allocator + Clone, N: Logs> Clone
    for QueuingMetricSink<S, R, A, N> {
    ghost is_clone = { λ q copy. wrapped_sink copy ≡ wrapped_sink q };

    fn clone(&self) -> Result<Self, AllocError> {
        let rt = self.rt.clone()?;
        let alloc = self.alloc.clone()?;
        let shared = self.shared.clone()?;
        let end = self.end.clone()?;
        shared.queue.add_handle(&rt);
        Ok(QueuingMetricSink {
            rt,
            alloc,
            shared,
            end,
        })
    }
}

impl<S: Drop, R: Wait + Drop, A: Allocator, N: Logs> Drop for QueuingMetricSink<S, R, A, N> {
    fn drop(self) {
        drop(self.shared.queue.drop_handle(&self.rt));
        let QueuingMetricSink {
            rt: _,
            alloc: _,
            shared: _,
            end: _,
        } = self;
    }
}
