//! A sink for tests that packs lines, and makes each packet a message of its receiver.
ghost use Rattle.std.specs.Prelude.{◌≡◌, [], IfOk, unwrap_or};
ghost use Rattle.cadence_errors.specs.Errors.{MayOnlyRunOutOfMemory};
ghost use Rattle.cadence_flow.specs.RecordedPacker.{past_of};
ghost use Rattle.cadence_flow.specs.Writer.{history_of};
ghost use Rattle.cadence_queue.specs.Answers.{IsQueueAnswer, IsQueueFlush, queue_kind};
ghost use Rattle.cadence_stage.specs.Answered.{IsAnswered, IsFlushAnswered, answered_by_holding_nothing};
ghost use Rattle.cadence_sinks.specs.Buffers.{spy_buffer};

use super::channel::{Sender, SpyReceiver, new_channel};
use cadence_errors::{MetricResult, SinkError};
use cadence_flow::io::{DEFAULT_CAPACITY, PacketWriter, Refusals};
use cadence_flow::{MetricSink, RecordedPacker};
use cadence_stage::{Locked, OneCall, emit_by, flush_by};
use std::alloc::{Allocator, Global};
use std::sync::Wait;

/// Makes each packet a message. It takes a packet whole or refuses it. Contracts don't see its packets; the packer
/// around it records them.
#[derive(Drop)]
pub struct MessageWriter<R: Wait + Drop, A: Allocator> {
    sender: Sender<R, A>,
    refusals: Refusals,
}

impl<R: Wait + Drop, A: Allocator + Clone> PacketWriter for MessageWriter<R, A> {
    ghost history = { λ w. history_of [] w.refusals };

    ghost kind = { λ _. queue_kind };

    fn write_packet(&mut self, packet: &[u8]) -> Result<usize, SinkError> {
        let answer = self.sender.send(packet);
        self.refusals.note(&answer, packet.len());
        answer
    }
}

/// The packer of a spy.
pub type SpyLines<R, A> = RecordedPacker<MessageWriter<R, A>, A>;

/// A sink for tests that buffers lines, each followed by a newline, and makes the held text a message of its receiver
/// when the next line doesn't fit, at a flush, and when it is dropped.
///
/// A line that with its newline passes the capacity is a message of its own, without the newline. `emit` returns the
/// line's length. If a message is refused, the errors are `ChannelDisconnected` if the receiver was dropped,
/// `ChannelFull` if the queue has no room for one more message, and `OutOfMemory`, in this order; the held text stays
/// held. The sink has no counts. It stores the runtime `R`, which taking its lock needs.
///
/// ```text
/// let (receiver, sink) = BufferedSpyMetricSink::new(rt.clone()?, alloc)?;
/// let client = StatsdClient::from_sink(alloc, "p", sink)?;
/// client.incr("visits")?;
/// client.flush()?;
/// let message = receiver.try_recv(); // p.visits:1|c and a newline
/// ```
// Its drop sends the held text, and then drops the writer, and with it the one handle of the queue.
#[derive(Drop)]
pub struct BufferedSpyMetricSink<R: Wait + Drop, A: Allocator + Clone = Global> {
    lines: Locked<SpyLines<R, A>, R>,
    capacity: usize,
}

impl<R: Wait + Clone + Drop, A: Allocator + Clone> BufferedSpyMetricSink<R, A> {
    /// Makes a spy and its receiver, with a buffer of 512 bytes and a queue for any number of messages. The only error
    /// is `OutOfMemory`.
    pub fn new(rt: R, alloc: A) -> MetricResult<(SpyReceiver<R, A>, Self)>
        ensures buffer { IfOk result (λ p. spy_buffer p.1 ≡ 512) }
        ensures refused { MayOnlyRunOutOfMemory result }
    {
        Self::with_capacity(rt, alloc, None, None)
    }

    /// Makes a spy and its receiver. At most `queue` messages wait for the receiver; `None` means that any number may
    /// wait. The buffer has `buffer` bytes, or 512 if that is `None`. The only error is `OutOfMemory`.
    pub fn with_capacity(
        rt: R,
        alloc: A,
        queue: Option<usize>,
        buffer: Option<usize>,
    ) -> MetricResult<(SpyReceiver<R, A>, Self)>
        ensures buffer { IfOk result (λ p. spy_buffer p.1 ≡ unwrap_or buffer 512) }
        ensures refused { MayOnlyRunOutOfMemory result }
    {
        let capacity = buffer.unwrap_or(DEFAULT_CAPACITY);
        let (receiver, packer) = Self::stage(rt.clone()?, alloc, queue, capacity)?;
        let sink = BufferedSpyMetricSink {
            lines: Locked::new(rt, packer),
            capacity,
        };
        Ok((receiver, sink))
    }

    /// Makes a receiver and the packer of a spy, which took no line yet, for a queue whose worker feeds it. The queue of the
    /// receiver and the buffer are those of `with_capacity`. The only error is `OutOfMemory`.
    pub fn stage(
        rt: R,
        alloc: A,
        queue: Option<usize>,
        buffer: usize,
    ) -> MetricResult<(SpyReceiver<R, A>, SpyLines<R, A>)>
        ensures none { IfOk result (λ s. past_of s.1 ≡ []) }
        ensures refused { MayOnlyRunOutOfMemory result }
    {
        let (receiver, sender) = new_channel(rt, alloc.clone()?, queue)?;
        let inner = MessageWriter {
            sender,
            refusals: Refusals::none(),
        };
        Ok((receiver, RecordedPacker::new(alloc, inner, buffer)?))
    }
}

impl<R: Wait + Drop, A: Allocator + Clone> MetricSink for BufferedSpyMetricSink<R, A> {
    ghost may_answer = { λ _ line answer.
        IsQueueAnswer line answer × IsAnswered line answer };

    ghost may_flush = { λ _ answer. IsQueueFlush answer × IsFlushAnswered answer };

    ghost flush_may_succeed = { λ _ held. (tt, answered_by_holding_nothing held) };

    #[inline(always)]
    fn emit(&self, line: &str) -> Result<usize, SinkError> {
        let mut fault = SinkError::NothingWritten;
        emit_by(OneCall::of(&self.lines), line, &mut fault).ok_or(fault)
    }

    fn flush(&self) -> Result<(), SinkError> {
        let mut fault = SinkError::NothingWritten;
        flush_by(OneCall::of(&self.lines), &mut fault).ok_or(fault)
    }
}
