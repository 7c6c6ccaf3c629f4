//! The packer as a stage, with a log of its calls that only proofs read.
ghost use Rattle.std.specs.Prelude.{map};
ghost use Rattle.cadence_stage.specs.Call.{call_of};
ghost use Rattle.cadence_flow.specs.Packed.{IsPacked};
ghost use Rattle.cadence_stage.specs.OwnLog.{items_of};

use crate::io::{LineBuffer, PacketWriter};
use crate::recorded_writer::RecordedWriter;
use cadence_errors::{MetricError, MetricResult, SinkError};
use cadence_stage::{Entry, OwnLog, Stage};
use std::alloc::{Allocator, Global};

/// A packer whose ending is the newline, with the log of its calls. The log exists in proofs only. Every
/// `RecordedPacker` is as its calls make it (`IsPacked`): the packets that its writer took, joined, followed by the
/// held text, are the frames of the lines that it took, in order.
#[derive(Drop)]
pub struct RecordedPacker<W, A: Allocator = Global> {
    lines: LineBuffer<RecordedWriter<W>, A>,
    log: OwnLog<Entry>,
    pub ghost packed: { ∥ IsPacked lines (map call_of (items_of log)) ∥₁ },
}

impl<W: PacketWriter, A: Allocator + Clone> RecordedPacker<W, A> {
    ghost use Rattle.std.specs.Prelude.{◌≡◌, IfOk, []};
    ghost use Rattle.cadence_errors.specs.Errors.{MayOnlyRunOutOfMemory};
    ghost use Rattle.cadence_flow.specs.RecordedPacker.{begins_over, past_of};

    /// Makes a packer with a capacity in bytes, which was not called yet. The only error is `OutOfMemory`.
    pub fn new(alloc: A, writer: W, capacity: usize) -> MetricResult<Self>
        ensures packer { IfOk result (λ p. begins_over p writer capacity) }
        ensures none { IfOk result (λ p. past_of p ≡ []) }
        ensures refused { MayOnlyRunOutOfMemory result }
    {
        let Ok(lines) = LineBuffer::new(alloc, RecordedWriter::new(writer), capacity) else {
            return Err(MetricError::Sink(SinkError::OutOfMemory));
        };
        Ok(RecordedPacker {
            lines,
            log: OwnLog::new(),
        })
    }
}

/// A line is written as `LineBuffer::write` does, and a flush is that of `LineBuffer`. Each call is one more entry of
/// the log.
impl<W: PacketWriter, A: Allocator> Stage for RecordedPacker<W, A> {
    ghost use Rattle.cadence_stage.specs.Past.{taken_in};
    ghost use Rattle.cadence_flow.specs.RecordedPacker.{IsPackerStep, past_of};

    ghost step = { λ old new call. IsPackerStep W.kind W.history old new call };

    ghost taken = { λ p. taken_in (past_of p) };

    #[inline(always)]
    fn take_line(&mut self, line: &str, fault: &mut SinkError) -> Option<usize> {
        let taken = self.lines.write(line.as_bytes(), fault);
        self.log.note(&Entry::of_line(line, taken, fault));
        taken
    }

    #[inline(always)]
    fn empty(&mut self, fault: &mut SinkError) -> Option<()> {
        let done = self.lines.flush(fault);
        self.log.note(&Entry::of_flush(done, fault));
        done
    }
}
