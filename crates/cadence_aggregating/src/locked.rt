//! An aggregator under a lock. `called` has the calls by keys, which make no line.
mod called;

ghost use Rattle.cadence_aggregating.specs.Answers.{IsAggregated};
ghost use Rattle.cadence_aggregating.specs.Calls.{line_of_keyed};
ghost use Rattle.cadence_aggregating.specs.Results.{IsCallOf};
ghost use Rattle.cadence_aggregating.specs.Shown.{ShowsAdded};
ghost use Rattle.cadence_errors.specs.Errors.{MayOnlyRunOutOfMemory};
ghost use Rattle.cadence_stage.specs.Answered.{IsAnswered, IsFlushAnswered, answered_by_holding_nothing};

use crate::call::KeyedCall;
use crate::handler::{FlushErrorHandler, NopFlushErrorHandler};
use crate::limits::Limits;
use crate::recorded::RecordedAggregator;
use crate::shared::SharedSink;
use cadence_errors::{MetricError, MetricResult, SinkError};
use cadence_flow::MetricSink;
use cadence_flow::stats::SinkStats;
use cadence_stage::{AnsweringSink, Locked, OneCall, Receipt, emit_by, flush_by};
use called::LockedCall;
use std::alloc::Global;
use std::sync::Wait;

/// An aggregator over a handle of a sink.
pub type SharedSums<S> = RecordedAggregator<SharedSink<S>>;

/// An aggregator of lines over a sink, under a lock. Whenever the lock is free, what that sink took, with what is held,
/// is a summary of the accepted lines. The sink also lies beside the lock, so that its counts are read without it.
///
/// The drop flushes both. The handler receives the error of each flush that fails, and the last error of the drop.
pub struct LockedAggregator<
    S: MetricSink,
    R: Wait + Drop,
    H: FlushErrorHandler = NopFlushErrorHandler,
> {
    handler: H,
    sink: SharedSink<S>,
    lines: Locked<SharedSums<S>, R>,
}

impl<S: MetricSink, R: Wait + Drop, H: FlushErrorHandler> LockedAggregator<S, R, H> {
    /// Makes an aggregator that accepted no line yet. The only error is `OutOfMemory`.
    pub fn new(rt: R, alloc: Global, limits: Limits, sink: S, handler: H) -> MetricResult<Self>
        ensures { MayOnlyRunOutOfMemory result }
    {
        let sink = SharedSink::new(alloc, sink)?;
        let Ok(lines) = RecordedAggregator::new(alloc, limits, sink.clone()?) else {
            return Err(MetricError::Sink(SinkError::OutOfMemory));
        };
        Ok(LockedAggregator {
            handler,
            sink,
            lines: Locked::new(rt, lines),
        })
    }

    /// Makes a call by a key. The errors are those of `emit`, as `MetricError::Sink`; the call did nothing then.
    pub(crate) fn call(&self, call: KeyedCall<'_>) -> MetricResult<()>
        ensures { IsCallOf (line_of_keyed call.entry) result }
    {
        let made = LockedCall {
            to: &self.lines,
            call,
        };
        let mut fault = SinkError::NothingWritten;
        match emit_by(OneCall::of(&made), "", &mut fault) {
            Some(_bytes) => Ok(()),
            None => Err(MetricError::Sink(fault)),
        }
    }
}

/// Adds a line, under the lock. The answer is the line's length, and the receipt shows the aggregator before and after
/// it accepted this line. After an error the line is not added.
impl<S: MetricSink, R: Wait + Drop, H: FlushErrorHandler> AnsweringSink
    for LockedAggregator<S, R, H> {
    type Receipt = Receipt<SharedSums<S>>;

    ghost may_answer = { λ _ line answer. IsAggregated line answer };

    ghost shows = { λ _ receipt line answer. ShowsAdded receipt line answer };

    fn emit_line(&self, line: &str, fault: &mut SinkError) -> (Option<usize>, Self::Receipt) {
        match self.lines.emit_line(line, fault) {
            (Some(_), receipt) => (Some(line.len()), receipt),
            (None, receipt) => (None, receipt),
        }
    }
}

/// A flush sends what is held, and flushes the wrapped sink, under the lock.
impl<S: MetricSink, R: Wait + Drop, H: FlushErrorHandler> MetricSink for LockedAggregator<S, R, H> {
    ghost may_answer = { λ _ line answer. IsAggregated line answer × IsAnswered line answer };

    ghost may_flush = { λ _ answer. IsFlushAnswered answer };

    ghost flush_may_succeed = { λ _ held. answered_by_holding_nothing held };

    fn emit(&self, line: &str) -> Result<usize, SinkError> {
        let mut fault = SinkError::NothingWritten;
        emit_by(OneCall::of(self), line, &mut fault).ok_or(fault)
    }

    fn flush(&self) -> Result<(), SinkError> {
        let mut fault = SinkError::NothingWritten;
        let flushed = flush_by(OneCall::of(&self.lines), &mut fault);
        if flushed.is_none() {
            self.handler.handle(&fault);
        }
        flushed.ok_or(fault)
    }

    fn stats(&self) -> SinkStats {
        self.sink.stats()
    }

    fn dropped_lines(&self) -> u64 {
        self.sink.dropped_lines()
    }
}

impl<S: MetricSink, R: Wait + Drop, H: FlushErrorHandler> Drop for LockedAggregator<S, R, H> {
    fn drop(self) {
        let LockedAggregator {
            handler,
            sink: _sink,
            lines,
        } = self;
        if let Err(error) = lines.finish() {
            handler.handle(&error);
        }
    }
}
