//! The aggregating sink.
ghost use Rattle.cadence_aggregating.specs.Answers.{IsAggregated};
ghost use Rattle.cadence_stage.specs.Answered.{IsAnswered, IsFlushAnswered, answered_by_holding_nothing};

use crate::handler::{FlushErrorHandler, NopFlushErrorHandler};
use crate::locked::LockedAggregator;
use cadence_errors::SinkError;
use cadence_flow::MetricSink;
use cadence_flow::stats::SinkStats;
use cadence_queuing::FlushingMetricSink;
use std::sync::Wait;

// An aggregator that is flushed by its callers alone, or also by a thread.
#[derive(Drop)]
pub(crate) enum Timed<S: MetricSink, R: Wait + Drop, H: FlushErrorHandler> {
    Never(LockedAggregator<S, R, H>),
    Often(FlushingMetricSink<LockedAggregator<S, R, H>, R>),
}

/// A sink that adds up lines before it hands them to the wrapped sink. Counters are summed, of a gauge's values the
/// last one is kept, and each member of a set is kept once. `flush` hands on one line for each context, and then
/// flushes the wrapped sink. A context is a line without its values: its name, kind, sampling rate, tags and any other fields.
///
/// The lines may be those of any client. What their tags and other fields are makes no difference, and numbers are added
/// in any spelling, such as `+3` and `1e3`. Lines that can't be added are handed on at once: those with a timestamp,
/// counters that aren't raised by one whole number, values of gauges with a sign, values that aren't numbers, and texts
/// that are no lines of metrics. The values of gauges that are held come before such a line if it may set a gauge, because
/// it has `|g` in it. A server knows the same from the lines that the wrapped sink took,
/// and those that the next flush hands on, as from the lines that were emitted, whichever contexts it takes for one.
///
/// `emit` returns the length of the line. Its errors are those of the wrapped sink, if a line had to be handed on, and
/// `OutOfMemory`; the line is not added then. A line that the wrapped sink refuses at a flush stays, and the next flush
/// tries it again, before all others. The drop flushes the sink, again and again as long as a flush sends something. What
/// it can't send is lost, and so is what is held when the process crashes. The builder's handler receives the error of
/// each flush that fails, and the last error of the drop.
///
/// The wrapped sink takes lines under the lock of this sink. So callers wait while it does, a whole flush long, and the
/// wrapped sink must not emit into this sink or flush it, because that would wait for ever. `stats` and `dropped_lines`
/// take no lock of this sink.
///
/// ```text
/// let (receiver, spy) = SpyMetricSink::new(rt.clone()?, alloc)?;
/// let sink = AggregatingMetricSink::from(rt.clone()?, alloc, spy)?;
/// sink.emit("visits:1|c")?;
/// sink.emit("visits:2|c")?;
/// sink.flush()?;
/// let message = receiver.try_recv(); // visits:3|c
/// ```
#[derive(Drop)]
pub struct AggregatingMetricSink<
    S: MetricSink,
    R: Wait + Drop,
    H: FlushErrorHandler = NopFlushErrorHandler,
> {
    pub(crate) timed: Timed<S, R, H>,
}

impl<S: MetricSink, R: Wait + Drop, H: FlushErrorHandler> MetricSink
    for AggregatingMetricSink<S, R, H> {
    ghost may_answer = { λ _ line answer. IsAggregated line answer × IsAnswered line answer };

    ghost may_flush = { λ _ answer. IsFlushAnswered answer };

    ghost flush_may_succeed = { λ _ held. answered_by_holding_nothing held };

    fn emit(&self, line: &str) -> Result<usize, SinkError> {
        match &self.timed {
            Timed::Never(sink) => sink.emit(line),
            Timed::Often(sink) => sink.emit(line),
        }
    }

    fn flush(&self) -> Result<(), SinkError> {
        match &self.timed {
            Timed::Never(sink) => sink.flush(),
            Timed::Often(sink) => sink.flush(),
        }
    }

    fn stats(&self) -> SinkStats {
        match &self.timed {
            Timed::Never(sink) => sink.stats(),
            Timed::Often(sink) => sink.stats(),
        }
    }

    fn dropped_lines(&self) -> u64 {
        match &self.timed {
            Timed::Never(sink) => sink.dropped_lines(),
            Timed::Often(sink) => sink.dropped_lines(),
        }
    }
}
