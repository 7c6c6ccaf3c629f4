//! A sink that is flushed by a thread again and again.
ghost use Rattle.std.specs.Prelude.{◌≡◌, IfErr, IfOk};
ghost use Rattle.cadence_queuing.specs.Queuing.{IsQueuingRefusal, flushed_sink};

use crate::repeater::{PeriodicWork, Repeater};
use cadence_errors::{MetricResult, SinkError};
use cadence_flow::stats::SinkStats;
use cadence_flow::{Handler, MetricSink, SinkErrorHandler};
use std::alloc::{Allocator, Global};
use std::sync::Wait;
use std::thread::Threads;
use std::time::{Clock, Duration};

/// The work of flushing a sink.
#[derive(Drop)]
pub struct FlushWork<S: MetricSink> {
    pub sink: S,
}

impl<S: MetricSink> PeriodicWork for FlushWork<S> {
    fn do_once<R: Wait>(&self, _rt: &R) -> Result<(), SinkError> {
        self.sink.flush()
    }
}

/// A sink that passes each call on to the wrapped sink, and whose thread flushes that one after each period. So no line
/// waits longer in the wrapped sink's buffer, even if no more lines come. A `QueuingMetricSink` with a period needs no
/// second thread for this.
///
/// The drop stops the thread and doesn't wait for it. It also flushes the wrapped sink, drops the error of this flush,
/// and drops the wrapped sink. If the thread is in a flush at that time, it drops the wrapped sink itself after this
/// flush, and the end of the process may come first. The sink keeps the runtime `R`, whose locks it takes.
///
/// ```text
/// let inner = BufferedUdpMetricSink::from(rt.clone()?, alloc, target, socket)?;
/// let sink = FlushingMetricSink::new(rt.clone()?, alloc, inner, Duration::from_secs(1))?;
/// ```
#[derive(Drop)]
pub struct FlushingMetricSink<S: MetricSink, R: Wait + Drop, A: Allocator = Global> {
    repeater: Repeater<FlushWork<S>, R, A>,
}

impl<
    S: MetricSink + Send + Sync + 'static,
    R: Wait + Clock + Threads + Clone + Drop + Send + Sync + 'static,
    A: Allocator + Clone + Send + Sync + 'static,
> FlushingMetricSink<S, R, A> {
    /// Makes the sink and starts its thread. A period below one millisecond counts as one millisecond. The errors of
    /// the thread's flushes are dropped. This call returns `OutOfMemory`, or `Io` if the thread can't be started. The
    /// wrapped sink is dropped then.
    pub fn new(rt: R, alloc: A, sink: S, period: Duration) -> MetricResult<Self>
        ensures wrapped { IfOk result (λ f. flushed_sink f ≡ sink) }
        ensures refused { IfErr result IsQueuingRefusal }
    {
        let repeater = Repeater::start(rt, alloc, FlushWork { sink }, period, None)?;
        Ok(FlushingMetricSink { repeater })
    }

    /// Makes the sink and starts its thread, as `new` does. The handler receives the errors of the thread's flushes. It
    /// runs in the thread while no lock is held. What a failed flush didn't send stays in the wrapped sink, and is tried
    /// again after one more period.
    pub fn with_error_handler(
        rt: R,
        alloc: A,
        sink: S,
        period: Duration,
        handler: SinkErrorHandler<A>,
    ) -> MetricResult<Self>
        requires { IsAlwaysCallable handler }
        ensures wrapped { IfOk result (λ f. flushed_sink f ≡ sink) }
        ensures refused { IfErr result IsQueuingRefusal }
    {
        let handler = Some(Handler::new(handler));
        let repeater = Repeater::start(rt, alloc, FlushWork { sink }, period, handler)?;
        Ok(FlushingMetricSink { repeater })
    }
}

impl<S: MetricSink, R: Wait + Drop, A: Allocator> FlushingMetricSink<S, R, A> {
    // Returns the wrapped sink.
    fn sink(&self) -> &S
        ensures { result.now ≡ flushed_sink self.now }
    {
        &self.repeater.work().sink
    }
}

impl<S: MetricSink, R: Wait + Drop, A: Allocator> MetricSink for FlushingMetricSink<S, R, A> {
    ghost may_answer = { λ f. S.may_answer (flushed_sink f) };

    ghost may_flush = { λ f. S.may_flush (flushed_sink f) };

    ghost flush_may_succeed = { λ f. S.flush_may_succeed (flushed_sink f) };

    fn emit(&self, line: &str) -> Result<usize, SinkError> {
        self.sink().emit(line)
    }

    fn flush(&self) -> Result<(), SinkError> {
        self.sink().flush()
    }

    fn stats(&self) -> SinkStats {
        self.sink().stats()
    }

    fn dropped_lines(&self) -> u64 {
        self.sink().dropped_lines()
    }
}
