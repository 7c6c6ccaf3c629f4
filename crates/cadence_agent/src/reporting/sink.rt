//! A sink that sends its own counts again and again.
ghost use Rattle.std.specs.Prelude.{◌≡◌, IfErr, IfOk};
ghost use Rattle.cadence_queuing.specs.Queuing.{IsQueuingRefusal};
ghost use Rattle.cadence_settings.specs.Settings.{settings_of};
ghost use Rattle.cadence_agent.specs.Reports.{report_settings, reported_sink};

use super::reports::Reports;
use cadence::SinkStats;
use cadence_errors::{MetricResult, SinkError};
use cadence_flow::{Handler, MetricSink, SinkErrorHandler};
use cadence_queuing::{PeriodicWork, Repeater};
use std::alloc::{Allocator, Global};
use std::sync::Wait;
use std::thread::Threads;
use std::time::{Clock, Duration};

/// A sink that passes each call on to the wrapped sink, and reports the counts of that sink: after each period, its
/// thread sends over the wrapped sink by how much each count grew since the last report.
///
/// The reports are the counters `bytes_sent`, `packets_sent`, `bytes_dropped` and `packets_dropped` (of `stats`),
/// `lines_dropped` (of `dropped_lines`) and `lines_refused`, each after the prefix and a dot. `lines_refused` counts
/// the lines of callers for which the wrapped sink's `emit` returned an error. No counter is sent for a count that
/// didn't grow.
///
/// If a counter isn't sent, because the wrapped sink refused it or memory ran out, the next report adds its number. A
/// counter that the wrapped sink took counts as reported, even if that sink loses it later: a queue may drop its line,
/// or the sink below the queue may refuse it. So over such a sink the counters may add up to less than the counts grew
/// by. The bytes and packets of the reports themselves count too.
///
/// No lock is held while the wrapped sink returns its counts, so its `stats` and `dropped_lines` may emit over this sink.
///
/// The drop stops the thread and doesn't wait for it. It also sends a last report, drops the error of this one, and drops
/// the wrapped sink, so that a buffered one sends its held text and a queue below is stopped. If the thread is sending a
/// report at that time, it drops the wrapped sink itself after this report, and the end of the process may come first. A
/// flush before the drop sends what is held in any case. The sink keeps the runtime `R`, whose locks it takes.
///
/// ```text
/// let period = Duration::from_secs(3600);
/// let sink = ReportingMetricSink::new(rt.clone()?, alloc, inner, "my.statsd", period)?;
/// let client = StatsdClient::from_sink(alloc, "my.service", sink)?;
/// ```
#[derive(Drop)]
pub struct ReportingMetricSink<S: MetricSink, R: Wait + Drop, A: Allocator + Clone = Global> {
    repeater: Repeater<Reports<S, A>, R, A>,
}

impl<
    S: MetricSink + Send + Sync + 'static,
    R: Wait + Clock + Threads + Clone + Drop + Send + Sync + 'static,
    A: Allocator + Clone + Send + Sync + 'static,
> ReportingMetricSink<S, R, A> {
    /// Makes the sink and starts its thread. What the wrapped sink has counted before isn't reported. A period below one
    /// millisecond counts as one millisecond. The errors of reports are dropped.
    ///
    /// # Errors
    /// `OutOfMemory`, and `Io` if the thread can't be started. The wrapped sink is dropped then.
    pub fn new(rt: R, alloc: A, sink: S, prefix: &str, period: Duration) -> MetricResult<Self>
        ensures wrapped { IfOk result (λ f. reported_sink f ≡ sink) }
        ensures prefix { IfOk result (λ f. report_settings f ≡ settings_of prefix.now) }
        ensures refused { IfErr result IsQueuingRefusal }
    {
        let reports = Reports::new(alloc.clone()?, sink, prefix)?;
        let repeater = Repeater::start(rt, alloc, reports, period, None)?;
        Ok(ReportingMetricSink { repeater })
    }

    /// Makes the sink and starts its thread, as `new` does. The handler receives the last error of each report that the
    /// thread sends. It runs in the thread while no lock is held.
    ///
    /// # Errors
    /// Those of `new`.
    pub fn with_error_handler(
        rt: R,
        alloc: A,
        sink: S,
        prefix: &str,
        period: Duration,
        handler: SinkErrorHandler<A>,
    ) -> MetricResult<Self>
        requires { IsAlwaysCallable handler }
        ensures wrapped { IfOk result (λ f. reported_sink f ≡ sink) }
        ensures prefix { IfOk result (λ f. report_settings f ≡ settings_of prefix.now) }
        ensures refused { IfErr result IsQueuingRefusal }
    {
        let handler = Some(Handler::new(handler));
        let reports = Reports::new(alloc.clone()?, sink, prefix)?;
        let repeater = Repeater::start(rt, alloc, reports, period, handler)?;
        Ok(ReportingMetricSink { repeater })
    }
}

impl<S: MetricSink, R: Wait + Drop, A: Allocator + Clone> ReportingMetricSink<S, R, A> {
    /// Returns the wrapped sink. Lines that are emitted into it directly aren't counted as refused.
    pub fn sink(&self) -> &S
        ensures { result.now ≡ reported_sink self.now }
    {
        &self.repeater.work().sink
    }

    /// Sends a report now, for example before a queue below is stopped. The period goes on.
    ///
    /// # Errors
    /// `OutOfMemory`, and what the wrapped sink returns for a counter. What the report left out, the next one adds.
    pub fn report(&self) -> MetricResult<()> {
        self.repeater.work().do_once(self.repeater.runtime())?;
        Ok(())
    }
}

impl<S: MetricSink, R: Wait + Drop, A: Allocator + Clone> MetricSink
    for ReportingMetricSink<S, R, A> {
    ghost may_answer = { λ f. S.may_answer (reported_sink f) };

    ghost may_flush = { λ f. S.may_flush (reported_sink f) };

    ghost flush_may_succeed = { λ f. S.flush_may_succeed (reported_sink f) };

    fn emit(&self, line: &str) -> Result<usize, SinkError> {
        self.repeater.work().emit(line)
    }

    fn flush(&self) -> Result<(), SinkError> {
        self.sink().flush()
    }

    fn stats(&self) -> SinkStats {
        self.sink().stats()
    }

    fn dropped_lines(&self) -> u64 {
        self.sink().dropped_lines()
    }
}
