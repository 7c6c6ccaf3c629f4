//! The settings of an aggregating sink.
ghost use Rattle.std.specs.Prelude.{IfErr};
ghost use Rattle.cadence_errors.specs.Errors.{MayOnlyRunOutOfMemory};
ghost use Rattle.cadence_queuing.specs.Queuing.{IsQueuingRefusal};

use crate::handler::{FlushErrorHandler, NopFlushErrorHandler};
use crate::limits::Limits;
use crate::locked::LockedAggregator;
use crate::sink::{AggregatingMetricSink, Timed};
use cadence_errors::MetricResult;
use cadence_flow::{Handler, MetricSink, SinkErrorHandler};
use cadence_queuing::FlushingMetricSink;
use std::alloc::Global;
use std::num::NonZeroUsize;
use std::sync::Wait;
use std::thread::Threads;
use std::time::{Clock, Duration};

/// How many contexts of each kind a sink holds by default.
const MOST_CONTEXTS: usize = 4096;

/// The length of the longest line that a sink holds by default, in bytes.
const MOST_BYTES: usize = 512;

/// Makes an `AggregatingMetricSink`. Without other settings the sink holds at most 4096 contexts of each kind and lines
/// of at most 512 bytes, hands on timers, histograms and distributions, and is flushed by its callers alone.
///
/// ```text
/// let builder = AggregatingMetricSinkBuilder::new()
///     .with_max_contexts(1000)
///     .with_flush_period(Duration::from_secs(2));
/// let sink = builder.build(rt.clone()?, alloc, inner)?;
/// ```
#[derive(Drop)]
pub struct AggregatingMetricSinkBuilder<H: FlushErrorHandler = NopFlushErrorHandler> {
    pub(crate) limits: Limits,
    pub(crate) period: Option<Duration>,
    pub(crate) handler: H,
}

impl AggregatingMetricSinkBuilder {
    ghost use Rattle.std.specs.Prelude.{◌≡◌};
    ghost use Rattle.cadence_aggregating.specs.Builder.{no_options, options_of};

    /// Returns a builder without any setting.
    pub fn new() -> Self
        ensures { options_of result ≡ no_options }
    {
        AggregatingMetricSinkBuilder {
            limits: Limits {
                most_contexts: NonZeroUsize::new(MOST_CONTEXTS).unwrap_or(NonZeroUsize::MIN),
                most_bytes: MOST_BYTES,
                packs_values: false,
            },
            period: None,
            handler: NopFlushErrorHandler,
        }
    }
}

impl<H: FlushErrorHandler> AggregatingMetricSinkBuilder<H> {
    ghost use Rattle.std.specs.Prelude.{◌≡◌, true, Some};
    ghost use Rattle.cadence_aggregating.specs.Builder.{at_least_one, options_of};

    /// Sets how many contexts of each kind are held. A new context in a full table first sends the oldest one. 0 counts
    /// as 1.
    pub fn with_max_contexts(mut self, contexts: usize) -> Self
        ensures { options_of result
            ≡ record (options_of self) { contexts = at_least_one contexts } }
    {
        self.limits.most_contexts = NonZeroUsize::new(contexts).unwrap_or(NonZeroUsize::MIN);
        self
    }

    /// Sets the most bytes of a line that is held. A longer line is handed on at once, and values are packed up to this
    /// length.
    pub fn with_max_line(mut self, bytes: usize) -> Self
        ensures { options_of result ≡ record (options_of self) { line = bytes } }
    {
        self.limits.most_bytes = bytes;
        self
    }

    /// Packs the values of each timer, histogram and distribution into one line, as `t:1:2:3|ms`. Not every server
    /// reads such a line.
    pub fn with_packed_values(mut self) -> Self
        ensures { options_of result ≡ record (options_of self) { packed = true } }
    {
        self.limits.packs_values = true;
        self
    }

    /// Sets a period. A thread flushes the sink after each period. A period below one millisecond counts as one
    /// millisecond. What a failed flush didn't send is tried again after one more period. Without a handler the errors
    /// of these flushes are dropped.
    pub fn with_flush_period(mut self, period: Duration) -> Self
        ensures { options_of result ≡ record (options_of self) { period = Some period } }
    {
        self.period = Some(period);
        self
    }

    /// Sets a closure that receives the error of each flush that fails: of a flush of the thread, of a flush of a caller,
    /// who also gets it as the result, and the last error of the drop. It runs in the thread that flushes, while no lock
    /// of the sink is held.
    pub fn with_error_handler(
        self,
        handler: SinkErrorHandler,
    ) -> AggregatingMetricSinkBuilder<Handler>
        requires { IsAlwaysCallable handler }
        ensures { options_of result ≡ options_of self }
    {
        self.with_handler(Handler::new(handler))
    }

    /// Sets a handler without a box. It receives the same errors.
    pub fn with_handler<G: FlushErrorHandler>(self, handler: G) -> AggregatingMetricSinkBuilder<G>
        ensures { options_of result ≡ options_of self }
    {
        AggregatingMetricSinkBuilder {
            limits: self.limits,
            period: self.period,
            handler,
        }
    }
}

impl<H: FlushErrorHandler + Send + Sync + 'static> AggregatingMetricSinkBuilder<H> {
    /// Makes the sink, and starts its thread if there is a period. The errors are `OutOfMemory`, and `Io` if the thread
    /// can't be started. The wrapped sink is dropped then.
    pub fn build<
        S: MetricSink + Send + Sync + 'static,
        R: Wait + Clock + Threads + Clone + Drop + Send + Sync + 'static,
    >(self, rt: R, alloc: Global, sink: S) -> MetricResult<AggregatingMetricSink<S, R, H>>
        ensures { IfErr result IsQueuingRefusal }
    {
        let AggregatingMetricSinkBuilder {
            limits,
            period,
            handler,
        } = self;
        let locked = LockedAggregator::new(rt.clone()?, alloc, limits, sink, handler)?;
        let timed = match period {
            Some(period) => Timed::Often(FlushingMetricSink::new(rt, alloc, locked, period)?),
            None => Timed::Never(locked),
        };
        Ok(AggregatingMetricSink { timed })
    }
}

impl<S: MetricSink, R: Wait + Drop> AggregatingMetricSink<S, R> {
    /// Makes a sink with the settings of a new builder. It starts no thread. The only error is `OutOfMemory`.
    pub fn from(rt: R, alloc: Global, sink: S) -> MetricResult<Self>
        ensures { MayOnlyRunOutOfMemory result }
    {
        let AggregatingMetricSinkBuilder {
            limits,
            handler,
            ..
        } = AggregatingMetricSinkBuilder::new();
        let locked = LockedAggregator::new(rt, alloc, limits, sink, handler)?;
        Ok(AggregatingMetricSink {
            timed: Timed::Never(locked),
        })
    }
}
