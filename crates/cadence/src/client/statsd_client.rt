//! The client.
ghost use Rattle.std.specs.Prelude.{◌≡◌};
ghost use Rattle.cadence_value.specs.Values.{Converts};
ghost use Rattle.cadence.specs.Sending.{FlushesSink, SendsPlain};
ghost use Rattle.cadence.specs.Shown.{settings_of_client, sink_of_client};

use crate::client::backend::{CallBackend, MetricBackend, Sealed};
use crate::client::handler::{ErrorHandler, NopErrorHandler};
use crate::types::{Metric, MetricKind, MetricText};
use cadence_errors::{MetricError, MetricResult};
use cadence_flow::MetricSink;
use cadence_settings::ClientSettings;
use cadence_value::value::MetricValue;
use std::alloc::{Allocator, Global};

/// A sink that the caller made, in a box.
pub type BoxedSink<A = Global> = Box<dyn MetricSink + Send + Sync, A>;

/// A client of a Statsd server. Each call formats the line of one metric and gives it to the sink. Threads may share a
/// client by reference. `StatsdClient` without parameters is a client of a boxed sink, without a handler.
///
/// ```text
/// let client = StatsdClient::from_sink(alloc, "my.service", sink)?;
/// client.count("visits", 1)?;
/// client.flush()?;
/// ```
// The sink and the handler are not in boxes, because a function may return a client only if its type has no `dyn`.
#[derive(Drop)]
pub struct StatsdClient<
    A: Allocator = Global,
    S: MetricSink = BoxedSink<A>,
    H: ErrorHandler = NopErrorHandler,
> {
    pub(crate) settings: ClientSettings<A>,
    pub(crate) sink: S,
    pub(crate) handler: H,
}

impl<A: Allocator + Clone, S: MetricSink, H: ErrorHandler> StatsdClient<A, S, H> {
    /// Returns the sink.
    pub fn sink(&self) -> &S
        ensures { result.now ≡ sink_of_client self.now }
    {
        &self.sink
    }

    /// Flushes the sink, which then sends its held text. The error is the sink's, as `MetricError::Sink`.
    pub fn flush(&self) -> MetricResult<()>
        ensures { FlushesSink (S.may_flush (sink_of_client self.now)) result }
    {
        self.sink.flush()?;
        Ok(())
    }

    // Sends the line of a call without options, and returns the metric. It makes no builder and has no function between,
    // because each would copy the wide result once more.
    #[tactic(auto, unfolding(cadence_settings::specs::Call::metric_of_call, cadence_text::specs::Line::line_of))]
    pub(crate) fn send_plain<K: MetricKind>(
        &self,
        key: &str,
        value: MetricResult<MetricValue<A>>,
    ) -> MetricResult<MetricText<K, A>>
        ensures { (numbers : _) → Converts numbers value → SendsPlain
            (settings_of_client self.now) (S.may_answer (sink_of_client self.now)) K.TYPE key.now
            numbers result }
    {
        let value = match value {
            Ok(value) => value,
            Err(error) => return Err(self.settings.value_error(key, error)),
        };
        let text = self.settings.line(key, K::TYPE, value)?;
        self.sink.emit(&text)?;
        Ok(MetricText::from(text))
    }
}

impl<A: Allocator + Clone, S: MetricSink, H: ErrorHandler> Sealed for StatsdClient<A, S, H> {}

impl<A: Allocator + Clone, S: MetricSink, H: ErrorHandler> MetricBackend for StatsdClient<A, S, H> {
    type Memory = A;

    ghost settings = { λ c. c.settings };

    ghost line_may_get = { λ c. S.may_answer c.sink };

    fn send_metric<M: Metric>(&self, metric: &M) -> MetricResult<()> {
        self.sink.emit(metric.as_metric_str())?;
        Ok(())
    }

    fn is_strict(&self) -> bool {
        self.settings.is_strict()
    }

    fn is_cleaned(&self) -> bool {
        self.settings.is_cleaned()
    }

    fn consume_error(&self, err: MetricError) {
        self.handler.handle(err);
    }
}

impl<A: Allocator + Clone, S: MetricSink, H: ErrorHandler> CallBackend for StatsdClient<A, S, H> {
    fn client_settings(&self) -> &ClientSettings<A> {
        &self.settings
    }
}
