//! A client whose calls make no line.
use crate::builder::AggregatingMetricSinkBuilder;
use crate::call::KeyedCall;
use crate::handler::{FlushErrorHandler, NopFlushErrorHandler};
use crate::keys::{CounterKey, GaugeKey, StrictSettings};
use crate::locked::LockedAggregator;
use crate::shared::SharedSink;
use cadence_errors::MetricResult;
use cadence_flow::MetricSink;
use cadence_flow::stats::SinkStats;
use cadence_queuing::FlushingMetricSink;
use cadence_settings::ClientSettings;
use cadence_text::line::Tag;
use std::alloc::Global;
use std::sync::Wait;
use std::thread::Threads;
use std::time::Clock;

/// A client that adds its calls up, and makes no line for a call. When it is flushed, it makes one line for each counter
/// and each gauge that was called, as an `AggregatingMetricSink` does. A call has a key that the client made once.
///
/// The client is strict: no text of its settings and of its keys has a colon, a comma, a bar or a newline. A flush that
/// fails and the drop do what they do for an `AggregatingMetricSink`.
///
/// ```text
/// let client = AggregatedClient::from_sink(rt.clone()?, alloc, "my.service", sink)?;
/// let visits = client.counter_key("visits", &[])?;
/// client.incr(&visits)?;
/// client.count(&visits, 2)?;
/// client.flush()?; // my.service.visits:3|c
/// ```
#[derive(Drop)]
pub struct AggregatedClient<
    S: MetricSink,
    R: Wait + Drop,
    H: FlushErrorHandler = NopFlushErrorHandler,
> {
    alloc: Global,
    settings: StrictSettings,
    lines: SharedSink<LockedAggregator<S, R, H>>,
    flusher: Option<FlushingMetricSink<SharedSink<LockedAggregator<S, R, H>>, R>>,
}

impl<H: FlushErrorHandler + Send + Sync + 'static> AggregatingMetricSinkBuilder<H> {
    ghost use Rattle.std.specs.Prelude.{◌≡◌, ◌⊎◌, IfErr, IfOk, IsTrue, OnOk, false};
    ghost use Rattle.cadence_queuing.specs.Queuing.{IsQueuingRefusal};
    ghost use Rattle.cadence_settings.specs.Settings.{HasSeparator, is_clear_settings, with_strict_texts};
    ghost use Rattle.cadence_aggregating.specs.Clients.{settings_of_aggregated};

    /// Makes a client that adds its calls up with these settings, over a sink that takes the sums. The settings of the
    /// client are made strict. It starts a thread if there is a period.
    ///
    /// # Errors
    /// An error of kind `InvalidInput` (`separator in a text`) if a text of the settings has a separator, `OutOfMemory`,
    /// and `Io` if the thread can't be started. The wrapped sink is dropped then.
    pub fn build_client<
        S: MetricSink + Send + Sync + 'static,
        R: Wait + Clock + Threads + Clone + Drop + Send + Sync + 'static,
    >(
        self,
        rt: R,
        alloc: Global,
        settings: ClientSettings,
        sink: S,
    ) -> MetricResult<AggregatedClient<S, R, H>>
        ensures settings { IfOk result (λ client.
            settings_of_aggregated client ≡ with_strict_texts settings) }
        ensures clear { OnOk result (IsTrue (is_clear_settings settings)) }
        ensures refused { IfErr result (λ e. IsQueuingRefusal e
            ⊎ (HasSeparator e × (is_clear_settings settings ≡ false))) }
    {
        let settings = StrictSettings::new(settings)?;
        let locked = LockedAggregator::new(rt.clone()?, alloc, self.limits, sink, self.handler)?;
        let lines = SharedSink::new(alloc, locked)?;
        let flusher = match self.period {
            Some(period) => Some(FlushingMetricSink::new(rt, alloc, lines.clone()?, period)?),
            None => None,
        };
        Ok(AggregatedClient {
            alloc,
            settings,
            lines,
            flusher,
        })
    }
}

impl<S: MetricSink, R: Wait + Drop> AggregatedClient<S, R> {
    ghost use Rattle.std.specs.Prelude.{◌≡◌, IfErr, IfOk};
    ghost use Rattle.cadence_settings.specs.Settings.{is_clear_settings, settings_of, with_strict_texts};
    ghost use Rattle.cadence_aggregating.specs.Contexts.{MayFailFor};
    ghost use Rattle.cadence_aggregating.specs.Clients.{settings_of_aggregated};

    /// Makes a client with a prefix, without default tags, with the settings of a new builder. It starts no thread.
    ///
    /// # Errors
    /// An error of kind `InvalidInput` (`separator in a text`) if the prefix has a separator, and `OutOfMemory`. The
    /// wrapped sink is dropped then.
    pub fn from_sink(rt: R, alloc: Global, prefix: &str, sink: S) -> MetricResult<Self>
        ensures settings { IfOk result (λ client.
            settings_of_aggregated client ≡ with_strict_texts (settings_of prefix.now)) }
        ensures refused { IfErr result (MayFailFor (is_clear_settings (settings_of prefix.now))) }
    {
        let AggregatingMetricSinkBuilder {
            limits,
            handler,
            ..
        } = AggregatingMetricSinkBuilder::new();
        let settings = StrictSettings::new(ClientSettings::new(alloc, prefix)?)?;
        let locked = LockedAggregator::new(rt, alloc, limits, sink, handler)?;
        Ok(AggregatedClient {
            alloc,
            settings,
            lines: SharedSink::new(alloc, locked)?,
            flusher: None,
        })
    }
}

impl<S: MetricSink, R: Wait + Drop, H: FlushErrorHandler> AggregatedClient<S, R, H> {
    ghost use Rattle.std.specs.Prelude.{◌≡◌, IfErr, IfOk, map, negsuc, pos};
    ghost use Rattle.cadence_settings.specs.Call.{is_clear_call};
    ghost use Rattle.cadence_text.specs.declared.line.MetricType.TheVariants.{Counter, Gauge};
    ghost use Rattle.cadence_text.specs.Record.{tag_of};
    ghost use Rattle.cadence_aggregating.specs.Contexts.{MayFailFor, tagged_call};
    ghost use Rattle.cadence_aggregating.specs.Clients.{IsFlushOfClient, settings_of_aggregated};
    ghost use Rattle.cadence_aggregating.specs.Keys.{CountsFor, SetsFor, line_of_counter, line_of_gauge};
    ghost use Rattle.cadence_aggregating.specs.Results.{IsCallOf};

    /// Makes the key of a counter, with tags after the default ones. It takes memory, and a call by it takes none once
    /// the counter is held.
    ///
    /// # Errors
    /// An error of kind `InvalidInput` only if the key or a tag has a separator, and `OutOfMemory`.
    pub fn counter_key(&self, key: &str, tags: &[Tag<'_>]) -> MetricResult<CounterKey>
        ensures lines { IfOk result (CountsFor (settings_of_aggregated self.now)
            (tagged_call Counter key.now (map tag_of tags.now))) }
        ensures refused { IfErr result (MayFailFor
            (is_clear_call (tagged_call Counter key.now (map tag_of tags.now)))) }
    {
        CounterKey::of_tagged(self.alloc, &self.settings, key, tags)
    }

    /// Makes the key of a gauge, with tags after the default ones. The errors are those of `counter_key`.
    pub fn gauge_key(&self, key: &str, tags: &[Tag<'_>]) -> MetricResult<GaugeKey>
        ensures lines { IfOk result (SetsFor (settings_of_aggregated self.now)
            (tagged_call Gauge key.now (map tag_of tags.now))) }
        ensures refused { IfErr result (MayFailFor
            (is_clear_call (tagged_call Gauge key.now (map tag_of tags.now)))) }
    {
        GaugeKey::of_tagged(self.alloc, &self.settings, key, tags)
    }

    /// Raises a counter. A negative number lowers it.
    ///
    /// # Errors
    /// The error of the wrapped sink, if a line had to be sent, and `OutOfMemory`. The counter is not raised then.
    pub fn count(&self, key: &CounterKey, by: i64) -> MetricResult<()>
        ensures { IsCallOf (line_of_counter key.now by) result }
    {
        self.lines.get().call(KeyedCall::Raise(key, by))
    }

    /// Raises a counter by 1. The errors are those of `count`.
    pub fn incr(&self, key: &CounterKey) -> MetricResult<()>
        ensures { IsCallOf (line_of_counter key.now (pos 1)) result }
    {
        self.count(key, 1)
    }

    /// Lowers a counter by 1. The errors are those of `count`.
    pub fn decr(&self, key: &CounterKey) -> MetricResult<()>
        ensures { IsCallOf (line_of_counter key.now (negsuc 0)) result }
    {
        self.count(key, -1)
    }

    /// Sets a gauge. It takes memory for the value. The errors are those of `count`; the gauge is not set then.
    pub fn gauge(&self, key: &GaugeKey, value: u64) -> MetricResult<()>
        ensures { IsCallOf (line_of_gauge key.now value) result }
    {
        self.lines.get().call(KeyedCall::Set(key, value))
    }

    /// Sends one line for each counter and gauge that was called, and flushes the wrapped sink. The error is that of the
    /// wrapped sink or `OutOfMemory`, as `MetricError::Sink`; what was not sent is sent by the next flush.
    pub fn flush(&self) -> MetricResult<()>
        ensures { IsFlushOfClient result }
    {
        self.lines.flush()?;
        Ok(())
    }

    /// Returns the counts of the wrapped sink.
    pub fn stats(&self) -> SinkStats {
        self.lines.stats()
    }
}
