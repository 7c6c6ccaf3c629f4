//! The metrics that a client sends: a trait for each kind. `MetricType` in `cadence_text` explains the kinds.
//!
//! Each trait has two calls. One sends a metric at once and returns it with the text that was sent, and the other
//! returns its builder. Both convert the value first. If the value is refused, or a strict client refuses a text, the
//! error has the kind `InvalidInput`; if memory runs out, it has the kind `OutOfMemory`. Nothing is sent then. Any other
//! error is the sink's, as `MetricError::Sink`. The errors of the second call come from the builder, when it is sent.
ghost use Rattle.std.specs.Prelude.{◌≡◌, Some, ◌∷◌, [], pos, negsuc};
ghost use Rattle.cadence_value.specs.Number.{whole};
ghost use Rattle.cadence.specs.Sending.{SendsPlain, StartsPlain};
ghost use Rattle.cadence.specs.Shown.{backend_of, pending_of};

use crate::client::backend::{CallBackend, draft};
use crate::client::builder::MetricBuilder;
use crate::client::handler::ErrorHandler;
use crate::client::statsd_client::StatsdClient;
use crate::types::{Counter, Distribution, Gauge, Histogram, Meter, Set, Timer};
use cadence_errors::MetricResult;
use cadence_flow::MetricSink;
use cadence_text::line::MetricType;
use cadence_value::value::{
    ToCounterValue, ToDistributionValue, ToGaugeValue, ToHistogramValue, ToMeterValue, ToSetValue,
    ToTimerValue,
};
use std::alloc::Allocator;

/// Sends counts of events, which the server adds up. No value of a built-in type is refused.
pub trait Counted<T: ToCounterValue<Self::Memory>>: CallBackend {
    /// Sends a count, and returns the counter that was sent.
    fn count(&self, key: &str, value: T) -> MetricResult<Counter<Self::Memory>>
        ensures { SendsPlain (Self.settings self.now) (Self.line_may_get self.now)
            MetricType.Counter key.now (T.numbers value) result };

    /// Returns the builder of a count, to which tags and other options can be added before it is sent.
    fn count_with_tags<'a>(
        &'a self,
        key: &'a str,
        value: T,
    ) -> MetricBuilder<'a, 'a, Counter<Self::Memory>, Self>
        ensures pending { StartsPlain (Self.settings self.now)
            MetricType.Counter key.now (T.numbers value) (pending_of result) }
        ensures client { backend_of result ≡ self.now }
    {
        let pending = draft(self, key, MetricType::Counter, value.try_to_value());
        MetricBuilder::new(self, pending)
    }
}

impl<A: Allocator + Clone, S: MetricSink, H: ErrorHandler, T: ToCounterValue<A>> Counted<T>
    for StatsdClient<A, S, H> {
    fn count(&self, key: &str, value: T) -> MetricResult<Counter<A>> {
        self.send_plain(key, value.try_to_value())
    }
}

/// Sends a count of 1 or -1. The errors are those of `Counted`, except that the value itself is never refused.
pub trait CountedExt: Counted<i64> {
    /// Sends a count of 1, and returns the counter that was sent.
    fn incr(&self, key: &str) -> MetricResult<Counter<Self::Memory>>
        ensures { SendsPlain (Self.settings self.now) (Self.line_may_get self.now)
            MetricType.Counter key.now (Some (whole (pos 1) ∷ [])) result }
    {
        self.count(key, 1)
    }

    /// Returns the builder of a count of 1, to which tags and other options can be added before it is sent.
    fn incr_with_tags<'a>(
        &'a self,
        key: &'a str,
    ) -> MetricBuilder<'a, 'a, Counter<Self::Memory>, Self>
        ensures pending { StartsPlain (Self.settings self.now)
            MetricType.Counter key.now (Some (whole (pos 1) ∷ [])) (pending_of result) }
        ensures client { backend_of result ≡ self.now }
    {
        self.count_with_tags(key, 1)
    }

    /// Sends a count of -1, and returns the counter that was sent.
    fn decr(&self, key: &str) -> MetricResult<Counter<Self::Memory>>
        ensures { SendsPlain (Self.settings self.now) (Self.line_may_get self.now)
            MetricType.Counter key.now (Some (whole (negsuc 0) ∷ [])) result }
    {
        self.count(key, -1)
    }

    /// Returns the builder of a count of -1, to which tags and other options can be added before it is sent.
    fn decr_with_tags<'a>(
        &'a self,
        key: &'a str,
    ) -> MetricBuilder<'a, 'a, Counter<Self::Memory>, Self>
        ensures pending { StartsPlain (Self.settings self.now)
            MetricType.Counter key.now (Some (whole (negsuc 0) ∷ [])) (pending_of result) }
        ensures client { backend_of result ≡ self.now }
    {
        self.count_with_tags(key, -1)
    }
}

impl<A: Allocator + Clone, S: MetricSink, H: ErrorHandler> CountedExt for StatsdClient<A, S, H> {}

/// Sends times in milliseconds. A `Decimal` is sent with its fraction. A `Duration` is cut off to whole milliseconds, and
/// refused with the kind `InvalidInput` if they pass `u64::MAX`.
pub trait Timed<T: ToTimerValue<Self::Memory>>: CallBackend {
    /// Sends a time, and returns the timer that was sent.
    fn time(&self, key: &str, value: T) -> MetricResult<Timer<Self::Memory>>
        ensures { SendsPlain (Self.settings self.now) (Self.line_may_get self.now)
            MetricType.Timer key.now (T.numbers value) result };

    /// Returns the builder of a time, to which tags and other options can be added before it is sent.
    fn time_with_tags<'a>(
        &'a self,
        key: &'a str,
        value: T,
    ) -> MetricBuilder<'a, 'a, Timer<Self::Memory>, Self>
        ensures pending { StartsPlain (Self.settings self.now)
            MetricType.Timer key.now (T.numbers value) (pending_of result) }
        ensures client { backend_of result ≡ self.now }
    {
        let pending = draft(self, key, MetricType::Timer, value.try_to_value());
        MetricBuilder::new(self, pending)
    }
}

impl<A: Allocator + Clone, S: MetricSink, H: ErrorHandler, T: ToTimerValue<A>> Timed<T>
    for StatsdClient<A, S, H> {
    fn time(&self, key: &str, value: T) -> MetricResult<Timer<A>> {
        self.send_plain(key, value.try_to_value())
    }
}

/// Sends values of a gauge. The server keeps the last one. No value of a built-in type is refused.
pub trait Gauged<T: ToGaugeValue<Self::Memory>>: CallBackend {
    /// Sends a value of a gauge, and returns the gauge that was sent.
    fn gauge(&self, key: &str, value: T) -> MetricResult<Gauge<Self::Memory>>
        ensures { SendsPlain (Self.settings self.now) (Self.line_may_get self.now)
            MetricType.Gauge key.now (T.numbers value) result };

    /// Returns the builder of a value of a gauge, to which tags and other options can be added before it is sent.
    fn gauge_with_tags<'a>(
        &'a self,
        key: &'a str,
        value: T,
    ) -> MetricBuilder<'a, 'a, Gauge<Self::Memory>, Self>
        ensures pending { StartsPlain (Self.settings self.now)
            MetricType.Gauge key.now (T.numbers value) (pending_of result) }
        ensures client { backend_of result ≡ self.now }
    {
        let pending = draft(self, key, MetricType::Gauge, value.try_to_value());
        MetricBuilder::new(self, pending)
    }
}

impl<A: Allocator + Clone, S: MetricSink, H: ErrorHandler, T: ToGaugeValue<A>> Gauged<T>
    for StatsdClient<A, S, H> {
    fn gauge(&self, key: &str, value: T) -> MetricResult<Gauge<A>> {
        self.send_plain(key, value.try_to_value())
    }
}

/// Sends counts of events, from which the server computes a rate. No value of a built-in type is refused.
pub trait Metered<T: ToMeterValue<Self::Memory>>: CallBackend {
    /// Sends a count for a meter, and returns the meter that was sent.
    fn meter(&self, key: &str, value: T) -> MetricResult<Meter<Self::Memory>>
        ensures { SendsPlain (Self.settings self.now) (Self.line_may_get self.now)
            MetricType.Meter key.now (T.numbers value) result };

    /// Returns the builder of a count for a meter, to which tags and other options can be added before it is sent.
    fn meter_with_tags<'a>(
        &'a self,
        key: &'a str,
        value: T,
    ) -> MetricBuilder<'a, 'a, Meter<Self::Memory>, Self>
        ensures pending { StartsPlain (Self.settings self.now)
            MetricType.Meter key.now (T.numbers value) (pending_of result) }
        ensures client { backend_of result ≡ self.now }
    {
        let pending = draft(self, key, MetricType::Meter, value.try_to_value());
        MetricBuilder::new(self, pending)
    }
}

impl<A: Allocator + Clone, S: MetricSink, H: ErrorHandler, T: ToMeterValue<A>> Metered<T>
    for StatsdClient<A, S, H> {
    fn meter(&self, key: &str, value: T) -> MetricResult<Meter<A>> {
        self.send_plain(key, value.try_to_value())
    }
}

/// Sends values whose distribution each server computes. A `Duration` is cut off to whole nanoseconds, and refused with
/// the kind `InvalidInput` if they pass `u64::MAX`.
pub trait Histogrammed<T: ToHistogramValue<Self::Memory>>: CallBackend {
    /// Sends a value for a histogram, and returns the histogram that was sent.
    fn histogram(&self, key: &str, value: T) -> MetricResult<Histogram<Self::Memory>>
        ensures { SendsPlain (Self.settings self.now) (Self.line_may_get self.now)
            MetricType.Histogram key.now (T.numbers value) result };

    /// Returns the builder of a value for a histogram, to which tags and other options can be added before it is sent.
    fn histogram_with_tags<'a>(
        &'a self,
        key: &'a str,
        value: T,
    ) -> MetricBuilder<'a, 'a, Histogram<Self::Memory>, Self>
        ensures pending { StartsPlain (Self.settings self.now)
            MetricType.Histogram key.now (T.numbers value) (pending_of result) }
        ensures client { backend_of result ≡ self.now }
    {
        let pending = draft(self, key, MetricType::Histogram, value.try_to_value());
        MetricBuilder::new(self, pending)
    }
}

impl<A: Allocator + Clone, S: MetricSink, H: ErrorHandler, T: ToHistogramValue<A>> Histogrammed<T>
    for StatsdClient<A, S, H> {
    fn histogram(&self, key: &str, value: T) -> MetricResult<Histogram<A>> {
        self.send_plain(key, value.try_to_value())
    }
}

/// Sends values whose distribution over all servers is computed. No value of a built-in type is refused.
pub trait Distributed<T: ToDistributionValue<Self::Memory>>: CallBackend {
    /// Sends a value for a distribution, and returns the distribution that was sent.
    fn distribution(&self, key: &str, value: T) -> MetricResult<Distribution<Self::Memory>>
        ensures { SendsPlain (Self.settings self.now) (Self.line_may_get self.now)
            MetricType.Distribution key.now (T.numbers value) result };

    /// Returns the builder of a value for a distribution, to which tags and other options can be added before it is
    /// sent.
    fn distribution_with_tags<'a>(
        &'a self,
        key: &'a str,
        value: T,
    ) -> MetricBuilder<'a, 'a, Distribution<Self::Memory>, Self>
        ensures pending { StartsPlain (Self.settings self.now)
            MetricType.Distribution key.now (T.numbers value) (pending_of result) }
        ensures client { backend_of result ≡ self.now }
    {
        let pending = draft(self, key, MetricType::Distribution, value.try_to_value());
        MetricBuilder::new(self, pending)
    }
}

impl<A: Allocator + Clone, S: MetricSink, H: ErrorHandler, T: ToDistributionValue<A>> Distributed<T>
    for StatsdClient<A, S, H> {
    fn distribution(&self, key: &str, value: T) -> MetricResult<Distribution<A>> {
        self.send_plain(key, value.try_to_value())
    }
}

/// Sends members of a set. The server counts the distinct ones. No value of a built-in type is refused.
pub trait Setted<T: ToSetValue<Self::Memory>>: CallBackend {
    /// Sends a member of a set, and returns the set that was sent.
    fn set(&self, key: &str, value: T) -> MetricResult<Set<Self::Memory>>
        ensures { SendsPlain (Self.settings self.now) (Self.line_may_get self.now)
            MetricType.Set key.now (T.numbers value) result };

    /// Returns the builder of a member of a set, to which tags and other options can be added before it is sent.
    fn set_with_tags<'a>(
        &'a self,
        key: &'a str,
        value: T,
    ) -> MetricBuilder<'a, 'a, Set<Self::Memory>, Self>
        ensures pending { StartsPlain (Self.settings self.now)
            MetricType.Set key.now (T.numbers value) (pending_of result) }
        ensures client { backend_of result ≡ self.now }
    {
        let pending = draft(self, key, MetricType::Set, value.try_to_value());
        MetricBuilder::new(self, pending)
    }
}

impl<A: Allocator + Clone, S: MetricSink, H: ErrorHandler, T: ToSetValue<A>> Setted<T>
    for StatsdClient<A, S, H> {
    fn set(&self, key: &str, value: T) -> MetricResult<Set<A>> {
        self.send_plain(key, value.try_to_value())
    }
}
