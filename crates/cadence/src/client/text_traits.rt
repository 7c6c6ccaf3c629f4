//! The metrics whose value is a text and no number: members of sets, and changes of gauges. The Rust crate has no such
//! calls.
//!
//! As with the traits of `traits`, one call sends a metric at once and returns it with the text that was sent, and the
//! other returns its builder. The errors are those that `traits` explains.
ghost use Rattle.std.specs.Prelude.{◌≡◌, None, Some};
ghost use Rattle.cadence_text.specs.TextValue.{IsMember, change_text};
ghost use Rattle.cadence.specs.Sending.{SendsLevel, SendsValue, StartsValue};
ghost use Rattle.cadence.specs.Shown.{backend_of, pending_of};

use crate::client::backend::{CallBackend, draft, text_draft};
use crate::client::builder::MetricBuilder;
use crate::client::handler::ErrorHandler;
use crate::client::statsd_client::StatsdClient;
use crate::client::traits::Gauged;
use crate::types::{Gauge, Set};
use cadence_errors::MetricResult;
use cadence_flow::MetricSink;
use cadence_text::line::{MetricType, TextValue};
use cadence_value::decimal::Decimal;
use cadence_value::value::MetricValue;
use std::alloc::Allocator;

/// Sends members of a set that are texts, such as `alice`. `is_member` in `line` says which texts can be members. A text
/// that can't, because it is empty or has a colon, a bar or a newline, is refused with the kind `InvalidInput` by every
/// client.
pub trait SettedExt: CallBackend {
    /// Sends a member of a set, and returns the set that was sent.
    fn set_text(&self, key: &str, text: &str) -> MetricResult<Set<Self::Memory>>
        ensures member { IsMember text.now →
            SendsValue (Self.settings self.now) (Self.line_may_get self.now)
            MetricType.Set key.now (Some text.now) result }
        ensures other { (IsMember text.now → ⊥) →
            SendsValue (Self.settings self.now) (Self.line_may_get self.now)
            MetricType.Set key.now None result }
    {
        self.set_text_with_tags(key, text).try_send()
    }

    /// Returns the builder of a member of a set, to which tags and other options can be added before it is sent.
    fn set_text_with_tags<'a>(
        &'a self,
        key: &'a str,
        text: &'a str,
    ) -> MetricBuilder<'a, 'a, Set<Self::Memory>, Self>
        ensures member { IsMember text.now → StartsValue (Self.settings self.now)
            MetricType.Set key.now (Some text.now) (pending_of result) }
        ensures other { (IsMember text.now → ⊥) → StartsValue (Self.settings self.now)
            MetricType.Set key.now None (pending_of result) }
        ensures client { backend_of result ≡ self.now }
    {
        let pending = text_draft(self, key, &TextValue::Member(text));
        MetricBuilder::new(self, pending)
    }
}

impl<A: Allocator + Clone, S: MetricSink, H: ErrorHandler> SettedExt for StatsdClient<A, S, H> {}

/// Sends changes of a gauge, which the server adds to the value that it keeps, and levels, to which it sets the gauge also
/// below 0. A line has a change with its sign, as `+3`.
pub trait GaugedExt: Gauged<Decimal> {
    /// Sends a change of a gauge, and returns the gauge that was sent.
    fn change(&self, key: &str, by: Decimal) -> MetricResult<Gauge<Self::Memory>>
        ensures { SendsValue (Self.settings self.now) (Self.line_may_get self.now)
            MetricType.Gauge key.now (Some (change_text by)) result }
    {
        self.change_with_tags(key, by).try_send()
    }

    /// Returns the builder of a change of a gauge, to which tags and other options can be added before it is sent.
    fn change_with_tags<'a>(
        &'a self,
        key: &'a str,
        by: Decimal,
    ) -> MetricBuilder<'a, 'a, Gauge<Self::Memory>, Self>
        ensures pending { StartsValue (Self.settings self.now)
            MetricType.Gauge key.now (Some (change_text by)) (pending_of result) }
        ensures client { backend_of result ≡ self.now }
    {
        let pending = text_draft(self, key, &TextValue::Change(by));
        MetricBuilder::new(self, pending)
    }

    /// Sets a gauge to a value, also to one below 0, and returns the gauge that was sent. Most servers read a value with a
    /// minus as a change. So a line with 0 comes before the line with such a value, in one text of two lines. `gauge` sends
    /// each value as it is. With tags, `try_send_before` sends two such lines.
    fn level(&self, key: &str, value: Decimal) -> MetricResult<Gauge<Self::Memory>>
        ensures { SendsLevel (Self.settings self.now) (Self.line_may_get self.now)
            key.now value result }
    {
        let line = self.gauge_with_tags(key, value);
        if value.mantissa() >= 0 {
            return line.try_send();
        }
        let zero = draft(self, key, MetricType::Gauge, Ok(MetricValue::Unsigned(0)));
        MetricBuilder::new(self, zero).try_send_before(line)
    }
}

impl<A: Allocator + Clone, S: MetricSink, H: ErrorHandler> GaugedExt for StatsdClient<A, S, H> {}
