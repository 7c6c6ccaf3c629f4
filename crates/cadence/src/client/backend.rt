//! The traits of what sends a metric, and the functions that send a metric or begin its draft.
ghost use Rattle.std.specs.Prelude.{None, Some};
ghost use Rattle.cadence_text.specs.TextValue.{IsFitValue, value_kind, value_text};
ghost use Rattle.cadence_value.specs.Values.{Converts};
ghost use Rattle.cadence.specs.Sending.{StartsPlain, StartsValue};

use crate::types::Metric;
use cadence_errors::{MetricError, MetricResult, SinkError};
use cadence_settings::{ClientSettings, TextError, UnfitText, text_is_free};
use cadence_text::line::{DraftLine, MetricType, TextValue};
use cadence_value::value::MetricValue;
use std::alloc::Allocator;

/// No other crate can name this trait, so that no other crate can implement the traits above it.
pub trait Sealed {}

/// Sends metrics to a sink, and errors to a handler. `StatsdClient` implements it, and no other crate can. A service
/// calls `send_metric` to send a metric of its own type through a client.
pub trait MetricBackend: Sealed {
    ghost use Rattle.std.specs.Prelude.{◌≡◌, ℕ, IsTrue, List, Result};
    ghost use Rattle.cadence_errors.specs.declared.SinkError.{SinkError};
    ghost use Rattle.cadence.specs.Sending.{SendsText};
    ghost use Rattle.cadence_settings.specs.Settings.{Settings, is_clear_settings};

    /// The allocator of its metrics.
    type Memory: Allocator + Clone;

    /// The prefix and the defaults that it adds to each call.
    ghost settings: { Self → Settings };

    /// The results that its sink may return for a line.
    ghost line_may_get: { Self → List ℕ → Result ℕ SinkError → Type 0 };

    /// Sends the text of a metric to the sink, without a prefix or defaults. The error is the sink's, as
    /// `MetricError::Sink`.
    fn send_metric<M: Metric>(&self, metric: &M) -> MetricResult<()>
        ensures { SendsText (line_may_get self.now) (M.metric_text metric.now) result };

    /// Returns whether the client refuses each call with a key, tag or container that has a separator, other than a colon
    /// after the key of a tag. Its prefix and its defaults have none then. `send_metric` sends any text.
    fn is_strict(&self) -> bool
        ensures strict { result ≡ (settings self.now).strict }
        ensures clear { IsTrue result → IsTrue (is_clear_settings (settings self.now)) };

    /// Returns whether the client sends an underscore in place of each separator in a key, a tag or a container, other than
    /// a colon after the key of a tag. `send_metric` sends any text.
    fn is_cleaned(&self) -> bool
        ensures { result ≡ (settings self.now).cleaned };

    /// Gives an error to the handler, or drops it if the client has no handler.
    fn consume_error(&self, err: MetricError);
}

/// What the calls of a client need. It is no method of `MetricBackend`, so that no other crate can call it. It doesn't name
/// the allocator except behind a reference, because the checker can't state an `impl` whose methods do.
pub trait CallBackend: MetricBackend {
    ghost use Rattle.std.specs.Prelude.{◌≡◌};

    /// Returns the prefix and the defaults.
    fn client_settings(&self) -> &ClientSettings<Self::Memory>
        ensures { result.now ≡ Self.settings self.now };
}

// Drafts the line of a call without options whose value has numbers, or returns the error of its value.
#[tactic(auto, unfolding(cadence_settings::specs::Call::metric_of_call))]
pub(crate) fn draft<'a, C: CallBackend>(
    client: &'a C,
    key: &str,
    kind: MetricType,
    value: MetricResult<MetricValue<C::Memory>>,
) -> MetricResult<DraftLine<'a, C::Memory>>
    ensures { (numbers : _) → Converts numbers value →
        StartsPlain (C.settings client.now) kind key.now numbers result }
{
    let settings = client.client_settings();
    match value {
        Ok(value) => Ok(settings.draft(key, kind, value)?),
        Err(error) => Err(settings.value_error(key, error)),
    }
}

// Drafts the line of a call without options whose value is a text, or returns the error of its key or its value.
#[tactic(auto, unfolding(cadence_settings::specs::Call::metric_of_call))]
pub(crate) fn text_draft<'a, C: CallBackend>(
    client: &'a C,
    key: &str,
    value: &TextValue<'_>,
) -> MetricResult<DraftLine<'a, C::Memory>>
    ensures fit { IsFitValue value.now → StartsValue (C.settings client.now)
        (value_kind value.now) key.now (Some (value_text value.now)) result }
    ensures other { (IsFitValue value.now → ⊥) → StartsValue (C.settings client.now)
        (value_kind value.now) key.now None result }
{
    // Before memory is taken, so that the texts alone decide.
    if client.is_strict() && !text_is_free(key) {
        return Err(MetricError::from(TextError::Unusable(UnfitText::Key)));
    }
    if !value.is_fit() {
        return Err(MetricError::from(TextError::Unusable(UnfitText::Member)));
    }
    let settings = client.client_settings();
    let buffer = Vec::new(settings.empty_tags()?.allocator().clone()?);
    Ok(settings.text_draft(buffer, key, value)?)
}
