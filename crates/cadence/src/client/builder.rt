//! A metric that is being built, and its options. `sending` has the calls that send it.
ghost use Rattle.std.specs.Option.{option_copied};
ghost use Rattle.std.specs.Prelude.{◌≡◌, false, true, IfErr, IsErr};
ghost use Rattle.cadence_settings.specs.Call.{tagged, contained, timed, rated, enriched};
ghost use Rattle.cadence_settings.specs.DraftErrors.{IsDraftFault};
ghost use Rattle.cadence_text.specs.Metric.{keyed, unkeyed};
ghost use Rattle.cadence.specs.Sending.{AppliesOption, StandsForMore, choice_for};

use crate::client::backend::MetricBackend;
use crate::client::statsd_client::StatsdClient;
use crate::laws::choosing_stands_for_more;
use crate::types::Metric;
use cadence_errors::{MetricError, MetricResult};
use cadence_settings::{DraftError, Separator, tag_is_clear, text_is_free};
use cadence_text::line::{Cardinality, DraftLine, Tag};
use cadence_value::decimal::Decimal;
use std::marker::PhantomData;

/// A metric that is being built. It stores the draft of the metric's line, or the first error of the call; after an
/// error the options change nothing. A builder has to be sent: code that drops one doesn't compile.
///
/// ```text
/// let tenth = Decimal::new(1, 1)?;
/// client
///     .count_with_tags("visits", 1)
///     .with_tag("page", "home")
///     .with_sampling_rate(tenth)
///     .try_send()?;
/// ```
pub struct MetricBuilder<
    'm,
    'c,
    T: Metric + From<String<C::Memory>>,
    C: MetricBackend = StatsdClient,
> {
    pub(super) draft: MetricResult<DraftLine<'m, C::Memory>>,
    pub(super) client: &'c C,
    pub(super) _of: PhantomData<T>,
}

// Each option calls `choosing_stands_for_more`, a law that only the proof needs. The call compiles to no code.
impl<'m, 'c, T: Metric + From<String<C::Memory>>, C: MetricBackend> MetricBuilder<'m, 'c, T, C> {
    ghost use Rattle.cadence.specs.Shown.{pending_of, backend_of};

    pub(crate) fn new(client: &'c C, pending: MetricResult<DraftLine<'m, C::Memory>>) -> Self
        ensures pending { pending_of result ≡ pending.entry }
        ensures client { backend_of result ≡ client.now }
    {
        MetricBuilder {
            draft: pending,
            client,
            _of: PhantomData,
        }
    }

    // Stores an error in place of the draft. It is cold, so that a tag that is added passes no code of errors.
    #[cold]
    fn fail(&mut self, error: DraftError)
        ensures pending { IfErr (pending_of self.new) (IsDraftFault error) }
        ensures failed { IsErr (pending_of self.new) }
        ensures client { backend_of self.new ≡ backend_of self.old }
    {
        self.draft = Err(MetricError::from(error));
    }

    // Adds a tag to the draft. The builder stores an error in place of the draft.
    // Without this hint a call of `bench count_tags` takes 258 instructions more.
    #[inline(always)]
    fn add_tag(&mut self, key: Option<&'m str>, text: &'m str)
        ensures pending { AppliesOption (C.settings (backend_of self.old)) true
            (pending_of self.old)
            (tagged (record { key = option_copied key.entry; text = text.now }))
            (pending_of self.new) }
        ensures client { backend_of self.new ≡ backend_of self.old }
    {
        let Ok(draft) = &mut self.draft else {
            return;
        };
        if self.client.is_strict() && !tag_is_clear(key, text) {
            return self.fail(DraftError::Unusable(Separator));
        }
        let tag = Tag { key, text };
        if draft.add_tag_as(tag, self.client.is_cleaned()).is_err() {
            self.fail(DraftError::OutOfMemory);
        }
    }

    // Sets the container of the draft, or stores an error in place of the draft.
    fn set_container(&mut self, container_id: &'m str)
        ensures pending { AppliesOption (C.settings (backend_of self.old)) false
            (pending_of self.old) (contained container_id.now) (pending_of self.new) }
        ensures client { backend_of self.new ≡ backend_of self.old }
    {
        let allowed = !self.client.is_strict() || text_is_free(container_id);
        if let Ok(draft) = &mut self.draft {
            if allowed {
                draft.set_container_as(container_id, self.client.is_cleaned());
            } else {
                self.fail(DraftError::Unusable(Separator));
            }
        }
    }

    // Sets the time of the draft.
    fn set_time(&mut self, timestamp: u64)
        ensures pending { AppliesOption (C.settings (backend_of self.old)) false
            (pending_of self.old) (timed timestamp) (pending_of self.new) }
        ensures client { backend_of self.new ≡ backend_of self.old }
    {
        if let Ok(draft) = &mut self.draft {
            draft.set_time(timestamp);
        }
    }

    // Sets the rate of the draft.
    fn set_rate(&mut self, rate: Decimal)
        ensures pending { AppliesOption (C.settings (backend_of self.old)) false
            (pending_of self.old) (rated rate) (pending_of self.new) }
        ensures client { backend_of self.new ≡ backend_of self.old }
    {
        if let Ok(draft) = &mut self.draft {
            draft.set_rate(rate);
        }
    }

    /// Adds a tag with a key, after the default tags and the earlier ones. `try_send` returns an error if memory runs out,
    /// or a strict client finds a separator in the key, or one other than a colon in the value. A client that cleans texts
    /// sends an underscore in place of each of these.
    // Without this hint a call of `bench count_tags` takes 133 instructions more.
    #[inline(always)]
    pub fn with_tag(mut self, key: &'m str, value: &'m str) -> Self
        ensures pending { AppliesOption (C.settings (backend_of self.entry)) true
            (pending_of self.entry) (tagged (keyed key.now value.now)) (pending_of result) }
        ensures call { StandsForMore (pending_of self.entry)
            (choice_for (C.settings (backend_of self.entry)) (tagged (keyed key.now value.now)))
            (pending_of result) }
        ensures client { backend_of result ≡ backend_of self.entry }
    {
        choosing_stands_for_more();
        self.add_tag(Some(key), value);
        self
    }

    /// Adds a tag without a key, after the default tags and the earlier ones. The errors are those of `with_tag`.
    pub fn with_tag_value(mut self, value: &'m str) -> Self
        ensures pending { AppliesOption (C.settings (backend_of self.entry)) true
            (pending_of self.entry) (tagged (unkeyed value.now)) (pending_of result) }
        ensures call { StandsForMore (pending_of self.entry)
            (choice_for (C.settings (backend_of self.entry)) (tagged (unkeyed value.now)))
            (pending_of result) }
        ensures client { backend_of result ≡ backend_of self.entry }
    {
        choosing_stands_for_more();
        self.add_tag(None, value);
        self
    }

    /// Sets the container, in place of the default one or an earlier one. `try_send` returns an error if a strict client
    /// finds a separator in it. A client that cleans texts sends an underscore in place of each.
    pub fn with_container_id(mut self, container_id: &'m str) -> Self
        ensures pending { AppliesOption (C.settings (backend_of self.entry)) false
            (pending_of self.entry) (contained container_id.now) (pending_of result) }
        ensures call { StandsForMore (pending_of self.entry)
            (choice_for (C.settings (backend_of self.entry)) (contained container_id.now))
            (pending_of result) }
        ensures client { backend_of result ≡ backend_of self.entry }
    {
        choosing_stands_for_more();
        self.set_container(container_id);
        self
    }

    /// Sets the time, in place of an earlier one. DogStatsD reads it as seconds since 1970.
    pub fn with_timestamp(mut self, timestamp: u64) -> Self
        ensures pending { AppliesOption (C.settings (backend_of self.entry)) false
            (pending_of self.entry) (timed timestamp) (pending_of result) }
        ensures call { StandsForMore (pending_of self.entry) (timed timestamp) (pending_of result) }
        ensures client { backend_of result ≡ backend_of self.entry }
    {
        choosing_stands_for_more();
        self.set_time(timestamp);
        self
    }

    /// Sets the cardinality, in place of the default one or an earlier one: which tags of the container a Datadog agent
    /// adds.
    pub fn with_cardinality(mut self, cardinality: Cardinality) -> Self
        ensures pending { AppliesOption (C.settings (backend_of self.entry)) false
            (pending_of self.entry) (enriched cardinality) (pending_of result) }
        ensures call { StandsForMore (pending_of self.entry) (enriched cardinality)
            (pending_of result) }
        ensures client { backend_of result ≡ backend_of self.entry }
    {
        choosing_stands_for_more();
        if let Ok(draft) = &mut self.draft {
            draft.set_cardinality(cardinality);
        }
        self
    }

    /// Sets the sampling rate, in place of an earlier one: the share of events for which the caller makes a call, for
    /// example 0.1. The server scales by it. The client sends every call, and doesn't check that the rate is between 0
    /// and 1; `try_send_sampled` makes the choice itself.
    pub fn with_sampling_rate(mut self, rate: Decimal) -> Self
        ensures pending { AppliesOption (C.settings (backend_of self.entry)) false
            (pending_of self.entry) (rated rate) (pending_of result) }
        ensures call { StandsForMore (pending_of self.entry) (rated rate) (pending_of result) }
        ensures client { backend_of result ≡ backend_of self.entry }
    {
        choosing_stands_for_more();
        self.set_rate(rate);
        self
    }
}
