//! Records of calls, for a caller who needs the fields of a metric and not its line.
ghost use Rattle.std.specs.Prelude.{◌≡◌, IfOk, OnOk, map};
ghost use Rattle.std.specs.List.{fold};
ghost use Rattle.cadence_text.specs.Record.{tag_of};
ghost use Rattle.cadence_settings.specs.Call.{chosen};
ghost use Rattle.cadence_settings.specs.CallData.{choice_of};

use super::{ClientSettings, DraftError, Separator};
use crate::call::{Call, CallOption};
use cadence_errors::{MetricError, MetricResult};
use cadence_text::line::{MetricType, Record, Tag, lend_tags};
use cadence_value::value::MetricValue;
use std::alloc::{AllocError, Allocator};

impl<A: Allocator + Clone> ClientSettings<A> {
    ghost use Rattle.std.specs.Prelude.{IsErrAnd, IsFalse, IsTrue};
    ghost use Rattle.cadence_errors.specs.Errors.{IsInvalid, Makes};
    ghost use Rattle.cadence_settings.specs.Settings.{allows_text};
    ghost use Rattle.cadence_value.specs.Values.{numbers_of};
    ghost use Rattle.cadence_settings.specs.Call.{MakesMetric, metric_of_call, plain_call};
    ghost use Rattle.cadence_settings.specs.CallData.{record_metric};

    /// Returns the record of a call without options, to which the prefix and the defaults of these settings are added.
    /// It borrows the texts of the call, so they are not cleaned.
    ///
    /// # Errors
    /// An error of kind `InvalidInput` (`separator in a text`) if and only if the settings are strict and the key has a
    /// separator. Otherwise `SinkError::OutOfMemory`.
    pub fn record<'a>(
        &'a self,
        key: &'a str,
        kind: MetricType,
        value: MetricValue<A>,
    ) -> MetricResult<Record<'a, A>>
        ensures allowed { IsTrue (allows_text self.now key.now) →
            Makes (metric_of_call self.now (plain_call kind key.now (numbers_of value))) result }
        ensures refused { IsFalse (allows_text self.now key.now) →
            IsErrAnd result IsInvalid }
    {
        if !self.allows_text(key) {
            return Err(MetricError::from(DraftError::Unusable(Separator)));
        }
        self.record_with(key, kind, value)
    }

    // Returns the default tags in their order, as tags that borrow the texts of the settings. It takes memory for one
    // list, and only if there are default tags. The only error is that memory ran out.
    fn default_tags(&self) -> Result<Vec<Tag<'_>, A>, AllocError>
        ensures { IfOk result (λ tags. map tag_of tags.items ≡ (self.now).tags) }
    {
        lend_tags(self.tags.allocator().clone()?, &self.tags)
    }

    // Returns the record of a call without options. It tests no text.
    fn record_with<'a>(
        &'a self,
        key: &'a str,
        kind: MetricType,
        value: MetricValue<A>,
    ) -> MetricResult<Record<'a, A>>
        ensures { Makes (metric_of_call self.now (plain_call kind key.now (numbers_of value)))
            result }
    {
        let tags = self.default_tags()?;
        let container = self.default_container();
        let mut record = Record::with_defaults(&self.prefix, key, kind, value, tags, container);
        record.set_enrichment(self.enrichment());
        Ok(record)
    }

    /// Returns the record of a call that is kept as data, to which the prefix and the defaults of these settings and
    /// the options of the call are added. It borrows the texts of the call, so they are not cleaned.
    ///
    /// # Errors
    /// Those of [`ClientSettings::line_of`].
    pub fn record_of<'a>(&'a self, call: &'a Call<A>) -> MetricResult<Record<'a, A>>
        ensures { MakesMetric (record_metric self.now call.now) result }
    {
        let value = match self.value_of(call) {
            Ok(value) => value,
            Err(error) => return Err(error),
        };
        let mut metric = self.record_with(&call.key, call.value.kind(), value)?;
        set_all(&mut metric, &call.options)?;
        Ok(metric)
    }
}

// Applies one option of a call to its record. The only error is that memory ran out.
fn set<'a, A: Allocator>(
    metric: &mut Record<'a, A>,
    option: &'a CallOption<A>,
) -> Result<(), AllocError>
    ensures { OnOk result (metric.new ≡ chosen metric.old (choice_of option.now)) }
{
    match option {
        CallOption::Tag(key, text) => metric.add_tag(Tag {
            key: Some(key.as_str()),
            text: text.as_str(),
        })?,
        CallOption::TagValue(text) => metric.add_tag(Tag {
            key: None,
            text: text.as_str(),
        })?,
        CallOption::Container(text) => metric.set_container(text.as_str()),
        CallOption::Time(time) => metric.set_time(*time),
        CallOption::Rate(rate) => metric.set_rate(*rate),
    }
    Ok(())
}

// Applies the options of a call to its record, in their order. The only error is that memory ran out.
fn set_all<'a, A: Allocator>(
    metric: &mut Record<'a, A>,
    options: &'a [CallOption<A>],
) -> Result<(), AllocError>
    ensures { OnOk result (metric.new ≡ fold chosen metric.old (map choice_of options.now)) }
{
    for option in options {
        set(metric, option)?;
    }
    Ok(())
}
