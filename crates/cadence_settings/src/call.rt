//! Calls that are kept as data: a key, a value and options, from which a client makes the metric later.
ghost use Rattle.std.specs.Prelude.{◌≡◌, [], OnOk, map};
ghost use Rattle.std.specs.List.{fold};
ghost use Rattle.cadence_value.specs.Values.{Converts};
ghost use Rattle.cadence_text.specs.Metric.{Metric};
ghost use Rattle.cadence_settings.specs.Call.{IsDraftOf, chosen, is_clear_call, is_clear_choice};
ghost use Rattle.cadence_settings.specs.CallData.{call_of, choice_of, kind_of_value, numbers_of_value, sent_choice};

use super::settings::{tag_is_clear, text_is_free};
use cadence_errors::MetricResult;
use cadence_text::line::{DraftLine, MetricType, Tag};
use cadence_value::decimal::Decimal;
use cadence_value::value::{MetricValue, ToHistogramValue, ToTimerValue};
use std::alloc::{AllocError, Allocator, Global};
use std::time::Duration;

/// The value of a call. Each variant names a kind of metric and a type that this kind takes: `CountI64` changes a
/// counter by an `i64`, and `TimeVecDuration` sends a list of durations to a timer.
///
/// A timer sends durations in milliseconds, a histogram in nanoseconds.
#[derive(Drop)]
pub enum CallValue<A: Allocator = Global> {
    CountI64(i64),
    CountI32(i32),
    CountU64(u64),
    CountU32(u32),
    TimeU64(u64),
    TimeVecU64(Vec<u64, A>),
    TimeDuration(Duration),
    TimeVecDuration(Vec<Duration, A>),
    GaugeU64(u64),
    GaugeDecimal(Decimal),
    MeterU64(u64),
    HistogramU64(u64),
    HistogramDecimal(Decimal),
    HistogramDuration(Duration),
    HistogramVecU64(Vec<u64, A>),
    HistogramVecDecimal(Vec<Decimal, A>),
    HistogramVecDuration(Vec<Duration, A>),
    DistributionU64(u64),
    DistributionDecimal(Decimal),
    DistributionVecU64(Vec<u64, A>),
    DistributionVecDecimal(Vec<Decimal, A>),
    SetI64(i64),
}

/// An option of a call. The options of a call apply in their order: each tag is added, and of the containers, the
/// times and the rates the last one counts.
#[derive(Drop)]
pub enum CallOption<A: Allocator = Global> {
    /// A tag with a key.
    Tag(String<A>, String<A>),
    /// A tag without a key.
    TagValue(String<A>),
    /// The container, which replaces the default one.
    Container(String<A>),
    /// The time, in the unit that the server expects. DogStatsD expects seconds since 1970.
    Time(u64),
    /// The sampling rate.
    Rate(Decimal),
}

/// A call of a client, kept as data. The Rust crate has no such type.
#[derive(Drop)]
pub struct Call<A: Allocator = Global> {
    /// The name of the metric. The prefix of the client comes before it.
    pub key: String<A>,
    /// The value, which also decides the kind of the metric.
    pub value: CallValue<A>,
    /// The options, in the order in which they apply.
    pub options: Vec<CallOption<A>, A>,
}

impl<A: Allocator> CallValue<A> {
    // Returns the kind of the metric.
    pub(crate) fn kind(&self) -> MetricType
        ensures { result ≡ kind_of_value self.now }
    {
        match self {
            CallValue::CountI64(_)
            | CallValue::CountI32(_)
            | CallValue::CountU64(_)
            | CallValue::CountU32(_) => MetricType::Counter,
            CallValue::TimeU64(_)
            | CallValue::TimeVecU64(_)
            | CallValue::TimeDuration(_)
            | CallValue::TimeVecDuration(_) => MetricType::Timer,
            CallValue::GaugeU64(_) | CallValue::GaugeDecimal(_) => MetricType::Gauge,
            CallValue::MeterU64(_) => MetricType::Meter,
            CallValue::HistogramU64(_)
            | CallValue::HistogramDecimal(_)
            | CallValue::HistogramDuration(_)
            | CallValue::HistogramVecU64(_)
            | CallValue::HistogramVecDecimal(_)
            | CallValue::HistogramVecDuration(_) => MetricType::Histogram,
            CallValue::DistributionU64(_)
            | CallValue::DistributionDecimal(_)
            | CallValue::DistributionVecU64(_)
            | CallValue::DistributionVecDecimal(_) => MetricType::Distribution,
            CallValue::SetI64(_) => MetricType::Set,
        }
    }
}

impl<A: Allocator + Clone> CallValue<A> {
    // Returns the value as a metric stores it. A list is copied. The error is of kind `InvalidInput` if a duration
    // passes `u64::MAX` in the unit of its kind, and `SinkError::OutOfMemory` if memory for a list runs out.
    pub(crate) fn convert(&self) -> MetricResult<MetricValue<A>>
        ensures { Converts (numbers_of_value self.now) result }
    {
        match self {
            CallValue::CountI64(n) | CallValue::SetI64(n) => Ok(MetricValue::Signed(*n)),
            CallValue::CountI32(n) => Ok(MetricValue::Signed(i64::from(*n))),
            CallValue::CountU32(n) => Ok(MetricValue::Unsigned(u64::from(*n))),
            CallValue::CountU64(n)
            | CallValue::TimeU64(n)
            | CallValue::GaugeU64(n)
            | CallValue::MeterU64(n)
            | CallValue::HistogramU64(n)
            | CallValue::DistributionU64(n) => Ok(MetricValue::Unsigned(*n)),
            CallValue::GaugeDecimal(d)
            | CallValue::HistogramDecimal(d)
            | CallValue::DistributionDecimal(d) => Ok(MetricValue::Decimal(*d)),
            CallValue::TimeVecU64(ns)
            | CallValue::HistogramVecU64(ns)
            | CallValue::DistributionVecU64(ns) => Ok(MetricValue::PackedUnsigned(ns.clone()?)),
            CallValue::HistogramVecDecimal(ds) | CallValue::DistributionVecDecimal(ds) => {
                Ok(MetricValue::PackedDecimal(ds.clone()?))
            }
            CallValue::TimeDuration(d) => ToTimerValue::try_to_value(*d),
            CallValue::HistogramDuration(d) => ToHistogramValue::try_to_value(*d),
            CallValue::TimeVecDuration(ds) => ToTimerValue::try_to_value(ds),
            CallValue::HistogramVecDuration(ds) => ToHistogramValue::try_to_value(ds),
        }
    }
}

impl<A: Allocator> CallOption<A> {
    // Returns whether the option has no separator in its texts, except colons after the key of a tag.
    fn is_clear(&self) -> bool
        ensures { result ≡ is_clear_choice (choice_of self.now) }
    {
        match self {
            CallOption::Tag(key, text) => tag_is_clear(Some(key.as_str()), text.as_str()),
            CallOption::TagValue(text) => tag_is_clear(None, text.as_str()),
            CallOption::Container(text) => text_is_free(text.as_str()),
            CallOption::Time(_) | CallOption::Rate(_) => true,
        }
    }
}

impl<A: Allocator> Call<A> {
    // Returns whether the call has no separator in its texts, except colons after the keys of tags.
    pub(crate) fn is_clear(&self) -> bool
        ensures { result ≡ is_clear_call (call_of self.now []) }
    {
        for option in &self.options {
            if !option.is_clear() {
                return false;
            }
        }
        text_is_free(&self.key)
    }
}

// Applies one option of a call to the draft of its line, with a cleaned text if `is_cleaned` is set. The only error is
// that memory ran out.
fn choose<'a, A: Allocator>(
    draft: &mut DraftLine<'a, A>,
    option: &'a CallOption<A>,
    is_cleaned: bool,
) -> Result<(), AllocError>
    ensures { OnOk result ((m : Metric) → IsDraftOf m draft.old →
        IsDraftOf (chosen m (sent_choice is_cleaned option.now)) draft.new) }
{
    match option {
        CallOption::Tag(key, text) => {
            let tag = Tag {
                key: Some(key.as_str()),
                text: text.as_str(),
            };
            draft.add_tag_as(tag, is_cleaned)?
        }
        CallOption::TagValue(text) => {
            let tag = Tag {
                key: None,
                text: text.as_str(),
            };
            draft.add_tag_as(tag, is_cleaned)?
        }
        CallOption::Container(text) => draft.set_container_as(text.as_str(), is_cleaned),
        CallOption::Time(time) => draft.set_time(*time),
        CallOption::Rate(rate) => draft.set_rate(*rate),
    }
    Ok(())
}

// Applies the options of a call to the draft of its line, in their order. The only error is that memory ran out.
pub(crate) fn choose_all<'a, A: Allocator>(
    draft: &mut DraftLine<'a, A>,
    options: &'a [CallOption<A>],
    is_cleaned: bool,
) -> Result<(), AllocError>
    ensures { OnOk result ((m : Metric) → IsDraftOf m draft.old →
        IsDraftOf (fold chosen m (map (sent_choice is_cleaned) options.now)) draft.new) }
{
    for option in options {
        choose(draft, option, is_cleaned)?;
    }
    Ok(())
}
