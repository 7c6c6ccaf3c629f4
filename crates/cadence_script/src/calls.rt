//! Reads the calls of a script: a kind, a key, a value and options.
ghost use Rattle.std.specs.Prelude.{◌≤◌};
ghost use Rattle.cadence_script.specs.Words.{bytes_left};

use crate::words::{BadLine, LineError, Words, number, signed_number, text_of};
use cadence_settings::{Call, CallOption, CallValue};
use cadence_text::line::MetricType;
use cadence_value::decimal::Decimal;
use std::alloc::Allocator;
use std::time::Duration;

// An item of a list, in which commas separate the items.
trait Item: Drop {
    fn read(item: &str) -> Result<Self, LineError>;
}

impl Item for u64 {
    fn read(item: &str) -> Result<u64, LineError> {
        number(item)
    }
}

// A decimal: its mantissa and its decimal places, as in `-5/1` for -0.5.
impl Item for Decimal {
    fn read(item: &str) -> Result<Decimal, LineError> {
        let Some((mantissa, places)) = item.split_once('/') else {
            return Err(LineError::Unusable(BadLine));
        };
        match Decimal::new(signed_number(mantissa)?, number(places)?) {
            Ok(decimal) => Ok(decimal),
            Err(_) => Err(LineError::Unusable(BadLine)),
        }
    }
}

// A duration: its seconds and its nanoseconds, as in `1/500000000` for 1.5 seconds.
impl Item for Duration {
    fn read(item: &str) -> Result<Duration, LineError> {
        let Some((seconds, nanoseconds)) = item.split_once('/') else {
            return Err(LineError::Unusable(BadLine));
        };
        let seconds: u64 = number(seconds)?;
        let nanoseconds: u32 = number(nanoseconds)?;
        if nanoseconds > 999_999_999 {
            return Err(LineError::Unusable(BadLine));
        }
        Ok(Duration::new(seconds, nanoseconds))
    }
}

// Returns the items between the commas. An empty text has no items.
fn list_of<T: Item, A: Allocator>(alloc: A, items: &str) -> Result<Vec<T, A>, LineError> {
    let mut list = Vec::new(alloc);
    if items.is_empty() {
        return Ok(list);
    }
    for item in items.split(',') {
        list.push(T::read(item)?)?;
    }
    Ok(list)
}

// A value as the script writes it. Each kind of metric accepts some of these forms.
#[derive(Drop)]
enum Form<A: Allocator> {
    Signed(i64),
    Unsigned(u64),
    UnsignedList(Vec<u64, A>),
    Decimal(Decimal),
    DecimalList(Vec<Decimal, A>),
    Duration(Duration),
    DurationList(Vec<Duration, A>),
}

fn form_of<A: Allocator>(alloc: A, word: &str) -> Result<Form<A>, LineError> {
    let Some((letter, items)) = word.split_once(':') else {
        return Err(LineError::Unusable(BadLine));
    };
    match letter {
        "i" => Ok(Form::Signed(signed_number(items)?)),
        "u" => Ok(Form::Unsigned(number(items)?)),
        "U" => Ok(Form::UnsignedList(list_of(alloc, items)?)),
        "x" => Ok(Form::Decimal(Item::read(items)?)),
        "X" => Ok(Form::DecimalList(list_of(alloc, items)?)),
        "t" => Ok(Form::Duration(Item::read(items)?)),
        "T" => Ok(Form::DurationList(list_of(alloc, items)?)),
        _ => Err(LineError::Unusable(BadLine)),
    }
}

fn kind_of(word: &str) -> Result<MetricType, LineError> {
    match MetricType::from_text(word.as_bytes()) {
        Some(kind) => Ok(kind),
        None => Err(LineError::Unusable(BadLine)),
    }
}

fn count_of<A: Allocator>(form: Form<A>) -> Result<CallValue<A>, LineError> {
    match form {
        Form::Signed(n) => Ok(CallValue::CountI64(n)),
        Form::Unsigned(n) => Ok(CallValue::CountU64(n)),
        _ => Err(LineError::Unusable(BadLine)),
    }
}

fn time_of<A: Allocator>(form: Form<A>) -> Result<CallValue<A>, LineError> {
    match form {
        Form::Unsigned(n) => Ok(CallValue::TimeU64(n)),
        Form::UnsignedList(ns) => Ok(CallValue::TimeVecU64(ns)),
        Form::Duration(d) => Ok(CallValue::TimeDuration(d)),
        Form::DurationList(ds) => Ok(CallValue::TimeVecDuration(ds)),
        _ => Err(LineError::Unusable(BadLine)),
    }
}

fn gauge_of<A: Allocator>(form: Form<A>) -> Result<CallValue<A>, LineError> {
    match form {
        Form::Unsigned(n) => Ok(CallValue::GaugeU64(n)),
        Form::Decimal(d) => Ok(CallValue::GaugeDecimal(d)),
        _ => Err(LineError::Unusable(BadLine)),
    }
}

fn meter_of<A: Allocator>(form: Form<A>) -> Result<CallValue<A>, LineError> {
    match form {
        Form::Unsigned(n) => Ok(CallValue::MeterU64(n)),
        _ => Err(LineError::Unusable(BadLine)),
    }
}

fn histogram_of<A: Allocator>(form: Form<A>) -> Result<CallValue<A>, LineError> {
    match form {
        Form::Unsigned(n) => Ok(CallValue::HistogramU64(n)),
        Form::UnsignedList(ns) => Ok(CallValue::HistogramVecU64(ns)),
        Form::Decimal(d) => Ok(CallValue::HistogramDecimal(d)),
        Form::DecimalList(ds) => Ok(CallValue::HistogramVecDecimal(ds)),
        Form::Duration(d) => Ok(CallValue::HistogramDuration(d)),
        Form::DurationList(ds) => Ok(CallValue::HistogramVecDuration(ds)),
        Form::Signed(_) => Err(LineError::Unusable(BadLine)),
    }
}

fn set_of<A: Allocator>(form: Form<A>) -> Result<CallValue<A>, LineError> {
    match form {
        Form::Signed(n) => Ok(CallValue::SetI64(n)),
        _ => Err(LineError::Unusable(BadLine)),
    }
}

fn distribution_of<A: Allocator>(form: Form<A>) -> Result<CallValue<A>, LineError> {
    match form {
        Form::Unsigned(n) => Ok(CallValue::DistributionU64(n)),
        Form::UnsignedList(ns) => Ok(CallValue::DistributionVecU64(ns)),
        Form::Decimal(d) => Ok(CallValue::DistributionDecimal(d)),
        Form::DecimalList(ds) => Ok(CallValue::DistributionVecDecimal(ds)),
        _ => Err(LineError::Unusable(BadLine)),
    }
}

// Returns the call's value. The error is `Unusable` if the kind doesn't accept values of this form.
fn value_of<A: Allocator>(kind: MetricType, form: Form<A>) -> Result<CallValue<A>, LineError> {
    match kind {
        MetricType::Counter => count_of(form),
        MetricType::Timer => time_of(form),
        MetricType::Gauge => gauge_of(form),
        MetricType::Meter => meter_of(form),
        MetricType::Histogram => histogram_of(form),
        MetricType::Set => set_of(form),
        MetricType::Distribution => distribution_of(form),
    }
}

// Reads a tag from its two words: the key and the text.
fn tag_of<A: Allocator + Clone>(
    alloc: &A,
    words: &mut Words<'_>,
) -> Result<CallOption<A>, LineError>
    ensures { bytes_left words.new ≤ bytes_left words.old }
{
    let key = text_of(alloc.clone()?, words.word()?)?;
    let text = text_of(alloc.clone()?, words.word()?)?;
    Ok(CallOption::Tag(key, text))
}

// Reads the words of the option with this name.
fn option_of<A: Allocator + Clone>(
    alloc: &A,
    name: &str,
    words: &mut Words<'_>,
) -> Result<CallOption<A>, LineError>
    ensures { bytes_left words.new ≤ bytes_left words.old }
{
    match name {
        "tag" => tag_of(alloc, words),
        "tagvalue" => Ok(CallOption::TagValue(text_of(alloc.clone()?, words.word()?)?)),
        "container" => Ok(CallOption::Container(text_of(alloc.clone()?, words.word()?)?)),
        "time" => Ok(CallOption::Time(number(words.word()?)?)),
        "rate" => Ok(CallOption::Rate(Item::read(words.word()?)?)),
        _ => Err(LineError::Unusable(BadLine)),
    }
}

/// Reads a call from its words: the kind, the key, the value and any options.
///
/// # Errors
/// `Unusable` if the words don't make a call, and `OutOfMemory`.
pub fn call_of<A: Allocator + Clone>(
    alloc: &A,
    words: &mut Words<'_>,
) -> Result<Call<A>, LineError> {
    let kind = kind_of(words.word()?)?;
    let key = text_of(alloc.clone()?, words.word()?)?;
    let value = value_of(kind, form_of(alloc.clone()?, words.word()?)?)?;
    let mut options = Vec::new(alloc.clone()?);
    while let Some(name) = words.next()? {
        options.push(option_of(alloc, name, words)?)?;
    }
    Ok(Call {
        key,
        value,
        options,
    })
}
