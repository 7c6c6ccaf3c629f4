//! Reads the numbers of a value.
ghost use Rattle.std.specs.Prelude.{◌≡◌, ◌↔◌, ◌≢◌, ◌∷◌, [], All, IsTrue, map};
ghost use Rattle.std.specs.List.{AllZip};
ghost use Rattle.cadence_words.specs.Asked.{AllowsNumber, AllowsSeveral, IsNumberWord, IsPlainWord, IsValueWord};
ghost use Rattle.cadence_words.specs.Finds.{FindsOrFails};
ghost use Rattle.cadence_value.specs.Finds.{Finds};
ghost use Rattle.cadence_value.specs.Values.{numbers_of};

use crate::read_duration;
use crate::word_error::{Part, WordError};
use crate::words::split_items;
use cadence_text::line::MetricType;
use cadence_value::decimal::Decimal;
use cadence_value::spelled::read_spelled;
use cadence_value::value::MetricValue;
use std::alloc::Allocator;

// Returns whether a metric of this kind can have this number as its value.
fn allows_number(kind: MetricType, number: Decimal) -> bool
    ensures { IsTrue result ↔ AllowsNumber kind number }
{
    let is_whole = number.places() == 0;
    let is_signed = is_whole && i64::try_from(number.mantissa()).is_ok();
    let is_unsigned = is_whole && u64::try_from(number.mantissa()).is_ok();
    match kind {
        MetricType::Counter => is_signed || is_unsigned,
        MetricType::Timer => number.mantissa() >= 0,
        MetricType::Meter => is_unsigned,
        MetricType::Set => false,
        MetricType::Gauge | MetricType::Histogram | MetricType::Distribution => true,
    }
}

// Returns whether a metric of this kind can have several values in one line.
fn allows_several(kind: MetricType) -> bool
    ensures { IsTrue result ↔ AllowsSeveral kind }
{
    match kind {
        MetricType::Timer | MetricType::Histogram | MetricType::Distribution => true,
        MetricType::Counter | MetricType::Gauge | MetricType::Meter | MetricType::Set => false,
    }
}

// Returns the number that a word says, if this kind of metric allows it.
fn read_plain(kind: MetricType, word: &str) -> Option<Decimal>
    ensures { Finds (IsPlainWord kind word.now) result }
{
    let number = read_spelled(word)?;
    if !allows_number(kind, number) {
        return None;
    }
    Some(number)
}

// Returns the number that a word says, or the value of the duration that it says, for this kind of metric.
fn read_item(kind: MetricType, word: &str) -> Option<Decimal>
    ensures { Finds (IsNumberWord kind word.now) result }
{
    match read_plain(kind, word) {
        Some(number) => Some(number),
        None => read_duration(kind, word.as_bytes()),
    }
}

// Reads each of the words as a number or a duration.
fn read_items<A: Allocator>(
    alloc: A,
    kind: MetricType,
    words: &[&str],
) -> Result<Vec<Decimal, A>, WordError>
    ensures { FindsOrFails (AllZip (IsNumberWord kind) (map (λ w. w.now) words.now))
        (λ numbers. numbers.items) result }
{
    let mut numbers = Vec::with_capacity(alloc, words.len())?;
    for word in words {
        let Some(number) = read_item(kind, word) else {
            return Err(WordError::Unusable(Part::Value(kind)));
        };
        numbers.push(number)?;
    }
    Ok(numbers)
}

// Returns whether the word has no comma.
fn is_single(word: &str) -> bool
    ensures { IsTrue result ↔ All (λ byte. byte ≢ 44) word.now }
{
    word.as_bytes().iter().all(|byte| *byte != b',')
}

// Returns a value of one number. A whole number that fits 64 bits is signed, because those print fastest.
pub(crate) fn single_value<A: Allocator>(number: Decimal) -> MetricValue<A>
    ensures { numbers_of result ≡ number ∷ [] }
{
    if number.places() > 0 {
        return MetricValue::Decimal(number);
    }
    match i64::try_from(number.mantissa()) {
        Ok(small) => MetricValue::Signed(small),
        Err(_) => MetricValue::Decimal(number),
    }
}

// Reads the numbers of a metric of this kind: one number or duration, or several with a comma between each two.
pub(crate) fn read_numbers<A: Allocator + Clone>(
    alloc: &A,
    kind: MetricType,
    word: &str,
) -> Result<MetricValue<A>, WordError>
    ensures { FindsOrFails (IsValueWord kind word.now) numbers_of result }
{
    if is_single(word) {
        return match read_item(kind, word) {
            Some(number) => Ok(single_value(number)),
            None => Err(WordError::Unusable(Part::Value(kind))),
        };
    }
    let items = split_items(alloc.clone()?, word)?;
    if items.len() != 1 && !allows_several(kind) {
        return Err(WordError::Unusable(Part::Value(kind)));
    }
    let numbers = read_items(alloc.clone()?, kind, &items)?;
    Ok(MetricValue::PackedDecimal(numbers))
}
