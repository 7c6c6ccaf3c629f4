//! Reads what a word says about a metric: its value or, after `=`, the number to which a gauge is set.
ghost use Rattle.std.specs.Prelude.{◌≡◌};
ghost use Rattle.cadence_value.specs.Finds.{Finds};
ghost use Rattle.cadence_words.specs.Asked.{IsSaidOf, SaysLevel, is_level_word};
ghost use Rattle.cadence_words.specs.Finds.{FindsOrFails};
ghost use Rattle.cadence_words.specs.Heads.{said_of};

use crate::text::{Value, begins_with, read_value};
use crate::word_error::{Part, WordError};
use cadence_text::line::MetricType;
use cadence_value::bytes::split_text_once;
use cadence_value::decimal::Decimal;
use cadence_value::spelled::read_spelled;
use std::alloc::Allocator;

// What a word says about a metric.
#[derive(Drop)]
pub(crate) enum Given<'a, A: Allocator> {
    // A value, which is sent as it is.
    Value(Value<'a, A>),
    // A number to which a metric of this kind, which is a gauge, is set, also if it is below 0.
    Level(MetricType, Decimal),
}

// Returns whether a word sets a metric of this kind to a number.
fn is_level_word(kind: MetricType, word: &str) -> bool
    ensures { result ≡ is_level_word kind word.now }
{
    match kind {
        MetricType::Gauge => begins_with(b'=', word),
        _ => false,
    }
}

// Returns the number that a word says after `=`.
fn read_level(word: &str) -> Option<Decimal>
    ensures { Finds (SaysLevel word.now) result }
{
    let (front, number) = split_text_once(word, b'=')?;
    if !front.is_empty() {
        return None;
    }
    read_spelled(number)
}

// Reads what a word says about a metric of this kind.
pub(crate) fn read_given<'a, A: Allocator + Clone>(
    alloc: &A,
    kind: MetricType,
    word: &'a str,
) -> Result<Given<'a, A>, WordError>
    ensures { FindsOrFails (λ h. (h.0 ≡ kind) × IsSaidOf kind word.now h.1) said_of result }
{
    if is_level_word(kind, word) {
        return match read_level(word) {
            Some(number) => Ok(Given::Level(kind, number)),
            None => Err(WordError::Unusable(Part::Value(kind))),
        };
    }
    match read_value(alloc, kind, word) {
        Ok(value) => Ok(Given::Value(value)),
        Err(error) => Err(error),
    }
}
