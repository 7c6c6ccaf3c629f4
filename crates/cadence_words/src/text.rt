//! Reads the value of a metric: a text, which is a member of a set or a change of a gauge, or numbers.
ghost use Rattle.std.specs.Prelude.{◌≡◌};
ghost use Rattle.std.specs.Option.{option_map};
ghost use Rattle.cadence_text.specs.declared.line.MetricType.TheVariants.{Gauge, Set};
ghost use Rattle.cadence_value.specs.Finds.{Finds};
ghost use Rattle.cadence_words.specs.Asked.{IsValueOf, SaysChange, SaysMember, SaysText, begins_with, is_text_word};
ghost use Rattle.cadence_words.specs.Finds.{FindsOrFails};
ghost use Rattle.cadence_words.specs.Heads.{head_of, text_head};

use crate::value::read_numbers;
use crate::word_error::{Part, WordError};
use cadence_text::line::{MetricType, TextValue, is_member};
use cadence_value::spelled::read_spelled;
use cadence_value::value::MetricValue;
use std::alloc::Allocator;

// A value, with the kind of its metric. The kind of a text is that of the text.
#[derive(Drop)]
pub(crate) enum Value<'a, A: Allocator> {
    Numbers(MetricType, MetricValue<A>),
    Text(TextValue<'a>),
}

// Returns whether a word begins with this byte.
pub(crate) fn begins_with(mark: u8, word: &str) -> bool
    ensures { result ≡ begins_with mark word.now }
{
    match word.as_bytes().first() {
        Some(byte) => *byte == mark,
        None => false,
    }
}

// Returns whether the value that a word says for a kind is a text. A gauge without a plus is set to a number. A number
// below 0 needs no text, because the line of a change by it is that of the number.
fn is_text_word(kind: MetricType, word: &str) -> bool
    ensures { result ≡ is_text_word kind word.now }
{
    match kind {
        MetricType::Set => true,
        MetricType::Gauge => begins_with(b'+', word),
        _ => false,
    }
}

// Returns the member of a set that a word is.
fn read_member(word: &str) -> Option<TextValue<'_>>
    ensures { Finds (λ h. (h.0 ≡ Set) × SaysMember word.now h.1) (option_map text_head result) }
{
    if !is_member(word) {
        return None;
    }
    Some(TextValue::Member(word))
}

// Returns the change of a gauge by the number that a word says.
fn read_change(word: &str) -> Option<TextValue<'_>>
    ensures { Finds (λ h. (h.0 ≡ Gauge) × SaysChange word.now h.1) (option_map text_head result) }
{
    let number = read_spelled(word)?;
    Some(TextValue::Change(number))
}

// Returns the text that a word says as the value of this kind.
fn read_text(kind: MetricType, word: &str) -> Option<TextValue<'_>>
    ensures { Finds (λ h. (h.0 ≡ kind) × SaysText kind word.now h.1) (option_map text_head result) }
{
    match kind {
        MetricType::Set => read_member(word),
        MetricType::Gauge => read_change(word),
        _ => None,
    }
}

// Reads the value of a metric of this kind.
pub(crate) fn read_value<'a, A: Allocator + Clone>(
    alloc: &A,
    kind: MetricType,
    word: &'a str,
) -> Result<Value<'a, A>, WordError>
    ensures { FindsOrFails (λ h. (h.0 ≡ kind) × IsValueOf kind word.now h.1) head_of result }
{
    if is_text_word(kind, word) {
        return match read_text(kind, word) {
            Some(text) => Ok(Value::Text(text)),
            None => Err(WordError::Unusable(Part::Value(kind))),
        };
    }
    match read_numbers(alloc, kind, word) {
        Ok(numbers) => Ok(Value::Numbers(kind, numbers)),
        Err(error) => Err(error),
    }
}
