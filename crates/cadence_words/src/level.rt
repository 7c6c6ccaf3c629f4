//! Writes the text that sets a gauge to a number, also to one below 0.
ghost use Rattle.cadence_words.specs.Finds.{FindsOrFails};
ghost use Rattle.cadence_words.specs.Levels.{level_text, zero_first};
ghost use Rattle.cadence_words.specs.Lines.{IsTextOf};
ghost use Rattle.cadence_words.specs.TagWords.{tag_words};

use crate::defaults::Defaults;
use crate::draft::write_value;
use crate::tags::Tags;
use crate::text::Value;
use crate::value::single_value;
use crate::word_error::WordError;
use cadence_text::line::MetricType;
use cadence_value::decimal::Decimal;
use cadence_value::value::MetricValue;
use std::alloc::Allocator;
use std::mem;

// Writes the line that sets a metric to 0, a newline, and the line of a number into a buffer, in place of its text. Both
// lines have the tags. After an error the buffer is empty.
fn write_zero_first<A: Allocator + Clone>(
    alloc: &A,
    defaults: &Defaults<A>,
    buffer: &mut Vec<u8, A>,
    kind: MetricType,
    name: &str,
    number: Decimal,
    tags: Tags<'_>,
) -> Result<(), WordError>
    ensures { FindsOrFails (IsTextOf defaults.now (zero_first number) kind name.now
        (tag_words tags.entry)) (λ _. buffer.new.items) result }
{
    let mut text = mem::replace(buffer, Vec::new(alloc.clone()?));
    let zero = Value::Numbers(kind, MetricValue::Unsigned(0));
    write_value(alloc, defaults, &mut text, name, zero, tags)?;
    text.push(b'\n')?;
    let mut line = Vec::new(alloc.clone()?);
    let value = Value::Numbers(kind, single_value(number));
    write_value(alloc, defaults, &mut line, name, value, tags)?;
    text.extend_from_slice(&line)?;
    *buffer = text;
    Ok(())
}

// Writes the text that sets a metric with a name and tags to a number into a buffer, in place of its text.
pub(crate) fn write_level<A: Allocator + Clone>(
    alloc: &A,
    defaults: &Defaults<A>,
    buffer: &mut Vec<u8, A>,
    kind: MetricType,
    name: &str,
    number: Decimal,
    tags: Tags<'_>,
) -> Result<(), WordError>
    ensures { FindsOrFails (IsTextOf defaults.now (level_text number) kind name.now
        (tag_words tags.entry)) (λ _. buffer.new.items) result }
{
    if number.mantissa() < 0 {
        return write_zero_first(alloc, defaults, buffer, kind, name, number, tags);
    }
    let value = Value::Numbers(kind, single_value(number));
    write_value(alloc, defaults, buffer, name, value, tags)
}
