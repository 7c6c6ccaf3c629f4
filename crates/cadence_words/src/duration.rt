//! Reads durations: a number and a unit, as in `1.25s`.
ghost use Rattle.std.specs.Prelude.{◌≡◌, ◌≤◌, ◌<◌, ◌^◌, ◌++◌, All, IfNone, IfSome, slice_index};
ghost use Rattle.cadence_words.specs.Duration.{CountsNanos, IsDurationWord, IsNanos, IsTimeWord, unit_tens, unit_text};
ghost use Rattle.cadence_text.specs.declared.line.MetricType.TheVariants.{Histogram, Timer};
ghost use Rattle.cadence_value.specs.Finds.{Finds};

use crate::decimal::read_bytes;
use cadence_text::line::MetricType;
use cadence_value::decimal::{Decimal, power_of_ten};

// A unit of time.
#[derive(Clone, Copy)]
pub(crate) enum Unit {
    Second,
    Milli,
    Micro,
    Nano,
}

impl Unit {
    // Returns the number `n` for which the unit is 10 to the power of `n` nanoseconds.
    fn tens(self) -> u8
        ensures value { result ≡ unit_tens self }
        ensures most { result ≤ 9 }
    {
        match self {
            Unit::Second => 9,
            Unit::Milli => 6,
            Unit::Micro => 3,
            Unit::Nano => 0,
        }
    }
}

// Returns the unit that a word names.
fn read_unit(word: &[u8]) -> Option<Unit>
    ensures { Finds (λ unit. unit_text unit ≡ word.now) result }
{
    match word {
        [b's'] => Some(Unit::Second),
        [b'm', b's'] => Some(Unit::Milli),
        [b'u', b's'] => Some(Unit::Micro),
        [b'n', b's'] => Some(Unit::Nano),
        _ => None,
    }
}

// Splits a word before the first byte that comes after the digits in ASCII, as all letters do.
fn split_unit(word: &[u8]) -> Option<(&[u8], &[u8])>
    ensures none { IfNone result (All (λ byte. byte ≤ 57) word.now) }
    ensures front { IfSome result (λ parts. All (λ byte. byte ≤ 57) parts.0.now) }
    ensures rest { IfSome result (λ parts. 57 < slice_index parts.1.now 0) }
    ensures whole { IfSome result (λ parts. word.now ≡ parts.0.now ++ parts.1.now) }
{
    let at = word.iter().position(|byte| *byte > b'9')?;
    Some((&word[..at], &word[at..]))
}

// Returns how many nanoseconds a number of units is. Returns `None` for a negative number, or if the number of
// nanoseconds is not whole or doesn't fit 128 bits.
fn nanos_of(number: Decimal, unit: Unit) -> Option<u128>
    ensures { Finds (λ nanos. IsNanos number unit nanos × (nanos < 2 ^ 128)) result }
{
    let (places, tens) = (number.places(), unit.tens());
    if places > tens {
        return None;
    }
    let size = u128::try_from(number.mantissa()).ok()?;
    size.checked_mul(power_of_ten(tens - places))
}

// Returns how many nanoseconds a word says.
fn read_nanos(word: &[u8]) -> Option<u128>
    ensures { Finds (λ nanos. IsTimeWord word.now nanos × (nanos < 2 ^ 128)) result }
{
    let (digits, unit) = split_unit(word)?;
    let unit = read_unit(unit)?;
    let number = read_bytes(digits)?;
    nanos_of(number, unit)
}

// The number of nanoseconds from which the whole milliseconds don't fit 64 bits.
const TOO_MANY_NANOS: u128 = (1 << 64) * 1_000_000;

// Returns the milliseconds of a number of nanoseconds, with what is less than one as digits after the dot. Returns
// `None` if the whole milliseconds don't fit 64 bits.
fn millis_of(nanos: u128) -> Option<Decimal>
    ensures { Finds (CountsNanos Timer nanos) result }
{
    if nanos >= TOO_MANY_NANOS {
        return None;
    }
    Decimal::new(nanos as i128, 6).ok()
}

// Returns a number of nanoseconds as a decimal, if it fits 64 bits.
fn whole_nanos(nanos: u128) -> Option<Decimal>
    ensures { Finds (CountsNanos Histogram nanos) result }
{
    let fits = u64::try_from(nanos).ok()?;
    Decimal::new(i128::from(fits), 0).ok()
}

// Returns the value of a duration for this kind of metric.
fn value_of(kind: MetricType, nanos: u128) -> Option<Decimal>
    ensures { Finds (CountsNanos kind nanos) result }
{
    match kind {
        MetricType::Timer => millis_of(nanos),
        MetricType::Histogram => whole_nanos(nanos),
        _ => None,
    }
}

/// Returns the value that the duration in a word has for this kind of metric: milliseconds for a timer, with what is
/// less than one as digits after the dot, and nanoseconds for a histogram. Takes no memory.
///
/// Returns `None` if the word is no duration, if the kind takes none, or if what is before the dot does not fit 64 bits.
pub fn read_duration(kind: MetricType, word: &[u8]) -> Option<Decimal>
    ensures { Finds (IsDurationWord kind word.now) result }
{
    let nanos = read_nanos(word)?;
    value_of(kind, nanos)
}
