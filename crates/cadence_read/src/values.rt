//! Reads the values of a metric's line, whose numbers may have any spelling.
ghost use Rattle.std.specs.Prelude.{◌≡◌, ◌↔◌, ℤ, IfNone, IfSome, IsTrue, FitsSigned};
ghost use mir.Syntax.{w64};
ghost use Rattle.cadence_value.specs.Number.{whole};
ghost use Rattle.cadence_value.specs.SpelledNumber.{SaysNumber};
ghost use Rattle.cadence_read.specs.Values.{AreNumbers, IsNumberText};

use cadence_value::bytes::split_text_once;
use cadence_value::decimal::Decimal;
use cadence_value::spelled::read_spelled;

/// Returns whether a text is a number, in any spelling.
pub fn is_number(text: &str) -> bool
    ensures { IsTrue result ↔ IsNumberText text.now }
{
    read_spelled(text).is_some()
}

/// Returns whether each of the values, which have a colon between each two, is a number, in any spelling.
pub fn are_numbers(values: &str) -> bool
    ensures { IsTrue result ↔ AreNumbers values.now }
{
    let mut left = values;
    while let Some((value, others)) = split_text_once(left, b':') {
        if !is_number(value) {
            return false;
        }
        left = others;
    }
    is_number(left)
}

// Returns the whole number that a decimal is, if it fits 64 bits.
fn whole_of(number: Decimal) -> Option<i64>
    ensures some { IfSome result (λ n. number ≡ whole n) }
    ensures none { IfNone result ((n : ℤ) → FitsSigned w64 n → number ≡ whole n → ⊥) }
{
    if number.places() != 0 {
        return None;
    }
    i64::try_from(number.mantissa()).ok()
}

/// Returns the whole number that a text says, in any spelling, if it fits 64 bits.
pub fn whole_number(text: &str) -> Option<i64>
    ensures some { IfSome result (λ n. SaysNumber text.now (whole n)) }
    ensures none { IfNone result ((n : ℤ) → FitsSigned w64 n →
        SaysNumber text.now (whole n) → ⊥) }
{
    match read_spelled(text) {
        Some(number) => whole_of(number),
        None => None,
    }
}
