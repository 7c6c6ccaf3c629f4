//! The decimal of the shortest text of a float, which `ryu` prints.
ghost use Rattle.std.specs.Prelude.{[], false, if◌then◌else◌, codes, slice_index, ◌≡◌, ◌≢◌, ◌++◌, ◌+◌, ◌*◌, ◌^◌, ◌≤◌, ◌<◌, ◌⊎◌, Some, IfNone, IfSome, length};
ghost use Rattle.std.specs.Float.{binary64};
ghost use Rattle.std.specs.Str.Parse.{AllDigits, digits_value};
ghost use Rattle.cadence_float.specs.Worth.{IsCutOf, IsTooLarge};
ghost use Rattle.fast_float.specs.Parse.{parse_float};
ghost use Rattle.cadence_value.specs.Number.{number_text};

use crate::parts::of_parts;
use cadence_value::decimal::Decimal;
use fast_float::Numeral;

/// Returns the decimal of the shortest text of a float. `None` if the float is NaN or infinite, or if that decimal is too
/// large.
#[inline(never)]
pub fn decimal_of_text(x: f64) -> Option<Decimal>
    ensures number { IfSome result (λ n.
        (parse_float binary64 (number_text n) ≡ Some x) ⊎ IsCutOf n x) }
    ensures none { IfNone result (IsTooLarge x) }
{
    if !x.is_finite() {
        return None;
    }
    let mut bytes = [0u8; ryu::raw::LEN];
    let len = ryu::raw::format(x, &mut bytes);
    let (negative, size) = split_sign(&bytes[..len]);
    let numeral = Numeral::scan(size);
    let fraction = numeral.fraction();
    let front = value_of(numeral.whole(), 0);
    let digits = value_of(fraction, front);
    let exponent = value_of(numeral.exponent(), 0);
    let (up, down) = powers(numeral.is_exponent_negative(), exponent, fraction.len());
    of_parts(negative, digits, up, down)
}

// Returns the powers of ten by which digits with an exponent and places are multiplied and divided.
fn powers(negative: bool, exponent: u128, places: usize) -> (u128, u128)
    requires { exponent < 10 ^ 25 }
    ensures up { result.0 ≡ (if negative then 0 else exponent) }
    ensures down { result.1 ≡ places + (if negative then exponent else 0) }
{
    let places = places as u128;
    if negative {
        return (0, places + exponent);
    }
    (exponent, places)
}

// Returns whether the text begins with a minus, and the text without that minus.
fn split_sign(text: &[u8]) -> (bool, &[u8])
    ensures whole { text.now ≡ (if result.0 then codes "-" else []) ++ result.1.now }
    ensures first { result.0 ≡ false → slice_index text.now 0 ≢ 45 }
{
    match text.strip_prefix(b"-") {
        Some(unsigned) => (true, unsigned),
        None => (false, text),
    }
}

// Returns the number that the digits make after those of `so_far`.
fn value_of(digits: &[u8], so_far: u128) -> u128
    requires digits { AllDigits 10 digits.now }
    requires few { (so_far + 1) * 10 ^ length digits.now ≤ 10 ^ 25 }
    ensures value { result ≡ so_far * 10 ^ length digits.now + digits_value 10 digits.now }
    ensures bound { result < (so_far + 1) * 10 ^ length digits.now }
{
    let mut value = so_far;
    for byte in digits {
        value = value * 10 + u128::from(*byte - b'0');
    }
    value
}
