//! The decimal of a float. A candidate counts only if it is read as the float. Without one the decimal is made of the
//! shortest text of the float, which `ryu` prints.
ghost use Rattle.std.specs.Prelude.{◌≡◌, ◌⊎◌, ◌*◌, ◌^◌, IfNone, IfSome, IsSome, IsTrue, Some};
ghost use Rattle.std.specs.Float.{binary64, float_zero, NotNan};
ghost use Rattle.std.specs.Float.Ieee.{round};
ghost use lib.Ieee.{eq};
ghost use Rattle.fast_float.specs.Parse.{parse_float};
ghost use Rattle.cadence_value.specs.Number.{natural, number_text};
ghost use Rattle.cadence_float.specs.Worth.{IsCutOf, IsTooLarge, StandsForFloat};

use crate::candidate::{multiplied, shortest};
use crate::parts::decimal_over;
use crate::text::decimal_of_text;
use cadence_value::decimal::Decimal;
use core::dec2flt::from_decimal;

/// Returns the decimal of a float: the shortest one whose text is read as this float, or if that has more than 30
/// places, this one rounded to 30 places. A zero of either sign is 0. Returns `None` if the float is NaN, infinite, or
/// more than 2 to the power of 127 away from 0.
// It is an `Option`, because a function that returns a `MetricResult` copies all its bytes, even on success.
pub fn decimal_of_float(x: f64) -> Option<Decimal>
    ensures number { IfSome result (λ n. StandsForFloat n x) }
    ensures zero { IsTrue (eq x float_zero) → IfSome result (λ n. n ≡ natural 0) }
    ensures none { IfNone result (IsTooLarge x) }
{
    if x == 0.0 {
        return zero();
    }
    found_decimal(x)
}

/// Returns 0.
pub(crate) fn zero() -> Option<Decimal>
    ensures zero { IfSome result (λ n. n ≡ natural 0) }
    ensures some { IsSome result }
{
    Decimal::new(0, 0).ok()
}

// Returns the decimal of a float that is not 0: that of a candidate which is read as this float, and otherwise that of the
// float's shortest text.
fn found_decimal(x: f64) -> Option<Decimal>
    ensures number { IfSome result (λ n.
        (parse_float binary64 (number_text n) ≡ Some x) ⊎ IsCutOf n x) }
    ensures none { IfNone result (IsTooLarge x) }
{
    if let Some(decimal) = candidate_decimal(x) {
        return Some(decimal);
    }
    decimal_of_text(x)
}

// Returns the decimal of a candidate that is read as the float, if there is one.
#[inline(always)]
fn candidate_decimal(x: f64) -> Option<Decimal>
    ensures { IfSome result (λ n. parse_float binary64 (number_text n) ≡ Some x) }
{
    if !x.is_finite() {
        return None;
    }
    if let Some(decimal) = multiplied_decimal(x, 1e2, 2) {
        return Some(decimal);
    }
    if let Some(decimal) = multiplied_decimal(x, 1e6, 6) {
        return Some(decimal);
    }
    let (digits, places) = shortest(x)?;
    read_decimal(x, digits, places)
}

// Returns the decimal with this many places, before its zeros at the end are cut, if a multiplication by `scale` finds one
// that is read as the float.
#[inline(always)]
fn multiplied_decimal(x: f64, scale: f64, places: u8) -> Option<Decimal>
    requires { NotNan x }
    ensures { IfSome result (λ n. parse_float binary64 (number_text n) ≡ Some x) }
{
    let digits = multiplied(x, scale)?;
    read_decimal(x, digits, places)
}

// Returns the float as which the decimal of a sign, digits and places is read.
#[inline(always)]
fn read_back(negative: bool, digits: u64, places: u8) -> f64
    ensures value { result ≡ round binary64 negative (digits * 10 ^ 0) (10 ^ places) }
    ensures number { NotNan result }
{
    let size: f64 = from_decimal(digits, 0, u64::from(places));
    if negative { -size } else { size }
}

// Returns the decimal of these digits and places with the sign of the float, if it is read as this float.
#[inline(always)]
fn read_decimal(x: f64, digits: u64, places: u8) -> Option<Decimal>
    requires { NotNan x }
    ensures { IfSome result (λ n. parse_float binary64 (number_text n) ≡ Some x) }
{
    let negative = x.is_sign_negative();
    let back = read_back(negative, digits, places);
    if back.to_bits() != x.to_bits() {
        return None;
    }
    decimal_over(negative, digits, places)
}
