//! The decimal of a sign, digits and a power of ten.
ghost use Rattle.std.specs.Prelude.{◌≡◌, ◌≤◌, ◌<◌, ◌+◌, ◌*◌, ◌^◌, ◌⊎◌, IfNone, IfSome, IsSome};
ghost use Rattle.cadence_float.specs.Worth.{AreNearest, IsNearest, IsNumberOfDigits, HasSignAndSize, IsUnfit, IsWorthOf, signed_of};

use cadence_value::decimal::{Decimal, power_of_ten};

// How many places a decimal has at most.
const MOST_PLACES: u128 = 30;

// Ten to the power of this fits 127 bits.
const MOST_ZEROS: u128 = 38;

// Returns the signed number of this size. `None` for a negative zero, or if the number does not fit 128 bits.
fn signed(negative: bool, size: u128) -> Option<i128>
    ensures signed { IfSome result (HasSignAndSize negative size) }
    ensures none { IfNone result ((size ≡ 0) ⊎ (2 ^ 127 ≤ size)) }
{
    if !negative {
        return i128::try_from(size).ok();
    }
    if size == 0 {
        return None;
    }
    0i128.checked_sub_unsigned(size)
}

/// Returns the decimal of a sign and digits over 10 to the power of `places`, which is at most 30, if it has one.
#[inline(always)]
pub fn decimal_over(negative: bool, digits: u64, places: u8) -> Option<Decimal>
    ensures { IfSome result (IsWorthOf negative digits 0 places) }
{
    let mantissa = signed(negative, u128::from(digits))?;
    Decimal::new(mantissa, places).ok()
}

/// Returns how many units are nearest to a size.
pub fn nearest(size: u128, unit: u128) -> u128
    requires some { 3 ≤ unit }
    requires fits { size + unit < 2 ^ 128 }
    ensures above { 2 * (result * unit) ≤ 2 * size + unit }
    ensures below { 2 * size ≤ 2 * (result * unit) + unit }
    ensures few { 2 * result ≤ size + 1 }
{
    (size + unit / 2) / unit
}

/// Returns the signed number of this size.
pub fn with_sign(negative: bool, size: u128) -> i128
    requires { size < 2 ^ 127 }
    ensures { result ≡ signed_of negative size }
{
    let size = size as i128;
    if negative { -size } else { size }
}

// Returns how many multiples of 10 to the power of `zeros` are nearest to the digits.
fn rounded_digits(digits: u128, zeros: u128) -> u128
    requires digits { digits < 10 ^ 25 }
    requires some { 0 < zeros }
    ensures nearest { AreNearest digits zeros result }
    ensures few { result < 2 ^ 127 }
{
    // more zeros than digits leave nothing
    if zeros > 30 {
        return 0;
    }
    nearest(digits, power_of_ten(zeros as u8))
}

// Returns the decimal of a sign and digits over 10 to the power of more than 30 places, rounded to 30 places.
fn rounded_parts(negative: bool, digits: u128, zeros: u128) -> Option<Decimal>
    requires digits { digits < 10 ^ 25 }
    requires some { 0 < zeros }
    ensures number { IfSome result (IsNearest negative digits zeros 30) }
    ensures some { IsSome result }
{
    let size = rounded_digits(digits, zeros);
    Decimal::new(with_sign(negative, size), MOST_PLACES as u8).ok()
}

/// Returns the decimal of a sign, digits and a power of ten, rounded to 30 places if it has more. `None` if the digits
/// are 0 or the decimal is too large.
pub fn of_parts(negative: bool, digits: u128, up: u128, down: u128) -> Option<Decimal>
    requires { digits < 10 ^ 25 }
    ensures number { IfSome result (IsNumberOfDigits negative digits up down) }
    ensures none { IfNone result (IsUnfit digits up down) }
{
    if down <= up {
        return whole_of_parts(negative, digits, up, down);
    }
    let places = down - up;
    if places > MOST_PLACES {
        return rounded_parts(negative, digits, places - MOST_PLACES);
    }
    let mantissa = signed(negative, digits)?;
    Decimal::new(mantissa, places as u8).ok()
}

// Returns the decimal of a sign, digits and a power of ten that is whole.
fn whole_of_parts(negative: bool, digits: u128, up: u128, down: u128) -> Option<Decimal>
    requires { down ≤ up }
    ensures number { IfSome result (IsWorthOf negative digits up down) }
    ensures none { IfNone result (IsUnfit digits up down) }
{
    let zeros = up - down;
    if zeros > MOST_ZEROS {
        return None;
    }
    let size = digits.checked_mul(10u128.pow(zeros as u32))?;
    let mantissa = signed(negative, size)?;
    Decimal::new(mantissa, 0).ok()
}
