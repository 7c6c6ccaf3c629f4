//! The decimal of a float, rounded to six places: nanoseconds, if the float counts milliseconds.
ghost use Rattle.std.specs.Prelude.{◌≡◌, IfNone, IfSome, IsSome};
ghost use Rattle.cadence_value.specs.Number.{Number, natural};
ghost use Rattle.cadence_float.specs.Worth.{IsRounded, IsSmall, IsTooLarge, StandsForFloat};

use crate::float::{decimal_of_float, zero};
use crate::parts::{nearest, with_sign};
use cadence_value::decimal::{Decimal, power_of_ten};

const MOST_PLACES: u8 = 6;

// A float that is nearer to 0 is rounded to 0.
const SMALLEST: f64 = 1e-7;

/// Returns the decimal of a float, rounded to six places; a number in the middle of two is rounded away from 0. A float
/// that is nearer to 0 than 10 to the power of -7 is 0. Returns `None` as `decimal_of_float` does.
pub fn rounded_decimal_of_float(x: f64) -> Option<Decimal>
    ensures small { IsSmall x → IfSome result (λ n. n ≡ natural 0) }
    ensures rounds { (IsSmall x → ⊥) →
        IfSome result (λ n. (d : Number) × StandsForFloat d x × IsRounded d n) }
    ensures none { IfNone result (IsTooLarge x) }
{
    if x.abs() < SMALLEST {
        return zero();
    }
    rounded(decimal_of_float(x)?)
}

// Returns a decimal rounded to six places.
fn rounded(decimal: Decimal) -> Option<Decimal>
    ensures rounds { IfSome result (IsRounded decimal) }
    ensures some { IsSome result }
{
    if decimal.places() <= MOST_PLACES {
        return Some(decimal);
    }
    let unit = power_of_ten(decimal.places() - MOST_PLACES);
    let size = nearest(decimal.mantissa().unsigned_abs(), unit);
    Decimal::new(with_sign(decimal.mantissa() < 0, size), MOST_PLACES).ok()
}
