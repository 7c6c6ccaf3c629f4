//! Exact decimal numbers, for values and sampling rates with digits after the dot.
ghost use Rattle.std.specs.Prelude.{◌≡◌, ◌^◌, ◌≤◌, ◌↔◌, ◌<◌, true, IsOk, IfOk, IfErr, codes};
ghost use Rattle.cadence_errors.specs.Errors.{IsDescribed};
ghost use Rattle.cadence_errors.specs.declared.ErrorKind.TheVariants.{InvalidInput};
ghost use Rattle.cadence_value.specs.Number.{IsLowestForm, Number, is_lowest, number, IsDecimal};

use cadence_errors::{ErrorKind, MetricError, MetricResult};
use std::marker::Model;

mod read;

pub use read::{ParseDecimalError, read_digits, read_number, read_whole, signed_number};

/// The most digits that a `Decimal` can have after the dot.
pub const MAX_PLACES: u8 = 30;

/// An exact decimal number: a signed whole number of 128 bits, the mantissa, divided by a power of ten from 10 to the 0
/// to 10 to the `MAX_PLACES`. It takes the place of the Rust crate's `f64`, and prints exactly.
///
/// ```
/// let rate = Decimal::new(25, 2)?; // 0.25
/// let half = Decimal::new(50, 2)?; // prints as 0.5
/// let read: Decimal = "-12.40".parse()?; // prints as -12.4
/// ```
///
/// A `Decimal` is stored in lowest form: it has no digits after the dot, or the last of them is not 0. Two decimals are
/// equal exactly if they are the same number.
#[derive(Clone, Copy, Debug, PartialEq, Eq, Hash)]
pub struct Decimal {
    mantissa: i128,
    places: u8,
}

impl Model for Decimal {
    ghost Value = { Number };

    ghost view = { λ d. number d.mantissa d.places };

    ghost invariant = { λ d. (d.places ≤ 30) × (is_lowest d.mantissa d.places ≡ true) };

    ghost inverse = { λ n. record { mantissa = n.mantissa; places = n.places } };
}

impl Decimal {
    /// Returns `mantissa` divided by 10 to the power of `places`, in lowest form. Takes no memory.
    ///
    /// Returns an error of kind `InvalidInput` with the text `too many decimal places` if `places` is above
    /// `MAX_PLACES`.
    pub fn new(mantissa: i128, places: u8) -> MetricResult<Decimal>
        ensures ok { IsOk result ↔ (places ≤ 30) }
        ensures value { IfOk result (IsLowestForm mantissa places) }
        ensures refused { IfErr result
            (IsDescribed InvalidInput (codes "too many decimal places")) }
    {
        if places > MAX_PLACES {
            return Err(MetricError::from((ErrorKind::InvalidInput, "too many decimal places")));
        }
        let (mut mantissa, mut places) = (mantissa, places);
        while places > 0 && mantissa % 10 == 0 {
            mantissa /= 10;
            places -= 1;
        }
        Ok(Decimal { mantissa, places })
    }

    /// Returns the mantissa of the lowest form: 5 for 0.5, even if the number was made as 50 with two places.
    pub fn mantissa(&self) -> i128
        ensures value { result ≡ self.now.mantissa }
        ensures whole { IsDecimal self.now }
    {
        self.mantissa
    }

    /// Returns how many digits the lowest form has after the dot: 1 for 0.5. It is at most `MAX_PLACES`.
    pub fn places(&self) -> u8
        ensures value { result ≡ self.now.places }
        ensures most { result ≤ 30 }
    {
        self.places
    }
}

/// Returns ten to the power of `places`.
pub fn power_of_ten(places: u8) -> u128
    requires { places ≤ 30 }
    ensures value { result ≡ 10 ^ places }
    ensures positive { 0 < result }
{
    10u128.pow(u32::from(places))
}
