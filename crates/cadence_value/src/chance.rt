//! Chances, with which calls or lines are chosen at random.
ghost use Rattle.std.specs.Prelude.{◌≡◌, ◌↔◌, IfSome, IsSome, IsTrue};
ghost use Rattle.cadence_value.specs.Chances.{IsBelow, IsChance};

use crate::decimal::Decimal;
use std::marker::Model;

// The most decimal places of a chance.
const MOST_PLACES: u8 = 18;

/// A number above 0 and at most 1, which has at most 18 decimal places: the chance with which a call or a line is chosen.
/// The Rust crate has no such type. Contracts see it as this number. For example `Chance::new(Decimal::new(1, 1)?)` is
/// one time out of ten, and `is_above` says of a number drawn at random whether the call is chosen.
#[derive(Clone, Copy, Debug, PartialEq, Eq)]
pub struct Chance {
    number: Decimal,
}

impl Model for Chance {
    ghost use Rattle.cadence_value.specs.Chances.{IsChance};
    ghost use Rattle.cadence_value.specs.Number.{Number};

    ghost Value = { Number };

    ghost view = { λ c. c.number };

    ghost invariant = { λ c. IsChance c.number };

    ghost inverse = { λ n. record { number = n } };
}

impl Chance {
    /// Returns the chance that is this number. Returns `None` if the number is not above 0, if it is above 1, or if it has
    /// more than 18 decimal places.
    pub fn new(number: Decimal) -> Option<Chance>
        ensures some { IsSome result ↔ IsChance number }
        ensures number { IfSome result (λ chance. chance ≡ number) }
    {
        if number.places() > MOST_PLACES || number.mantissa() <= 0 {
            return None;
        }
        let scale = 10u64.pow(u32::from(number.places()));
        if number.mantissa().unsigned_abs() > u128::from(scale) {
            return None;
        }
        Some(Chance { number })
    }

    /// Returns the number that the chance is.
    pub fn number(self) -> Decimal
        ensures { result ≡ self }
    {
        self.number
    }

    /// Returns whether this number of 64 bits, divided by 2^64, is below the chance. That is so with this chance for a number
    /// drawn at random.
    pub fn is_above(self, draw: u64) -> bool
        ensures { IsTrue result ↔ IsBelow draw self }
    {
        let scale = 10u64.pow(u32::from(self.number.places()));
        let size = self.number.mantissa().unsigned_abs();
        u128::from(draw) * u128::from(scale) < size * (1 << 64)
    }
}
