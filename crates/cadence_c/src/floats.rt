//! The decimals of floats, for a host whose numbers are floats, and which calls of a sample are chosen. The calls need no
//! client, and threads may make them at the same time.
ghost use Rattle.std.specs.Prelude.{◌≡◌, ◌≢◌, ◌⊎◌, ◌↔◌, [], ◌∷◌, IsTrue};
ghost use Rattle.cadence_value.specs.Chances.{IsBelow, IsChance};
ghost use Rattle.cadence_value.specs.Number.{Number};
ghost use Rattle.cadence_float.specs.Worth.{IsTooLarge, StandsForFloat};
ghost use Rattle.cadence_host.specs.Calls.{IsMillisOf, IsNoChance, IsNumberOf, PassesDecimal};
ghost use Rattle.cadence_host.specs.Status.{CADENCE_INVALID, CADENCE_OK, IsOkOr};

use cadence_float::{decimal_of_float, rounded_decimal_of_float};
use cadence_host::call::{CDecimal, decimal_of};
use cadence_host::status::{OK, StatusError};
use cadence_value::chance::Chance;
use cadence_value::decimal::Decimal;
use std::alloc::Global;

// Stores a decimal in a struct of C. The status is that of `Invalid` if its mantissa doesn't fit 64 bits.
fn store(decimal: Decimal, number: &mut CDecimal) -> u32
    ensures stored { result ≡ CADENCE_OK → IsNumberOf number.new decimal }
    ensures kept { result ≢ CADENCE_OK → number.new ≡ number.old }
    ensures invalid { result ≡ CADENCE_INVALID → PassesDecimal decimal }
    ensures statuses { IsOkOr (CADENCE_INVALID ∷ []) result }
{
    let Ok(mantissa) = i64::try_from(decimal.mantissa()) else {
        return StatusError::Invalid.code();
    };
    *number = CDecimal {
        mantissa,
        places: decimal.places(),
    };
    OK
}

/// Stores the decimal of a float, for a host that needs the number itself, as for a sampling rate. The status is that of
/// `Invalid` if the float has no decimal, or if the mantissa of its decimal doesn't fit 64 bits.
#[unsafe(no_mangle)]
pub extern "C" fn cadence_decimal_of_double(
    _alloc: Global,
    value: f64,
    number: &mut CDecimal,
) -> u32
    ensures number { result ≡ CADENCE_OK →
        (n : Number) × IsNumberOf number.new n × StandsForFloat n value }
    ensures kept { result ≢ CADENCE_OK → number.new ≡ number.old }
    ensures invalid { result ≡ CADENCE_INVALID →
        IsTooLarge value ⊎ ((n : Number) × StandsForFloat n value × PassesDecimal n) }
    ensures statuses { IsOkOr (CADENCE_INVALID ∷ []) result }
{
    match decimal_of_float(value) {
        Some(decimal) => store(decimal, number),
        None => StatusError::Invalid.code(),
    }
}

/// Stores the decimal of a float, rounded to six places. A float nearer to 0 than 10 to the power of -7 is 0.
#[unsafe(no_mangle)]
pub extern "C" fn cadence_rounded_of_double(
    _alloc: Global,
    value: f64,
    number: &mut CDecimal,
) -> u32
    ensures number { result ≡ CADENCE_OK →
        (n : Number) × IsNumberOf number.new n × IsMillisOf value n }
    ensures kept { result ≢ CADENCE_OK → number.new ≡ number.old }
    ensures invalid { result ≡ CADENCE_INVALID →
        IsTooLarge value ⊎ ((n : Number) × IsMillisOf value n × PassesDecimal n) }
    ensures statuses { IsOkOr (CADENCE_INVALID ∷ []) result }
{
    match rounded_decimal_of_float(value) {
        Some(decimal) => store(decimal, number),
        None => StatusError::Invalid.code(),
    }
}

/// Stores whether a call of a sample is chosen: with this chance, if `draw` is a random number of 64 bits. The status is that
/// of `Invalid` if the number is no chance: it is above 0 and at most 1, and has at most 18 places.
#[unsafe(no_mangle)]
pub extern "C" fn cadence_chooses(
    _alloc: Global,
    chance: &CDecimal,
    draw: u64,
    chosen: &mut bool,
) -> u32
    ensures chosen { result ≡ CADENCE_OK → (n : Number) × IsNumberOf chance.now n × IsChance n
        × (IsTrue chosen.new ↔ IsBelow draw n) }
    ensures kept { result ≢ CADENCE_OK → chosen.new ≡ chosen.old }
    ensures invalid { result ≡ CADENCE_INVALID → IsNoChance chance.now }
    ensures statuses { IsOkOr (CADENCE_INVALID ∷ []) result }
{
    let Ok(number) = decimal_of(*chance) else {
        return StatusError::Invalid.code();
    };
    let Some(chance) = Chance::new(number) else {
        return StatusError::Invalid.code();
    };
    *chosen = chance.is_above(draw);
    OK
}
