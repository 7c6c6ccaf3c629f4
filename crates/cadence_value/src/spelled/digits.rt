//! The digits of a number, and the number that they and an exponent make.
ghost use Rattle.std.specs.Prelude.{◌≡◌, ◌+◌, ◌-◌, ◌*◌, ◌%◌, ◌^◌, ◌++◌};
ghost use Rattle.cadence_value.specs.SpelledNumber.{IsDecimalOfDigits};
ghost use Rattle.cadence_value.specs.Trimmed.{IsTrimmed};
ghost use Rattle.cadence_value.specs.Digits.{signed_integer};
ghost use Rattle.cadence_value.specs.Finds.{Finds};
ghost use Rattle.cadence_value.specs.Number.{IsDecimal, IsLowestForm};

use super::parts::shifts_of;
use crate::bytes::trim_end_zeros;
use crate::decimal::{Decimal, read_digits, signed_number};

// The most zeros that a number of 128 bits can end in, and the most decimal places of a `Decimal`.
const MOST_ZEROS: u128 = 38;

const MOST_PLACES: u128 = 30;

// The digits of a number without the zeros at their end.
#[derive(Clone, Copy)]
struct Significant<'a> {
    whole: &'a [u8],
    fraction: &'a [u8],
    // How many zeros there were.
    zeros: u128,
}

// Removes the zeros at the end of the digits before and after a dot.
fn trim_both<'a>(whole: &'a [u8], fraction: &'a [u8]) -> Significant<'a>
    ensures { IsTrimmed whole.now fraction.now
        (result.whole.now ++ result.fraction.now) result.zeros }
{
    let places = trim_end_zeros(fraction);
    if !places.is_empty() {
        return Significant {
            whole,
            fraction: places,
            zeros: (fraction.len() - places.len()) as u128,
        };
    }
    let digits = trim_end_zeros(whole);
    Significant {
        whole: digits,
        fraction: places,
        zeros: (whole.len() - digits.len()) as u128 + fraction.len() as u128,
    }
}

// Returns the decimal `size` times 10 to the power of `raised`, divided by 10 to the power of `lowered`, with a minus
// if `is_below`. Returns `None` if no `Decimal` is that number. `size` doesn't end in a zero, unless it is 0.
fn scaled(is_below: bool, size: u128, raised: u128, lowered: u128) -> Option<Decimal>
    requires { size % 10 ≡ 0 → size ≡ 0 }
    ensures { Finds (λ n. IsDecimal n
        × IsLowestForm (signed_integer is_below (size * 10 ^ raised)) lowered n) result }
{
    if size == 0 {
        return Decimal::new(0, 0).ok();
    }
    let zeros = raised.saturating_sub(lowered);
    let places = lowered.saturating_sub(raised);
    if zeros > MOST_ZEROS || places > MOST_PLACES {
        return None;
    }
    let size = size.checked_mul(10u128.pow(zeros as u32))?;
    let mantissa = signed_number(is_below, size)?;
    let Ok(number) = Decimal::new(mantissa, places as u8) else {
        return None;
    };
    Some(number)
}

// Returns the decimal of the digits before and after a dot, with this exponent.
pub(crate) fn number_of(
    is_below: bool,
    whole: &[u8],
    fraction: &[u8],
    exponent: i32,
) -> Option<Decimal>
    ensures { Finds (IsDecimalOfDigits is_below whole.now fraction.now exponent) result }
{
    if whole.len() + fraction.len() == 0 {
        return None;
    }
    let digits = trim_both(whole, fraction);
    let front = read_digits(0, digits.whole)?;
    let size = read_digits(front, digits.fraction)?;
    let (raised, lowered) = shifts_of(exponent);
    let places = fraction.len() as u128 + u128::from(lowered);
    scaled(is_below, size, digits.zeros + u128::from(raised), places)
}
