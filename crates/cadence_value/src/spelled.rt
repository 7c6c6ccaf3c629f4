//! Reads numbers in any spelling, as tools and other clients print them.
ghost use Rattle.cadence_value.specs.SpelledNumber.{SaysDecimal};
ghost use Rattle.cadence_value.specs.Finds.{Finds};

use crate::decimal::{Decimal, read_number};
use digits::number_of;
use parts::{split_dot, split_exponent, split_sign};

mod digits;
mod parts;

// Returns what `read_spelled` returns. It reads each text from its parts.
fn read_parts(text: &[u8]) -> Option<Decimal>
    ensures { Finds (SaysDecimal text.now) result }
{
    let (is_below, unsigned) = split_sign(text);
    let (front, exponent) = split_exponent(unsigned)?;
    let (whole, fraction) = split_dot(front);
    number_of(is_below, whole, fraction, exponent)
}

/// Returns the decimal number that a text says: digits with at most one dot, perhaps with a plus or a minus before them,
/// and perhaps with an exponent after them, as in `.5`, `+1`, `-0.0` and `1.5e+06`. These are the finite numbers that
/// the `f64` of Rust reads, but they are read exactly. It takes no memory.
///
/// Returns `None` if the text says no number, if its exponent does not fit 32 bits, or if no `Decimal` is that number.
pub fn read_spelled(text: &str) -> Option<Decimal>
    ensures { Finds (SaysDecimal text.now) result }
{
    // Most texts are those that numbers print as, which are read faster.
    let text = text.as_bytes();
    match read_number(text) {
        Some(number) => Some(number),
        None => read_parts(text),
    }
}
