//! Digits and places that the decimal of a float may have. No contract speaks of them, because whoever gets a candidate
//! reads it back, and uses it only if it is read as the float.
use std::num::f64_to_bits_with_nan;

// The bits of a float that are its fraction.
const FRACTION: u64 = 4_503_599_627_370_495;

const TWO_TO_52: f64 = 4_503_599_627_370_496.0;

// The exponents, as a float stores them, of the floats from 2 to the power of -10 up to, but not including, 2 to the
// power of 52.
const FIRST_EXPONENT: u64 = 1013;

const END_OF_EXPONENTS: u64 = 1075;

// The powers of ten that fit 64 bits.
const POWERS: [u64; 20] = [
    1,
    10,
    100,
    1_000,
    10_000,
    100_000,
    1_000_000,
    10_000_000,
    100_000_000,
    1_000_000_000,
    10_000_000_000,
    100_000_000_000,
    1_000_000_000_000,
    10_000_000_000_000,
    100_000_000_000_000,
    1_000_000_000_000_000,
    10_000_000_000_000_000,
    100_000_000_000_000_000,
    1_000_000_000_000_000_000,
    10_000_000_000_000_000_000,
];

/// Returns the digits of a decimal of at most 15 digits, of which `scale` is the power of ten, if a multiplication finds
/// some. Two different decimals of at most 15 digits are read as different floats, so a decimal that is read as the
/// float is the shortest one.
#[inline(always)]
pub fn multiplied(x: f64, scale: f64) -> Option<u64> {
    let scaled = x.abs() * scale;
    if !(scaled < 1e15) {
        return None;
    }
    // From 2 to the power of 52 up to 2 to the power of 53 floats are whole, so the sum is rounded to a whole number.
    // Its fraction is how far it is above the former.
    let above = scaled + TWO_TO_52;
    // If the decimal is read as the float, two roundings are between the digits and the product, each by at most half of
    // the last bit.
    let gap = (scaled - (above - TWO_TO_52)).abs();
    if gap > scaled * 4.5e-16 {
        return None;
    }
    Some(f64_to_bits_with_nan(above) & FRACTION)
}

/// Returns the digits and the places of the shortest decimal of a float, computed in whole numbers of 128 bits. Of two
/// shortest ones that are equally near it is the greater one, as in Rust. Returns `None` for a power of 2, and for a
/// float with another exponent than those above, as NaN has.
///
/// The float is `significand` over 2 to the power of `shift`. A decimal is read as this float if it is nearer than half
/// of the distance to the next float, or if it is exactly that far away and the significand is even. If a decimal of k
/// places is read as the float, then one of k + 1 places is too, and one of 17 digits always is. So the search begins
/// with that one and goes down to the fewest places. A power of 2 is left out because the next float below it is nearer
/// than the next one above it.
pub fn shortest(x: f64) -> Option<(u64, u8)> {
    let bits = f64_to_bits_with_nan(x);
    let (exponent, fraction) = ((bits >> 52) & 0x7ff, bits & FRACTION);
    if fraction == 0 || exponent < FIRST_EXPONENT || exponent >= END_OF_EXPONENTS {
        return None;
    }
    let significand = fraction.wrapping_add(FRACTION).wrapping_add(1);
    let shift = (END_OF_EXPONENTS - exponent) as u32;
    let mut places = most_places(exponent);
    let mut digits = nearest(significand, shift, places)?;
    for _ in 0..20u8 {
        if places == 0 {
            break;
        }
        let Some(shorter) = nearest(significand, shift, places - 1) else {
            break;
        };
        digits = shorter;
        places -= 1;
    }
    Some((digits, places))
}

// Returns how many places make 17 digits of a float with this exponent, at most 19. 1233 over 4096 is a little less than
// the decimal logarithm of 2.
fn most_places(exponent: u64) -> u8 {
    let above = exponent.wrapping_sub(FIRST_EXPONENT);
    let fewer = above.wrapping_mul(1233).wrapping_add(4054) >> 12;
    21u64.saturating_sub(fewer).min(19) as u8
}

// Returns the digits of the decimal with this many places that is nearest to the float, if it is read as the float.
#[inline(always)]
fn nearest(significand: u64, shift: u32, places: u8) -> Option<u64> {
    let scale = u128::from(*POWERS.get(usize::from(places))?);
    let exact = u128::from(significand).wrapping_mul(scale);
    let half = 1u128.wrapping_shl(shift.wrapping_sub(1));
    let digits = exact.wrapping_add(half).wrapping_shr(shift);
    let distance = digits.wrapping_shl(shift).abs_diff(exact);
    let most = scale.wrapping_add(u128::from(significand % 2 == 0));
    if distance.wrapping_mul(2) >= most {
        return None;
    }
    u64::try_from(digits).ok()
}
