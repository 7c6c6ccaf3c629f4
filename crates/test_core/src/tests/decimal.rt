//! Equality and hashes of decimals, the texts that they print, and the texts of the errors of one that is refused.
//! 2^127 is 170141183460469231731687303715884105728.
ghost use Rattle.std.specs.Prelude.{◌≡◌, ◌↔◌, IfOk, IsTrue};
ghost use Rattle.cadence_value.specs.Number.{IsLowestForm};

use super::error::has_kind_and_text;
use cadence_errors::{ErrorKind, MetricError, MetricResult};
use cadence_value::decimal::{Decimal, ParseDecimalError};
use std::alloc::Global;
use std::hash::{DefaultHasher, Hash, Hasher};
use std::test::Fail;

// Returns whether two decimals are equal. Its contract is a law of `==`: two are equal if and only if they are
// the same number.
fn is_same(one: &Decimal, other: &Decimal) -> bool
    ensures { IsTrue result ↔ (one.now ≡ other.now) }
{
    one == other
}

// Hashes two decimals. Its contract is a law of hashing: equal decimals leave equal hashers equal.
fn hash_both<H: Hasher>(one: &Decimal, other: &Decimal, first: &mut H, second: &mut H)
    ensures { one.now ≡ other.now → first.old ≡ second.old → first.new ≡ second.new }
{
    one.hash(first);
    other.hash(second);
}

// Returns a number of tenths. It shows a caller that passes on the error of `Decimal::new`.
fn tenths(mantissa: i128) -> MetricResult<Decimal>
    ensures { IfOk result (IsLowestForm mantissa 1) }
{
    let decimal = Decimal::new(mantissa, 1)?;
    Ok(decimal)
}

// Returns whether both decimals have the same hash.
fn have_equal_hashes(one: &Decimal, other: &Decimal) -> bool {
    let (mut first, mut second) = (DefaultHasher::new(), DefaultHasher::new());
    hash_both(one, other, &mut first, &mut second);
    first.finish() == second.finish()
}

#[test]
fn decimals_are_equal_in_lowest_form(rt: HostRuntime) -> Result<(), Fail> {
    let half = tenths(5)?;
    let copy = half;
    let same_half = Decimal::new(500, 3)?;
    assert!(rt; same_half.mantissa() == 5 && same_half.places() == 1);
    assert!(rt; is_same(&copy, &same_half) && have_equal_hashes(&half, &same_half));
    assert!(rt; !is_same(&half, &Decimal::new(5, 2)?));
    let shown = format!(in rt.alloc(); "{half:?}")?;
    assert!(rt; !shown.is_empty());
    Ok(())
}

// Texts of numbers, and the text that each number is printed as.
const NUMBERS: &[(&str, &str)] = &[
    ("5.00", "5"),
    ("-0.50", "-0.5"),
    ("10.010", "10.01"),
    (
        "-170141183.460469231731687303715884105728000000000000000000000000000000000000000000000000000",
        "-170141183.460469231731687303715884105728",
    ),
];

#[test]
fn a_number_is_printed_in_lowest_form(rt: HostRuntime) -> Result<(), Fail> {
    for (text, own) in NUMBERS {
        let Ok(number) = text.parse::<Decimal>() else {
            return Err(Fail::new("refused"));
        };
        assert_eq!(rt; number.to_string(rt.alloc())?.as_str(), *own);
    }
    Ok(())
}

// Texts that are refused, each with the text of its error.
const REFUSED: &[(&str, &str)] = &[
    ("1e3", "not a decimal number"),
    (
        "0.0000000000000000000000000000001",
        "too many decimal places",
    ),
    (
        "170141183460469231731687303715884105728",
        "decimal number too large",
    ),
];

// Returns whether the error prints this text, and a metric's error that is made of it does too.
fn has_text(alloc: Global, error: ParseDecimalError, text: &str) -> Result<bool, Fail> {
    let is_printed = error.to_string(alloc)?.as_str() == text;
    let error = MetricError::from(error);
    Ok(is_printed && has_kind_and_text(alloc, &error, ErrorKind::InvalidInput, text))
}

#[test]
fn an_error_has_its_text(rt: HostRuntime) -> Result<(), Fail> {
    for (number, text) in REFUSED {
        let Err(error) = number.parse::<Decimal>() else {
            return Err(Fail::new("read"));
        };
        assert!(rt; has_text(rt.alloc(), error, text)?, "{text}");
    }
    let Err(error) = Decimal::new(1, 31) else {
        return Err(Fail::new("made"));
    };
    let text = "too many decimal places";
    assert!(rt; has_kind_and_text(rt.alloc(), &error, ErrorKind::InvalidInput, text));
    Ok(())
}
