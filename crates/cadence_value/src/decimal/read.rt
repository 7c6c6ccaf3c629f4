//! Reads decimals from texts. `read_number` reads only the text that a decimal prints. `FromStr` also reads zeros at
//! the end of the places: it cuts them off. Both then read the digits in one way, by `number_of`.
ghost use Rattle.std.specs.Prelude.{Bool, true, false, if◌then◌else◌, codes, [], slice_index, ◌≡◌, ◌≢◌, ◌++◌, ◌+◌, ◌*◌, ◌<◌, ◌^◌, ◌↔◌, Err, IfNone, IfSome, IsTrue, SomeIff, FitsSigned};
ghost use mir.Syntax.{w128};
ghost use Rattle.std.specs.Str.Parse.{AllDigits, digits_value_after};
ghost use Rattle.cadence_errors.specs.Errors.{IsInvalid};
ghost use Rattle.cadence_value.specs.Digits.{ArePlain, EndsPlain, HasParts, HaveSize, ReadsDigits, joined_digits, signed_integer};
ghost use Rattle.cadence_value.specs.Number.{Number, number_text};
ghost use Rattle.cadence_value.specs.PrintedNumber.{ReadsNatural, ReadsNumber};
ghost use Rattle.cadence_value.specs.DenotedNumber.{ReadsDecimal};

use super::{Decimal, MAX_PLACES};
use crate::bytes::{split_once, trim_end_zeros};
use cadence_errors::{ErrorKind, MetricError};
use std::error::Error;
use std::fmt;
use std::str::FromStr;

/// Why a text can't be read as a `Decimal`.
#[derive(Clone, Copy, Debug, PartialEq, Eq)]
pub enum ParseDecimalError {
    /// The text is not a number. A number is an optional minus, digits without needless zeros in front, and optionally
    /// a dot with at least one digit after it. Zero has no minus.
    NotANumber,
    /// The text is a number, but its lowest form has more than `MAX_PLACES` digits after the dot.
    TooManyPlaces,
    /// The text is a number, but the mantissa of its lowest form does not fit an `i128`.
    TooLarge,
}

impl ParseDecimalError {
    fn text(self) -> &'static str {
        match self {
            ParseDecimalError::NotANumber => "not a decimal number",
            ParseDecimalError::TooManyPlaces => "too many decimal places",
            ParseDecimalError::TooLarge => "decimal number too large",
        }
    }
}

impl fmt::Display for ParseDecimalError {
    fn fmt<W: fmt::Write>(&self, f: &mut fmt::Formatter<W>) -> fmt::Result {
        f.write_str(self.text())
    }
}

impl Error for ParseDecimalError {}

/// Makes an error of kind `InvalidInput` with the text of this error.
impl From<ParseDecimalError> for MetricError {
    ghost from_gives = { λ _ e. IsInvalid e };

    fn from(error: ParseDecimalError) -> MetricError {
        MetricError::from((ErrorKind::InvalidInput, error.text()))
    }
}

// A number below this, 10 to the power of 18, still fits 64 bits with one more digit at its end.
const SHORT: u128 = 1_000_000_000_000_000_000;

// Returns the number with one more digit at its end, if it fits 128 bits. Numbers that fit 64 bits, which are the most
// frequent, take less time.
fn with_digit(value: u128, digit: u8) -> Option<u128>
    requires { digit < 10 }
    ensures { SomeIff result (value * 10 + digit < 2 ^ 128) (value * 10 + digit) }
{
    if value < SHORT {
        return Some(u128::from(value as u64 * 10 + u64::from(digit)));
    }
    value.checked_mul(10)?.checked_add(u128::from(digit))
}

/// Returns the number whose digits are those of `start` and then these: 1234 for 12 and `34`. Takes no memory.
///
/// Returns `None` if a byte is not a digit, or if the number does not fit 128 bits.
pub fn read_digits(start: u128, digits: &[u8]) -> Option<u128>
    ensures { SomeIff result (AllDigits 10 digits.now
        × (digits_value_after 10 start digits.now < 2 ^ 128))
        (digits_value_after 10 start digits.now) }
{
    let mut value = start;
    for byte in digits {
        if !byte.is_ascii_digit() {
            return None;
        }
        value = with_digit(value, *byte - b'0')?;
    }
    Some(value)
}

/// Returns the whole number that prints as this text: digits without a sign, and without a zero before other digits.
/// Returns `None` if the text is none of these, or if the number does not fit 128 bits. Takes no memory.
pub fn read_whole(text: &[u8]) -> Option<u128>
    ensures { ReadsNatural text.now result }
{
    if text.is_empty() {
        return None;
    }
    if text.len() > 1 && text[0] == b'0' {
        return None;
    }
    read_digits(0, text)
}

/// Returns the signed number of this magnitude, if it fits 128 bits.
pub fn signed_number(is_below: bool, size: u128) -> Option<i128>
    ensures { SomeIff result (FitsSigned w128 (signed_integer is_below size))
        (signed_integer is_below size) }
{
    if is_below {
        return 0i128.checked_sub_unsigned(size);
    }
    i128::try_from(size).ok()
}

// Returns whether the text begins with a minus, and the text without that minus.
fn split_sign(text: &[u8]) -> (bool, &[u8])
    ensures whole { text.now ≡ (if result.0 then codes "-" else []) ++ result.1.now }
    ensures first { result.0 ≡ false → slice_index text.now 0 ≢ 45 }
{
    match text.strip_prefix(b"-") {
        Some(unsigned) => (true, unsigned),
        None => (false, text),
    }
}

// Splits a text at its sign and at its dot. Returns whether it begins with a minus, and the texts on each side of the
// dot. Returns `None` if there is a dot and nothing comes after it.
fn split(text: &[u8]) -> Option<(bool, &[u8], &[u8])>
    ensures none { IfNone result ((n : Number) → number_text n ≢ text.now) }
    ensures parts { IfSome result (λ p. HasParts text.now p.0 p.1.now p.2.now) }
{
    let (is_below, unsigned) = split_sign(text);
    let Some((whole, fraction)) = split_once(unsigned, b'.') else {
        return Some((is_below, unsigned, &[]));
    };
    if fraction.is_empty() {
        return None;
    }
    Some((is_below, whole, fraction))
}

// Returns whether each byte is a digit.
fn are_digits(text: &[u8]) -> bool
    ensures { IsTrue result ↔ AllDigits 10 text.now }
{
    for byte in text {
        if !byte.is_ascii_digit() {
            return false;
        }
    }
    true
}

// Returns whether these are digits for both sides of a dot, without needless zeros in front.
fn are_plain(whole: &[u8], fraction: &[u8]) -> bool
    ensures { IsTrue result ↔ ArePlain whole.now fraction.now }
{
    if whole.is_empty() || whole.len() > 1 && whole[0] == b'0' {
        return false;
    }
    are_digits(whole) && are_digits(fraction)
}

// Returns the digits on both sides of the dot as one whole number: 1250 for 12.50. `None` if they begin with a needless
// zero, if they aren't digits, if too many come after the dot, or if the number does not fit 128 bits.
fn size_of(whole: &[u8], fraction: &[u8]) -> Option<u128>
    ensures { SomeIff result (HaveSize whole.now fraction.now)
        (joined_digits whole.now fraction.now) }
{
    if fraction.len() > usize::from(MAX_PLACES) {
        return None;
    }
    read_digits(read_whole(whole)?, fraction)
}

// Returns why no decimal has these digits on both sides of the dot.
#[cold]
fn why_none(whole: &[u8], fraction: &[u8]) -> ParseDecimalError
    requires plain { EndsPlain fraction.now }
    requires none { HaveSize whole.now fraction.now → ⊥ }
    ensures { (below : Bool) → ReadsDigits below whole.now fraction.now (Err result) }
{
    if !are_plain(whole, fraction) {
        return ParseDecimalError::NotANumber;
    }
    if fraction.len() > usize::from(MAX_PLACES) {
        return ParseDecimalError::TooManyPlaces;
    }
    ParseDecimalError::TooLarge
}

// Returns the decimal with this sign and these digits on each side of the dot. The last digit after the dot is not 0.
fn number_of(is_below: bool, whole: &[u8], fraction: &[u8]) -> Result<Decimal, ParseDecimalError>
    requires { EndsPlain fraction.now }
    ensures { ReadsDigits is_below whole.now fraction.now result }
{
    let Some(size) = size_of(whole, fraction) else {
        return Err(why_none(whole, fraction));
    };
    if is_below && size == 0 {
        return Err(ParseDecimalError::NotANumber);
    }
    let places = fraction.len() as u8;
    match signed_number(is_below, size) {
        Some(mantissa) => Ok(Decimal { mantissa, places }),
        None => Err(ParseDecimalError::TooLarge),
    }
}

// Returns whether the last digit, if there is one, is not 0.
fn ends_plain(digits: &[u8]) -> bool
    ensures { IsTrue result ↔ EndsPlain digits.now }
{
    digits.last() != Some(&b'0')
}

/// Returns the decimal that prints as exactly this text. Takes no memory.
///
/// Returns `None` if no decimal prints so. Each decimal has one text, so a text with needless zeros, a plus, a minus
/// before zero, or without digits on one side of the dot is not read. `FromStr` reads needless zeros at the end too.
pub fn read_number(text: &[u8]) -> Option<Decimal>
    ensures { ReadsNumber text.now result }
{
    let (is_below, whole, fraction) = split(text)?;
    if !ends_plain(fraction) {
        return None;
    }
    number_of(is_below, whole, fraction).ok()
}

// Returns the decimal that a text denotes, even if there are zeros at the end of its places.
fn read(text: &[u8]) -> Result<Decimal, ParseDecimalError>
    ensures { ReadsDecimal text.now result }
{
    let Some((is_below, whole, fraction)) = split(text) else {
        return Err(ParseDecimalError::NotANumber);
    };
    number_of(is_below, whole, trim_end_zeros(fraction))
}

/// Reads the number exactly. Zeros at the end of the places are accepted: `"1.50"` is read as 1.5. Takes no memory.
///
/// If the text can't be read, the error is the first variant of `ParseDecimalError` that applies to the text.
impl FromStr for Decimal {
    type Err = ParseDecimalError;

    ghost from_str_gives = { ReadsDecimal };

    fn from_str(text: &str) -> Result<Decimal, ParseDecimalError> {
        read(text.as_bytes())
    }
}
