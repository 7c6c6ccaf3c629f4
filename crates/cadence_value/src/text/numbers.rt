//! Writes the texts of numbers and of values, whose numbers have colons between them, and counts the digits of a number.
//! They are written to what takes the pieces of a line: a buffer, a counter of bytes, or a window on a part of the line.
ghost use Rattle.std.specs.Prelude.{◌≡◌, ◌+◌, ◌++◌, ◌∷◌, ◌/◌, ◌%◌, ◌^◌, ◌<◌, ◌≤◌, ◌-◌};
ghost use Rattle.std.specs.Prelude.{List, ℕ, [], codes, length, map, replicate};
ghost use Rattle.cadence_value.specs.Number.{IsDecimal, decimal_text, number, number_text, numbers_text, places_text};
ghost use Rattle.cadence_value.specs.InMemory.{AreNumbersInMemory, IsTextInMemory};
ghost use Rattle.cadence_value.specs.Takes.{Takes};
ghost use Rattle.cadence_value.specs.Values.{numbers_of};

use crate::decimal;
use crate::decimal::Decimal;
use crate::number::IsNumber;
use crate::value::MetricValue;
use std::alloc::Allocator;

/// Takes ASCII bytes, one after the other. Digits are written to it.
// It is a trait of its own, because a default body of `PieceWriter` can't call a function that asks for `PieceWriter`.
pub trait ByteWriter {
    // The text that the writer ends with if this text still comes.
    ghost ends_as: { Self → List ℕ → List ℕ };

    /// Takes an ASCII byte.
    fn take_byte(&mut self, byte: u8)
        requires { byte < 128 }
        ensures { Takes ends_as self.old (byte ∷ []) self.new };
}

/// Takes the pieces of a line, one after the other.
pub trait PieceWriter: ByteWriter {
    /// Takes a text.
    fn take_piece(&mut self, piece: &str)
        ensures taken { Takes Self.ends_as self.old piece.now self.new }
        ensures sized { IsTextInMemory piece.now };

    /// Takes the digits of a number, without leading zeros.
    fn take_number(&mut self, number: u64)
        ensures { Takes Self.ends_as self.old (decimal_text number) self.new }
    {
        push_digits(self, number);
    }

    /// Takes the digits of a number of 128 bits, without leading zeros.
    fn take_wide(&mut self, number: u128)
        ensures { Takes Self.ends_as self.old (decimal_text number) self.new }
    {
        push_wide_digits(self, number);
    }
}

/// Returns how many digits a number has. 0 has one digit.
pub fn number_len(number: u64) -> usize
    ensures { result ≡ length (decimal_text number) }
{
    let (mut left, mut count) = (number, 0);
    while left >= 10_000 {
        left /= 10_000;
        count += 4;
    }
    count + short_len(left)
}

// Returns how many digits a number below 10,000 has.
fn short_len(number: u64) -> usize
    requires { number < 10000 }
    ensures { result ≡ length (decimal_text number) }
{
    if number < 10 {
        1
    } else if number < 100 {
        2
    } else if number < 1000 {
        3
    } else {
        4
    }
}

/// Returns how many digits a number of 128 bits has. 0 has one digit.
pub fn wide_len(number: u128) -> usize
    ensures { result ≡ length (decimal_text number) }
{
    let (mut left, mut count) = (number, 0);
    while left > u64::MAX as u128 {
        left /= 10_000;
        count += 4;
    }
    count + number_len(left as u64)
}

// Writes one digit.
fn push_digit<S: ByteWriter>(line: &mut S, digit: u64)
    requires { digit < 10 }
    ensures { Takes S.ends_as line.old ((48 + digit) ∷ []) line.new }
{
    line.take_byte(b'0' + digit as u8);
}

// Writes two digits, even if the first one is 0.
fn push_pair<S: ByteWriter>(line: &mut S, pair: u64)
    requires { pair < 100 }
    ensures { Takes S.ends_as line.old ((48 + pair / 10) ∷ (48 + pair % 10) ∷ []) line.new }
{
    push_digit(line, pair / 10);
    push_digit(line, pair % 10);
}

// Writes the one or two digits of a number below 100.
fn push_first<S: ByteWriter>(line: &mut S, number: u64)
    requires { number < 100 }
    ensures { Takes S.ends_as line.old (decimal_text number) line.new }
{
    if number < 10 {
        return push_digit(line, number);
    }
    push_pair(line, number);
}

// Writes the one to four digits of a number below 10,000.
fn push_short<S: ByteWriter>(line: &mut S, number: u64)
    requires { number < 10000 }
    ensures { Takes S.ends_as line.old (decimal_text number) line.new }
{
    if number < 100 {
        return push_first(line, number);
    }
    push_first(line, number / 100);
    push_pair(line, number % 100);
}

// Writes the digits of any number.
fn push_long<S: ByteWriter>(line: &mut S, number: u64)
    ensures { Takes S.ends_as line.old (decimal_text number) line.new }
{
    if number < 10_000 {
        return push_short(line, number);
    }
    push_long(line, number / 10_000);
    push_pair(line, number % 10_000 / 100);
    push_pair(line, number % 100);
}

// Writes the digits of a number, without leading zeros.
fn push_digits<S: ByteWriter>(line: &mut S, number: u64)
    ensures { Takes S.ends_as line.old (decimal_text number) line.new }
{
    if number < 10_000 {
        return push_short(line, number);
    }
    push_long(line, number);
}

// Writes the digits of a number of 128 bits, without leading zeros.
fn push_wide_digits<S: ByteWriter>(line: &mut S, number: u128)
    ensures { Takes S.ends_as line.old (decimal_text number) line.new }
{
    if let Ok(small) = u64::try_from(number) {
        return push_digits(line, small);
    }
    push_wide_digits(line, number / 100);
    push_pair(line, (number % 100) as u64);
}

// A number that can be written into a line.
pub(super) trait PushNumber: IsNumber {
    fn push_to<S: PieceWriter>(&self, line: &mut S)
        ensures taken { Takes S.ends_as line.old (number_text (Self.number self.now)) line.new }
        ensures sized { IsDecimal (Self.number self.now) };
}

impl PushNumber for i64 {
    #[tactic(auto, using(crate::proofs::digits::WholeNumberText::whole_text))]
    fn push_to<S: PieceWriter>(&self, line: &mut S) {
        if *self < 0 {
            line.take_byte(b'-');
        }
        line.take_number(self.unsigned_abs());
    }
}

impl PushNumber for u64 {
    #[tactic(auto, using(crate::proofs::digits::WholeNumberText::whole_text))]
    fn push_to<S: PieceWriter>(&self, line: &mut S) {
        line.take_number(*self);
    }
}

impl PushNumber for Decimal {
    fn push_to<S: PieceWriter>(&self, line: &mut S) {
        push_number(line, self.mantissa(), self.places());
    }
}

/// Writes the number `mantissa` divided by 10 to the power of `places`, with exactly `places` digits after the dot.
pub fn push_number<S: PieceWriter>(line: &mut S, mantissa: i128, places: u8)
    requires { places ≤ 30 }
    ensures { Takes S.ends_as line.old (number_text (number mantissa places)) line.new }
{
    if mantissa < 0 {
        line.take_byte(b'-');
    }
    push_magnitude(line, mantissa.unsigned_abs(), places);
}

fn power_of_ten(places: u8) -> u64
    requires { places ≤ 19 }
    ensures value { result ≡ 10 ^ places }
    ensures positive { 0 < result }
{
    10u64.pow(u32::from(places))
}

// Writes `magnitude` divided by 10 to the power of `places`. Most magnitudes fit 64 bits, in which dividing is faster.
fn push_magnitude<S: PieceWriter>(line: &mut S, magnitude: u128, places: u8)
    requires { places ≤ 30 }
    ensures { Takes S.ends_as line.old
        (decimal_text (magnitude / 10 ^ places) ++ places_text magnitude places) line.new }
{
    if places <= 19 {
        if let Ok(small) = u64::try_from(magnitude) {
            return push_small(line, small, places);
        }
    }
    let scale = decimal::power_of_ten(places);
    line.take_wide(magnitude / scale);
    if places > 0 {
        let fraction = magnitude % scale;
        push_dot(line, places, wide_len(fraction));
        line.take_wide(fraction);
    }
}

// Writes `magnitude` divided by 10 to the power of `places`, for a magnitude of 64 bits.
fn push_small<S: PieceWriter>(line: &mut S, magnitude: u64, places: u8)
    requires { places ≤ 19 }
    ensures { Takes S.ends_as line.old
        (decimal_text (magnitude / 10 ^ places) ++ places_text magnitude places) line.new }
{
    let scale = power_of_ten(places);
    line.take_number(magnitude / scale);
    if places > 0 {
        let fraction = magnitude % scale;
        push_dot(line, places, number_len(fraction));
        line.take_number(fraction);
    }
}

// Writes a dot, and then the zeros that fill a fraction of `digits` digits up to `places` digits.
fn push_dot<S: PieceWriter>(line: &mut S, places: u8, digits: usize)
    ensures { Takes S.ends_as line.old (codes "." ++ replicate (places - digits) 48) line.new }
{
    line.take_byte(b'.');
    for _i in 0..usize::from(places).saturating_sub(digits) {
        line.take_byte(b'0');
    }
}

// Writes the numbers of a list, with a colon between each two.
fn push_list<S: PieceWriter, T: PushNumber>(line: &mut S, numbers: &[T])
    ensures taken { Takes S.ends_as line.old (numbers_text (map T.number numbers.now)) line.new }
    ensures sized { AreNumbersInMemory (map T.number numbers.now) }
{
    let Some((first, others)) = numbers.split_first() else {
        return;
    };
    first.push_to(line);
    for number in others {
        line.take_byte(b':');
        number.push_to(line);
    }
}

/// Writes the numbers of a value, with a colon between each two. An empty list writes nothing.
// Without this hint a call of `bench count` takes 34 instructions more.
#[inline(always)]
pub fn push_value<S: PieceWriter, A: Allocator>(line: &mut S, value: &MetricValue<A>)
    ensures taken { Takes S.ends_as line.old (numbers_text (numbers_of value.now)) line.new }
    ensures sized { AreNumbersInMemory (numbers_of value.now) }
{
    match value {
        MetricValue::Signed(n) => n.push_to(line),
        MetricValue::PackedSigned(ns) => push_list(line, ns.as_slice()),
        MetricValue::Unsigned(n) => n.push_to(line),
        MetricValue::PackedUnsigned(ns) => push_list(line, ns.as_slice()),
        MetricValue::Decimal(d) => d.push_to(line),
        MetricValue::PackedDecimal(ds) => push_list(line, ds.as_slice()),
    }
}
