//! Prints decimals and values. A writer of `fmt` can fail, and a `PieceWriter` can't. So the text of each number is
//! written into a buffer first, and the writer gets the buffer.
ghost use Rattle.std.specs.Prelude.{◌≡◌, ◌≤◌, Some, map, take};
ghost use Rattle.std.specs.Fmt.{DisplaysOnOk};
ghost use Rattle.std.specs.Str.{IsUtf8};
ghost use Rattle.cadence_value.specs.Number.{number_text, numbers_text};
ghost use Rattle.cadence_value.specs.NumberBuf.{number_buf_ends};
ghost use Rattle.cadence_value.specs.Values.{numbers_of};

use super::numbers::{ByteWriter, PieceWriter, PushNumber};
use crate::decimal::Decimal;
use crate::value::MetricValue;
use std::alloc::Allocator;
use std::{fmt, str};

// The most bytes of a number's text: a minus, 39 digits, a dot and 30 digits more.
const MAX_NUMBER: usize = 71;

// The text of one number: the first `len` bytes. `is_over` is whether a text came that is too long for the buffer.
#[derive(Drop)]
struct NumberBuf {
    bytes: [u8; MAX_NUMBER],
    len: usize,
    is_over: bool,
}

impl NumberBuf {
    fn as_str(&self) -> &str
        requires len { self.now.len ≤ 71 }
        requires utf8 { IsUtf8 (take self.now.len self.now.bytes) }
        ensures { result.now ≡ take self.now.len self.now.bytes }
    {
        let Ok(text) = str::from_utf8(&self.bytes[..self.len]) else {
            unreachable!()
        };
        text
    }
}

impl ByteWriter for NumberBuf {
    ghost ends_as = { number_buf_ends };

    fn take_byte(&mut self, byte: u8) {
        if self.len < MAX_NUMBER {
            self.bytes[self.len] = byte;
            self.len += 1;
        } else {
            self.is_over = true;
        }
    }
}

impl PieceWriter for NumberBuf {
    fn take_piece(&mut self, piece: &str) {
        if self.len > MAX_NUMBER || piece.len() > MAX_NUMBER - self.len {
            self.is_over = true;
            return;
        }
        let end = self.len + piece.len();
        self.bytes[self.len..end].copy_from_slice(piece.as_bytes());
        self.len = end;
    }
}

// Makes the text of a number.
fn text_of<T: PushNumber>(number: &T) -> NumberBuf
    ensures len { result.len ≤ 71 }
    ensures utf8 { IsUtf8 (take result.len result.bytes) }
    ensures text { take result.len result.bytes ≡ number_text (T.number number.now) }
{
    let mut buf = NumberBuf {
        bytes: [0; MAX_NUMBER],
        len: 0,
        is_over: false,
    };
    number.push_to(&mut buf);
    buf
}

// Writes the text of a number.
fn write_number<W: fmt::Write, T: PushNumber>(f: &mut fmt::Formatter<W>, number: &T) -> fmt::Result
    ensures { DisplaysOnOk W.write_str_gives f.old result
        (Some (number_text (T.number number.now))) f.new }
{
    f.write_str(text_of(number).as_str())
}

// Writes the texts of the numbers, with a colon between each two.
fn write_list<W: fmt::Write, T: PushNumber>(f: &mut fmt::Formatter<W>, numbers: &[T]) -> fmt::Result
    ensures { DisplaysOnOk W.write_str_gives f.old result
        (Some (numbers_text (map T.number numbers.now))) f.new }
{
    let Some((first, others)) = numbers.split_first() else {
        return Ok(());
    };
    write_number(f, first)?;
    for number in others {
        f.write_str(":")?;
        write_number(f, number)?;
    }
    Ok(())
}

/// Prints a minus if the number is below zero, then the digits of the whole part without leading zeros, and, if
/// `places` is above 0, a dot and exactly that many digits.
impl fmt::Display for Decimal {
    ghost output = { λ n. Some (number_text n) };

    fn fmt<W: fmt::Write>(&self, f: &mut fmt::Formatter<W>) -> fmt::Result {
        write_number(f, self)
    }
}

/// Prints the numbers with a colon between each two, as a line shows them. An empty list prints nothing.
impl<A: Allocator> fmt::Display for MetricValue<A> {
    ghost output = { λ v. Some (numbers_text (numbers_of v)) };

    fn fmt<W: fmt::Write>(&self, f: &mut fmt::Formatter<W>) -> fmt::Result {
        match self {
            MetricValue::Signed(n) => write_number(f, n),
            MetricValue::PackedSigned(ns) => write_list(f, ns),
            MetricValue::Unsigned(n) => write_number(f, n),
            MetricValue::PackedUnsigned(ns) => write_list(f, ns),
            MetricValue::Decimal(d) => write_number(f, d),
            MetricValue::PackedDecimal(ds) => write_list(f, ds),
        }
    }
}
