//! The sampling rate, as a draft stores it and as a line has it, and the room of the options that end a line.
ghost use Rattle.std.specs.Prelude.{◌≡◌, ◌++◌, ◌<◌, ◌≤◌, IfSome, OnOk, drop, length, take};
ghost use Rattle.std.specs.Option.{option_copied};
ghost use Rattle.cadence_value.specs.Number.{IsDecimal};
ghost use Rattle.cadence_text.specs.DraftParts.{IsCutAt};
ghost use Rattle.cadence_text.specs.Line.{container_field, enrichment_fields, rate_field, time_field};
ghost use Rattle.cadence_text.specs.Record.{enrichment_of};
ghost use Rattle.cadence_value.specs.Takes.{Takes};

use crate::line::enrichment::Enrichment;
use crate::line::line_buf::{LengthCounter, LineBuf};
use cadence_value::decimal::Decimal;
use cadence_value::text::{PieceWriter, number_len, push_number};
use std::alloc::{AllocError, Allocator};
use std::marker::Model;

// Two to the power of 64.
const TWO_64: u128 = 1 << 64;

/// A sampling rate. Its mantissa is stored in two halves of 64 bits, because an `i128` would have to lie at a multiple
/// of 16 bytes, which makes a draft longer and slower to move.
#[derive(Drop)]
pub(crate) struct Rate {
    high: u64,
    low: u64,
    places: u8,
}

impl Model for Rate {
    ghost use Rattle.std.specs.Prelude.{◌≡◌, ◌≤◌, true};
    ghost use Rattle.cadence_value.specs.Number.{Number, is_lowest, number};
    ghost use Rattle.cadence_text.specs.Rate.{joined_halves};

    ghost Value = { Number };

    ghost view = { λ r. number (joined_halves r.high r.low) r.places };

    ghost invariant = { λ r. (r.places ≤ 30)
        × (is_lowest (joined_halves r.high r.low) r.places ≡ true) };
}

impl Rate {
    pub(crate) fn of(rate: Decimal) -> Rate
        ensures rate { result ≡ rate }
        ensures whole { IsDecimal rate }
    {
        let bits = rate.mantissa().cast_unsigned();
        Rate {
            high: (bits / TWO_64) as u64,
            low: (bits % TWO_64) as u64,
            places: rate.places(),
        }
    }

    fn mantissa(&self) -> i128
        ensures { result ≡ self.now.mantissa }
    {
        (u128::from(self.high) * TWO_64 + u128::from(self.low)).cast_signed()
    }

    fn places(&self) -> u8
        ensures value { result ≡ self.now.places }
        ensures whole { IsDecimal self.now }
    {
        self.places
    }
}

// Writes the field of a rate, or nothing if there is none.
pub(crate) fn push_rate<S: PieceWriter>(line: &mut S, rate: &Option<Rate>)
    ensures taken { Takes S.ends_as line.old (rate_field rate.now) line.new }
    ensures sized { IfSome rate.now IsDecimal }
{
    if let Some(rate) = rate {
        line.take_byte(b'|');
        line.take_byte(b'@');
        push_number(line, rate.mantissa(), rate.places());
    }
}

// Writes a rate at the end of a line.
fn add_rate<A: Allocator>(line: &mut LineBuf<A>, rate: &Option<Rate>) -> Result<(), AllocError>
    requires { 0 < length line.old.bytes.items }
    ensures { OnOk result (line.new.bytes.items ≡ line.old.bytes.items ++ rate_field rate.now) }
{
    let mut counter = LengthCounter::new();
    push_rate(&mut counter, rate);
    let Ok(length) = usize::try_from(counter.length()) else {
        return Err(AllocError);
    };
    line.reserve(length)?;
    push_rate(line, rate);
    Ok(())
}

// Writes a rate between the head of a line and its tags. A rate may be set after tags were added, so it is written at
// the end first, and then the tags are moved behind it.
pub(crate) fn insert_rate<A: Allocator>(
    line: &mut LineBuf<A>,
    head: usize,
    rate: &Option<Rate>,
) -> Result<(), AllocError>
    requires { IsCutAt head line.old.bytes.items }
    ensures { OnOk result (line.new.bytes.items ≡ take head line.old.bytes.items
        ++ (rate_field rate.now ++ drop head line.old.bytes.items)) }
{
    let tags = line.len() - head;
    add_rate(line, rate)?;
    line.turn(head, tags);
    Ok(())
}

// Returns the length of the fields of a container, an enrichment and a time in bytes, or `None` if it passes
// `usize::MAX`.
pub(crate) fn last_room(
    container: Option<&str>,
    enrichment: &Enrichment<'_>,
    time: Option<u64>,
) -> Option<usize>
    ensures { IfSome result (λ n. n ≡ length (container_field (option_copied container.entry)
        ++ (enrichment_fields (enrichment_of enrichment.now) ++ time_field time))) }
{
    let time = match time {
        Some(time) => number_len(time).checked_add(2)?,
        None => 0,
    };
    let cardinality = match enrichment.cardinality {
        Some(cardinality) => cardinality.text().len().checked_add(6)?,
        None => 0,
    };
    let external = match enrichment.external {
        Some(external) => external.len().checked_add(3)?,
        None => 0,
    };
    let last = external.checked_add(cardinality)?.checked_add(time)?;
    match container {
        Some(container) => container.len().checked_add(3)?.checked_add(last),
        None => Some(last),
    }
}
