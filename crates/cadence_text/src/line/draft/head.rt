//! The head of a line, with which each draft begins.
ghost use Rattle.std.specs.Prelude.{◌≡◌, length};
ghost use Rattle.cadence_text.specs.DraftParts.{text_of_head};
ghost use Rattle.cadence_text.specs.MetricInMemory.{AreNumbersInMemory, IsTextInMemory};
ghost use Rattle.cadence_value.specs.Takes.{Takes};
ghost use Rattle.cadence_value.specs.Values.{numbers_of};

use crate::line::MetricType;
use crate::line::line_buf::LengthCounter;
use cadence_value::text::{PieceWriter, push_value};
use cadence_value::value::MetricValue;
use std::alloc::{Allocator, Global};

/// The head of a line: the name, the numbers and the kind. The Rust crate has no such type.
#[derive(Drop)]
pub struct Head<'a, A: Allocator = Global> {
    /// The first part of the name. It is written as it is, with its dot if it has one.
    pub prefix: &'a str,
    /// The second part of the name.
    pub key: &'a str,
    /// The numbers.
    pub value: MetricValue<A>,
    /// The kind, whose type text ends the head.
    pub kind: MetricType,
}

// Without this hint a call of `bench count` takes 72 instructions more.
#[inline(always)]
#[tactic(auto, using(std::proofs::lemmas::Grind::common_steps))]
pub(crate) fn push_head<S: PieceWriter, A: Allocator>(line: &mut S, head: &Head<'_, A>)
    ensures taken { Takes S.ends_as line.old (text_of_head head.now) line.new }
    ensures prefix { IsTextInMemory head.now.prefix.now }
    ensures key { IsTextInMemory head.now.key.now }
    ensures numbers { AreNumbersInMemory (numbers_of head.now.value) }
{
    line.take_piece(head.prefix);
    line.take_piece(head.key);
    line.take_byte(b':');
    push_value(line, &head.value);
    head.kind.push_to(line);
}

// Returns the length of a head in bytes.
// Without this hint a call of `bench count` takes 28 instructions more.
#[inline(always)]
pub(super) fn head_count<A: Allocator>(head: &Head<'_, A>) -> u128
    ensures { result ≡ length (text_of_head head.now) }
{
    let mut counter = LengthCounter::new();
    push_head(&mut counter, head);
    counter.length()
}
