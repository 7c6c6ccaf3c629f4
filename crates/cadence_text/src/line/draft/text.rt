//! The drafts of lines whose value is a text and no number: a member of a set, or a change of a gauge.
ghost use Rattle.std.specs.Prelude.{◌≡◌, ◌↔◌, ◌+◌, ◌<◌, ◌≤◌, ◌^◌, [], All, IfOk, IsTrue, length};
ghost use Rattle.std.specs.Option.{option_copied};
ghost use Rattle.cadence_text.specs.DraftParts.{plain_draft};
ghost use Rattle.cadence_text.specs.MetricInMemory.{IsTextInMemory};
ghost use Rattle.cadence_text.specs.TextValue.{EndsNoValue, IsFitValue, IsMember, change_text, text_head, value_kind, value_text};
ghost use Rattle.cadence_value.specs.Number.{IsDecimal};
ghost use Rattle.cadence_value.specs.Takes.{Takes};

use super::{DraftLine, room_for, with_tags};
use crate::line::MetricType;
use crate::line::line_buf::{LengthCounter, LineBuf};
use cadence_value::decimal::Decimal;
use cadence_value::text::{PieceWriter, push_number};
use std::alloc::{AllocError, Allocator};

/// A value that is a text and no number. The Rust crate has no such type.
#[derive(Clone, Copy)]
pub enum TextValue<'a> {
    /// A member of a set, such as `alice`.
    Member(&'a str),
    /// By how much a gauge changes. A line has it with its sign, as `+3` or `-3`.
    Change(Decimal),
}

// Returns whether a byte ends no value.
fn ends_no_value(byte: u8) -> bool
    ensures { IsTrue result ↔ EndsNoValue byte }
{
    byte != b':' && byte != b'|' && byte != b'\n'
}

// Returns whether no byte of a text ends a value.
fn is_whole(text: &[u8]) -> bool
    ensures { IsTrue result ↔ All EndsNoValue text.now }
{
    text.iter().all(|byte| ends_no_value(*byte))
}

/// Returns whether a text can be a member of a set: it isn't empty, and has no colon, bar or newline, because each of
/// these would end it in a line.
pub fn is_member(text: &str) -> bool
    ensures { IsTrue result ↔ IsMember text.now }
{
    !text.is_empty() && is_whole(text.as_bytes())
}

impl TextValue<'_> {
    /// Returns the kind of metric that has such a value: a set has members, and a gauge changes.
    pub fn kind(&self) -> MetricType
        ensures { result ≡ value_kind self.now }
    {
        match self {
            TextValue::Member(_) => MetricType::Set,
            TextValue::Change(_) => MetricType::Gauge,
        }
    }

    /// Returns whether a line can have this value. It can have each change, and each member that `is_member` allows.
    pub fn is_fit(&self) -> bool
        ensures { IsTrue result ↔ IsFitValue self.now }
    {
        match self {
            TextValue::Member(text) => is_member(text),
            TextValue::Change(_) => true,
        }
    }
}

// Writes the sign and the number of a change.
fn push_change<S: PieceWriter>(line: &mut S, number: Decimal)
    ensures taken { Takes S.ends_as line.old (change_text number) line.new }
    ensures sized { IsDecimal number }
{
    let mantissa = number.mantissa();
    if mantissa >= 0 {
        line.take_byte(b'+');
    }
    push_number(line, mantissa, number.places());
}

// Writes a value.
fn push_text_value<S: PieceWriter>(line: &mut S, value: &TextValue<'_>)
    ensures taken { Takes S.ends_as line.old (value_text value.now) line.new }
    ensures sized { length (value_text value.now) < 2 ^ 63 }
{
    match value {
        TextValue::Member(text) => line.take_piece(text),
        TextValue::Change(number) => push_change(line, *number),
    }
}

// Writes the name, the value and the kind, with which a line begins.
#[tactic(auto, using(std::proofs::lemmas::Grind::common_steps))]
fn push_text_head<S: PieceWriter>(line: &mut S, prefix: &str, key: &str, value: &TextValue<'_>)
    ensures taken { Takes S.ends_as line.old (text_head prefix.now key.now value.now) line.new }
    ensures prefix { IsTextInMemory prefix.now }
    ensures key { IsTextInMemory key.now }
    ensures value { length (value_text value.now) < 2 ^ 63 }
{
    line.take_piece(prefix);
    line.take_piece(key);
    line.take_byte(b':');
    push_text_value(line, value);
    value.kind().push_to(line);
}

// Returns the length of a head in bytes.
fn text_head_count(prefix: &str, key: &str, value: &TextValue<'_>) -> u128
    ensures { result ≡ length (text_head prefix.now key.now value.now) }
{
    let mut counter = LengthCounter::new();
    push_text_head(&mut counter, prefix, key, value);
    counter.length()
}

// Writes a head and the text of tags into an empty buffer, and returns the draft of them.
fn written_text<'a, A: Allocator>(
    line: LineBuf<A>,
    first: usize,
    prefix: &str,
    key: &str,
    value: &TextValue<'_>,
    tags: &str,
    container: Option<&'a str>,
) -> DraftLine<'a, A>
    requires empty { line.bytes.items ≡ [] }
    requires first { first ≡ length (text_head prefix.now key.now value.now) }
    requires room { first + length tags.now ≤ line.end }
    ensures { result ≡ plain_draft (text_head prefix.now key.now value.now) tags.now
        (option_copied container.entry) }
{
    let mut line = line;
    push_text_head(&mut line, prefix, key, value);
    with_tags(line, first, tags, container)
}

impl<'a, A: Allocator> DraftLine<'a, A> {
    /// Returns the draft of a line whose value is a text, with tags that are text already and a container, without a
    /// rate and a time. The name is `prefix` and `key`, and the value decides the kind. The draft is written into a
    /// buffer of the caller's, in place of its text, with room for `more` bytes of further tags. It takes memory only
    /// if the buffer is too short. The value is not tested, which `is_fit` does.
    ///
    /// The only error is that memory ran out or that the length passes `usize::MAX`. Then the buffer is freed.
    pub fn of_text(
        buffer: Vec<u8, A>,
        prefix: &str,
        key: &str,
        value: &TextValue<'_>,
        tags: &str,
        container: Option<&'a str>,
        more: usize,
    ) -> Result<DraftLine<'a, A>, AllocError>
        ensures { IfOk result (λ draft. draft ≡ plain_draft
            (text_head prefix.now key.now value.now) tags.now (option_copied container.entry)) }
    {
        let (first, room) = room_for(text_head_count(prefix, key, value), tags, more)?;
        let line = LineBuf::in_buffer(buffer, room)?;
        Ok(written_text(line, first, prefix, key, value, tags, container))
    }
}
