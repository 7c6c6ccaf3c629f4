//! The functions that write the pieces of a line, in the order in which they are written.
ghost use Rattle.std.specs.Prelude.{◌++◌, ◌^◌, ◌<◌, IfSome, length, map, true};
ghost use Rattle.std.specs.Option.{option_copied};
ghost use Rattle.cadence_text.specs.Cleaned.{container_as, tag_as};
ghost use Rattle.cadence_text.specs.Draft.{lead};
ghost use Rattle.cadence_text.specs.Line.{container_field, enrichment_fields, tag_text, tags_field, time_field};
ghost use Rattle.cadence_value.specs.InMemory.{IsTextInMemory};
ghost use Rattle.cadence_value.specs.Takes.{Takes};
ghost use Rattle.cadence_text.specs.PieceWriters.{line_buf_ends};
ghost use Rattle.cadence_text.specs.Record.{enrichment_of, tag_of};
ghost use Rattle.cadence_text.specs.MetricInMemory.{AreTagsInMemory, IsTagInMemory, IsTimestamp};

use crate::line::enrichment::Enrichment;
use crate::line::line_buf::LineBuf;
use crate::line::tag::Tag;
use cadence_value::text::{ByteWriter, PieceWriter};
use core::mem;
use std::alloc::Allocator;

// Writes what comes before a tag: a comma after another tag, and `|#` before the first one.
// Without this hint a counter with tags of `bindings/c/speed.c` takes 13 instructions more.
#[inline(always)]
pub(crate) fn push_lead<S: PieceWriter>(line: &mut S, begun: bool)
    ensures { Takes S.ends_as line.old (lead begun) line.new }
{
    if begun {
        line.take_byte(b',');
    } else {
        line.take_byte(b'|');
        line.take_byte(b'#');
    }
}

// Without this hint a call of `bench count_tags` takes 153 instructions more.
#[inline(always)]
pub(crate) fn push_tag<S: PieceWriter>(line: &mut S, tag: &Tag<'_>)
    ensures taken { Takes S.ends_as line.old (tag_text (tag_of tag.now)) line.new }
    ensures sized { IsTagInMemory (tag_of tag.now) }
{
    if let Some(key) = tag.key {
        line.take_piece(key);
        line.take_byte(b':');
    }
    line.take_piece(tag.text);
}

// Writes a tag as it is, or with cleaned texts.
#[inline(always)]
pub(crate) fn push_tag_as<A: Allocator>(line: &mut LineBuf<A>, tag: &Tag<'_>, is_cleaned: bool)
    ensures taken { Takes line_buf_ends line.old
        (tag_text (tag_as is_cleaned (tag_of tag.now))) line.new }
    ensures sized { IsTagInMemory (tag_of tag.now) }
{
    if !is_cleaned {
        return push_tag(line, tag);
    }
    if let Some(key) = tag.key {
        line.take_cleaned(key, false);
        line.take_byte(b':');
    }
    line.take_cleaned(tag.text, tag.key.is_some());
}

// Returns the line with tags at its end. `mem::replace_with` moves the line into a local variable and back, so that the
// compiler keeps the line's length in a register. It takes a function that returns a pair, hence the unit.
fn line_with_tags<S: PieceWriter>(line: S, tags: &[Tag<'_>]) -> (S, ())
    ensures taken { Takes S.ends_as line (tags_field (map tag_of tags.now)) result.0 }
    ensures sized { AreTagsInMemory (map tag_of tags.now) }
    ensures few { length (map tag_of tags.now) < 2 ^ 58 }
{
    let Some((first, others)) = tags.split_first() else {
        return (line, ());
    };
    let mut line = line;
    push_lead(&mut line, false);
    push_tag(&mut line, first);
    for tag in others {
        push_lead(&mut line, true);
        push_tag(&mut line, tag);
    }
    (line, ())
}

pub(crate) fn push_tags<S: PieceWriter>(line: &mut S, tags: &[Tag<'_>])
    ensures taken { Takes S.ends_as line.old (tags_field (map tag_of tags.now)) line.new }
    ensures sized { AreTagsInMemory (map tag_of tags.now) }
    ensures few { length (map tag_of tags.now) < 2 ^ 58 }
{
    if !tags.is_empty() {
        mem::replace_with(line, tags, line_with_tags);
    }
}

// Writes the fields of a container, an enrichment and a time, which end a line.
pub(crate) fn push_last<S: PieceWriter>(
    line: &mut S,
    container: Option<&str>,
    enrichment: &Enrichment<'_>,
    time: Option<u64>,
)
    ensures taken { Takes S.ends_as line.old (container_field (option_copied container.entry)
        ++ (enrichment_fields (enrichment_of enrichment.now) ++ time_field time)) line.new }
    ensures container { IfSome (option_copied container.entry) IsTextInMemory }
    ensures external { IfSome (enrichment_of enrichment.now).external IsTextInMemory }
    ensures time { IsTimestamp time }
{
    if let Some(container) = container {
        line.take_byte(b'|');
        line.take_byte(b'c');
        line.take_byte(b':');
        line.take_piece(container);
    }
    if let Some(external) = enrichment.external {
        line.take_piece("|e:");
        line.take_piece(external);
    }
    if let Some(cardinality) = enrichment.cardinality {
        line.take_piece("|card:");
        line.take_piece(cardinality.text());
    }
    if let Some(time) = time {
        line.take_byte(b'|');
        line.take_byte(b'T');
        line.take_number(time);
    }
}

// Writes what `push_last` writes, with a cleaned container. Few clients clean texts, so the path of the others has no
// part of this.
#[cold]
#[inline(never)]
fn push_cleaned_last<A: Allocator>(
    line: &mut LineBuf<A>,
    container: Option<&str>,
    enrichment: &Enrichment<'_>,
    time: Option<u64>,
)
    ensures { Takes line_buf_ends line.old (container_field
        (container_as true (option_copied container.entry))
        ++ (enrichment_fields (enrichment_of enrichment.now) ++ time_field time)) line.new }
{
    if let Some(container) = container {
        line.take_byte(b'|');
        line.take_byte(b'c');
        line.take_byte(b':');
        line.take_cleaned(container, false);
    }
    push_last(line, None, enrichment, time);
}

// Writes what `push_last` writes. The container is written as it is, or cleaned.
pub(crate) fn push_last_as<A: Allocator>(
    line: &mut LineBuf<A>,
    container: Option<&str>,
    enrichment: &Enrichment<'_>,
    time: Option<u64>,
    is_cleaned: bool,
)
    ensures { Takes line_buf_ends line.old (container_field
        (container_as is_cleaned (option_copied container.entry))
        ++ (enrichment_fields (enrichment_of enrichment.now) ++ time_field time)) line.new }
{
    if is_cleaned {
        return push_cleaned_last(line, container, enrichment, time);
    }
    push_last(line, container, enrichment, time)
}
