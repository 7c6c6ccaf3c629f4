//! The draft of a line: the line of a metric while tags and options are added to it. `head` has the head with which a line
//! begins, `tags` the tags at the end of a line and the text of default tags, and `text` the drafts whose value is a text.
//!
//! Every line that the library makes is made by a draft: the line of a plain call, of a builder, of a call in a
//! schedule, of a C call and of the words of a command line.
//!
//! A clause `representable` is a fact about the arguments, for proofs: they are texts in UTF-8 and
//! numbers in range.
mod head;
mod tags;
mod text;

ghost use Rattle.std.specs.Prelude.{◌≡◌, ◌+◌, ◌++◌, ◌<◌, ◌≤◌, ◌^◌, [], IfOk, IsUtf8, OnErr, OnOk, length, string_bytes};
ghost use Rattle.std.specs.Option.{option_copied};
ghost use Rattle.cadence_text.specs.Cleaned.{container_as, tag_as, text_as};
ghost use Rattle.cadence_text.specs.Draft.{draft_line, draft_of, with_tag_text};
ghost use Rattle.cadence_text.specs.DraftParts.{IsRepresentableHead, draft_of_head, plain_draft, text_of_head};
ghost use Rattle.cadence_text.specs.Line.{container_field, enrichment_fields, line_of, time_field};
ghost use Rattle.cadence_text.specs.Metric.{Enrichment, Metric, with_tag};
ghost use Rattle.cadence_text.specs.Record.{enrichment_of, tag_of};
ghost use Rattle.cadence_text.specs.Representable.{IsRepresentableTag};
ghost use Rattle.cadence_value.specs.Number.{IsDecimal};

use crate::line::enrichment::{Cardinality, Enrichment};
use crate::line::line_buf::LineBuf;
use crate::line::options::{Rate, insert_rate, last_room};
use crate::line::pieces::push_last_as;
use crate::line::tag::Tag;
use cadence_value::decimal::Decimal;
use cadence_value::text::PieceWriter;
pub use head::Head;
use head::head_count;
pub(crate) use head::push_head;
use std::alloc::{AllocError, Allocator, Global};
use std::marker::Model;
pub use tags::TagsText;
use tags::add_to;
pub use text::{TextValue, is_member};

/// The draft of a line, to which tags and options can be added until the line is finished. The Rust crate has no such
/// type.
///
/// The buffer has the head and the tags. The other options are fields of the draft until `into_text` or `into_bytes`
/// writes them. Contracts see the value as a `Draft` of the definitions.
#[derive(Drop)]
pub struct DraftLine<'a, A: Allocator = Global> {
    line: LineBuf<A>,
    head: usize,
    container: Option<&'a str>,
    enrichment: Enrichment<'a>,
    time: Option<u64>,
    rate: Option<Rate>,
    // Whether the container is cleaned when it is written.
    is_cleaned: bool,
}

impl<'a, A: Allocator> Model for DraftLine<'a, A> {
    ghost use Rattle.cadence_text.specs.Draft.{Draft};
    ghost use Rattle.cadence_text.specs.DraftParts.{IsCutAt, draft_of_inside};

    ghost Value = { Draft };

    ghost view = { draft_of_inside };

    ghost invariant = { λ d. IsCutAt d.head d.line.bytes.items };
}

// Writes a head and the text of tags into an empty buffer, and returns the draft of them.
// Without this hint a call of `bench count` takes 141 instructions more.
#[inline(always)]
fn written<'a, A: Allocator, B: Allocator>(
    line: LineBuf<A>,
    first: usize,
    head: &Head<'_, B>,
    tags: &str,
    container: Option<&'a str>,
) -> DraftLine<'a, A>
    requires empty { line.bytes.items ≡ [] }
    requires first { first ≡ length (text_of_head head.now) }
    requires room { first + length tags.now ≤ line.end }
    ensures draft { result ≡ draft_of_head head.now tags.now (option_copied container.entry) }
    ensures representable { IsRepresentableHead head.now }
{
    let mut line = line;
    push_head(&mut line, head);
    with_tags(line, first, tags, container)
}

// Writes the text of tags after a head of `first` bytes, and returns the draft of them. It is inlined into `written`,
// which has the hint.
#[inline(always)]
fn with_tags<'a, A: Allocator>(
    line: LineBuf<A>,
    first: usize,
    tags: &str,
    container: Option<&'a str>,
) -> DraftLine<'a, A>
    requires first { first ≡ length line.bytes.items }
    requires some { 0 < first }
    requires room { first + length tags.now ≤ line.end }
    ensures { result ≡
        plain_draft line.bytes.items tags.now (option_copied container.entry) }
{
    let mut line = line;
    line.take_piece(tags);
    DraftLine {
        line,
        head: first,
        rate: None,
        container,
        enrichment: Enrichment {
            external: None,
            cardinality: None,
        },
        time: None,
        is_cleaned: false,
    }
}

// Returns the length of a head, which is `count`, and the length of the head with the text of tags and `more` bytes.
// Without this hint a call of `bench count` takes 46 instructions more.
#[inline(always)]
fn room_for(count: u128, tags: &str, more: usize) -> Result<(usize, usize), AllocError>
    ensures head { IfOk result (λ r. r.0 ≡ count) }
    ensures room { IfOk result (λ r. r.0 + length tags.now ≤ r.1) }
{
    let Ok(first) = usize::try_from(count) else {
        return Err(AllocError);
    };
    let Some(length) = first.checked_add(tags.len()) else {
        return Err(AllocError);
    };
    Ok((first, length.saturating_add(more)))
}

impl<'a, A: Allocator> DraftLine<'a, A> {
    /// Returns the draft of a head, of tags that are text already and of a container, without other options. It takes
    /// memory once, for the text and for `more` bytes, so that tags of that length take none.
    ///
    /// The only error is that memory ran out or that the length passes `usize::MAX`.
    // Without this hint a call of `bench count` takes 134 instructions more.
    #[inline(always)]
    pub fn new<B: Allocator>(
        alloc: A,
        head: &Head<'_, B>,
        tags: &str,
        container: Option<&'a str>,
        more: usize,
    ) -> Result<DraftLine<'a, A>, AllocError>
        ensures draft { IfOk result (λ draft.
            draft ≡ draft_of_head head.now tags.now (option_copied container.entry)) }
        ensures representable { OnOk result (IsRepresentableHead head.now) }
    {
        let (first, room) = room_for(head_count(head), tags, more)?;
        let line = LineBuf::with_room(alloc, room)?;
        Ok(written(line, first, head, tags, container))
    }

    /// Returns the draft that `new` returns, but writes it into a buffer of the caller's, in place of its text. It
    /// takes memory only if the buffer is too short. After an error the buffer is freed.
    pub fn in_buffer<B: Allocator>(
        buffer: Vec<u8, A>,
        head: &Head<'_, B>,
        tags: &str,
        container: Option<&'a str>,
        more: usize,
    ) -> Result<DraftLine<'a, A>, AllocError>
        ensures draft { IfOk result (λ draft.
            draft ≡ draft_of_head head.now tags.now (option_copied container.entry)) }
        ensures representable { OnOk result (IsRepresentableHead head.now) }
    {
        let (first, room) = room_for(head_count(head), tags, more)?;
        let line = LineBuf::in_buffer(buffer, room)?;
        Ok(written(line, first, head, tags, container))
    }

    /// Adds a tag after the tags that the draft has. It takes memory if the buffer has no room left. After an error,
    /// which says that memory ran out, the draft is unchanged.
    // Without this hint a call of `bench count_tags` takes 281 instructions more.
    #[inline(always)]
    #[tactic(auto, using(crate::proofs::writing::DraftText::tag_of_metric))]
    pub fn add_tag(&mut self, tag: Tag<'_>) -> Result<(), AllocError>
        ensures ok { OnOk result (self.new ≡ with_tag_text self.old (tag_of tag.entry)) }
        ensures metric { OnOk result ((m : Metric) → self.old ≡ draft_of m →
            self.new ≡ draft_of (with_tag m (tag_of tag.entry))) }
        ensures representable { OnOk result (IsRepresentableTag (tag_of tag.entry)) }
        ensures err { OnErr result (self.new ≡ self.old) }
    {
        let begun = self.line.len() > self.head;
        add_to(&mut self.line, begun, &tag, false)
    }

    /// Adds a tag as `add_tag` does, with cleaned texts (`cleaned`) if `is_cleaned` is set.
    #[inline(always)]
    #[tactic(auto, using(crate::proofs::writing::DraftText::tag_of_metric))]
    pub fn add_tag_as(&mut self, tag: Tag<'_>, is_cleaned: bool) -> Result<(), AllocError>
        ensures ok { OnOk result (self.new ≡
            with_tag_text self.old (tag_as is_cleaned (tag_of tag.entry))) }
        ensures metric { OnOk result ((m : Metric) → self.old ≡ draft_of m →
            self.new ≡ draft_of (with_tag m (tag_as is_cleaned (tag_of tag.entry)))) }
        ensures representable { OnOk result
            (IsRepresentableTag (tag_as is_cleaned (tag_of tag.entry))) }
        ensures err { OnErr result (self.new ≡ self.old) }
    {
        let begun = self.line.len() > self.head;
        add_to(&mut self.line, begun, &tag, is_cleaned)
    }

    /// Sets the sampling rate, in place of an earlier one. The rate isn't checked to be between 0 and 1.
    pub fn set_rate(&mut self, rate: Decimal)
        ensures rate { self.new ≡ record self.old { rate = Some rate } }
        ensures representable { IsDecimal rate }
    {
        self.rate = Some(Rate::of(rate));
    }

    /// Sets the id of the container (DogStatsD), in place of an earlier one. It is cleaned (`cleaned`) if `is_cleaned` is
    /// set.
    pub fn set_container_as(&mut self, container: &'a str, is_cleaned: bool)
        ensures container { self.new ≡
            record self.old { container = Some (text_as is_cleaned container.now) } }
        ensures representable { IsUtf8 (text_as is_cleaned container.now) }
    {
        self.container = Some(container);
        self.is_cleaned = is_cleaned;
    }

    /// Sets the external data and the cardinality (DogStatsD), in place of earlier ones.
    #[inline(always)]
    pub fn set_enrichment(&mut self, enrichment: Enrichment<'a>)
        ensures { self.new ≡ record self.old { enrichment = enrichment_of enrichment.entry } }
    {
        self.enrichment = enrichment;
    }

    /// Sets the cardinality (DogStatsD), in place of an earlier one.
    pub fn set_cardinality(&mut self, cardinality: Cardinality)
        ensures { self.new ≡ record self.old
            { enrichment = record (self.old).enrichment { cardinality = Some cardinality } } }
    {
        self.enrichment.cardinality = Some(cardinality);
    }

    /// Sets the timestamp (DogStatsD, in seconds since 1970), in place of an earlier one.
    pub fn set_time(&mut self, time: u64)
        ensures time { self.new ≡ record self.old { time = Some time } }
        ensures representable { time < 2 ^ 64 }
    {
        self.time = Some(time);
    }

    /// Returns the finished line. It takes memory if the buffer has too little room for the rate and the options that
    /// end a line. The only error is that memory ran out; the draft is dropped then.
    // Without this hint a call of `bench count` takes 77 instructions more.
    #[inline(always)]
    #[tactic(auto, using(crate::proofs::writing::DraftText::line_of_metric))]
    pub fn into_text(self) -> Result<String<A>, AllocError>
        ensures text { IfOk result (λ text. string_bytes text ≡ draft_line self.entry) }
        ensures metric { IfOk result (λ text. (m : Metric) → self.entry ≡ draft_of m →
            string_bytes text ≡ line_of m) }
    {
        Ok(self.finish()?.into_text())
    }

    /// Returns the finished line as bytes, so that a caller can use their buffer for the next line. The error is the
    /// one of `into_text`.
    // Without this hint a counter of `bindings/c/speed.c` takes 31 instructions more.
    #[inline(always)]
    #[tactic(auto, using(crate::proofs::writing::DraftText::line_of_metric))]
    pub fn into_bytes(self) -> Result<Vec<u8, A>, AllocError>
        ensures text { IfOk result (λ line. line.items ≡ draft_line self.entry) }
        ensures metric { IfOk result (λ line. (m : Metric) → self.entry ≡ draft_of m →
            line.items ≡ line_of m) }
    {
        Ok(self.finish()?.into_bytes())
    }

    // Writes the options, and returns the finished line.
    // Without this hint a call of `bench count` takes 63 instructions more.
    #[inline(always)]
    fn finish(self) -> Result<LineBuf<A>, AllocError>
        ensures { IfOk result (λ line. line.bytes.items ≡ draft_line self.entry) }
    {
        let DraftLine {
            line,
            head,
            rate,
            container,
            enrichment,
            time,
            is_cleaned,
        } = self;
        let mut line = line;
        if rate.is_some() {
            insert_rate(&mut line, head, &rate)?;
        }
        end_with(&mut line, container, &enrichment, time, is_cleaned)?;
        Ok(line)
    }
}

// Writes the fields of a container, an enrichment and a time at the end of a line.
// Without this hint a call of `bench count` takes 21 instructions more.
#[inline(always)]
fn end_with<A: Allocator>(
    line: &mut LineBuf<A>,
    container: Option<&str>,
    enrichment: &Enrichment<'_>,
    time: Option<u64>,
    is_cleaned: bool,
) -> Result<(), AllocError>
    requires { 0 < length line.old.bytes.items }
    ensures { OnOk result (line.new.bytes.items ≡ line.old.bytes.items
        ++ (container_field (container_as is_cleaned (option_copied container.entry))
        ++ (enrichment_fields (enrichment_of enrichment.now) ++ time_field time))) }
{
    let is_plain = enrichment.external.is_none() && enrichment.cardinality.is_none();
    if is_plain && container.is_none() && time.is_none() {
        return Ok(());
    }
    let Some(room) = last_room(container, enrichment, time) else {
        return Err(AllocError);
    };
    line.reserve(room)?;
    push_last_as(line, container, enrichment, time, is_cleaned);
    Ok(())
}
