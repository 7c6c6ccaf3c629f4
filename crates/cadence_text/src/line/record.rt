//! A metric as data: what its line is made of.

mod owned;
mod same;

use crate::line::MetricType;
use crate::line::draft::{Head, push_head};
use crate::line::enrichment::Enrichment;
use crate::line::line_buf::{LengthCounter, LineBuf};
use crate::line::options::{Rate, push_rate};
use crate::line::pieces::{push_last, push_tags};
use crate::line::tag::Tag;
use cadence_errors::MetricResult;
use cadence_value::decimal::Decimal;
use cadence_value::text::PieceWriter;
use cadence_value::value::MetricValue;
pub use owned::OwnedMetric;
use std::alloc::{AllocError, Allocator, Global};
use std::marker::Model;

/// A metric as data. It borrows its texts and has its numbers in the form in which they were given. Contracts see it as
/// its metric, whose name is the prefix and then the key. The Rust crate has no such type.
///
/// ```
/// let one = MetricValue::Signed(1);
/// let mut record = Record::new(alloc, "app.", "visits", MetricType::Counter, one);
/// record.add_tag(Tag {
///     key: Some("page"),
///     text: "home",
/// })?;
/// let line = record.format(alloc)?; // app.visits:1|c|#page:home
/// ```
#[derive(Drop)]
pub struct Record<'a, A: Allocator = Global> {
    head: Head<'a, A>,
    rate: Option<Rate>,
    tags: Vec<Tag<'a>, A>,
    container: Option<&'a str>,
    enrichment: Enrichment<'a>,
    time: Option<u64>,
}

impl<'a, A: Allocator> Model for Record<'a, A> {
    ghost use Rattle.cadence_text.specs.Metric.{Metric};

    ghost Value = { Metric };

    ghost use Rattle.cadence_text.specs.Record.{metric_of};

    ghost view = { metric_of };
}

impl<'a, A: Allocator> Record<'a, A> {
    ghost use Rattle.std.specs.Prelude.{◌≡◌, ◌++◌, ◌<◌, ◌^◌, [], Some, SomeIff, OnOk, OnErr, IfOk, length, map};
    ghost use Rattle.std.specs.Option.{option_copied};
    ghost use Rattle.std.specs.String.{string_bytes};
    ghost use Rattle.std.specs.Vec.{vec_capacity};
    ghost use Rattle.cadence_errors.specs.Errors.{MayOnlyRunOutOfMemory};
    ghost use Rattle.cadence_text.specs.Line.{line_of};
    ghost use Rattle.cadence_text.specs.Metric.{Metric, plain_metric, with_tag};
    ghost use Rattle.cadence_text.specs.Record.{enrichment_of, tag_of};
    ghost use Rattle.cadence_text.specs.MetricInMemory.{IsMetricInMemory};
    ghost use Rattle.cadence_text.specs.Representable.{IsRepresentable};
    ghost use Rattle.cadence_value.specs.Takes.{Takes};
    ghost use Rattle.cadence_value.specs.Values.{numbers_of};

    /// Returns a record without optional fields. The prefix is used as it is: no dot is added. It takes no memory;
    /// `alloc` is for tags that are added later.
    pub fn new(
        alloc: A,
        prefix: &'a str,
        key: &'a str,
        kind: MetricType,
        value: MetricValue<A>,
    ) -> Record<'a, A>
        ensures { result ≡ plain_metric (prefix.now ++ key.now) (numbers_of value) kind }
    {
        Record::with_defaults(prefix, key, kind, value, Vec::new(alloc), None)
    }

    /// Returns a record with tags and a container, without other optional fields. It takes no memory.
    pub fn with_defaults(
        prefix: &'a str,
        key: &'a str,
        kind: MetricType,
        value: MetricValue<A>,
        tags: Vec<Tag<'a>, A>,
        container: Option<&'a str>,
    ) -> Record<'a, A>
        ensures { result ≡ record (plain_metric (prefix.now ++ key.now) (numbers_of value) kind)
            { tags = map tag_of tags.entry.items; container = option_copied container.entry } }
    {
        Record {
            head: Head {
                prefix,
                key,
                value,
                kind,
            },
            rate: None,
            tags,
            container,
            enrichment: Enrichment {
                external: None,
                cardinality: None,
            },
            time: None,
        }
    }

    /// Adds a tag after the tags that the record has. After an error, which says that memory ran out, the record is
    /// unchanged.
    pub fn add_tag(&mut self, tag: Tag<'a>) -> Result<(), AllocError>
        ensures ok { OnOk result (self.new ≡ with_tag self.old (tag_of tag.entry)) }
        ensures err { OnErr result (self.new ≡ self.old) }
    {
        self.tags.push(tag)?;
        Ok(())
    }

    /// Sets the sampling rate, in place of an earlier one. The rate isn't checked to be between 0 and 1.
    pub fn set_rate(&mut self, rate: Decimal)
        ensures { self.new ≡ record self.old { rate = Some rate } }
    {
        self.rate = Some(Rate::of(rate));
    }

    /// Sets the id of the container (DogStatsD), in place of an earlier one.
    pub fn set_container(&mut self, container: &'a str)
        ensures { self.new ≡ record self.old { container = Some container.now } }
    {
        self.container = Some(container);
    }

    /// Sets the external data and the cardinality (DogStatsD), in place of earlier ones.
    pub fn set_enrichment(&mut self, enrichment: Enrichment<'a>)
        ensures { self.new ≡ record self.old { enrichment = enrichment_of enrichment.entry } }
    {
        self.enrichment = enrichment;
    }

    /// Sets the timestamp (DogStatsD, in seconds since 1970), in place of an earlier one.
    pub fn set_time(&mut self, time: u64)
        ensures { self.new ≡ record self.old { time = Some time } }
    {
        self.time = Some(time);
    }

    #[tactic(auto, using(std::proofs::lemmas::Grind::common_steps), unfolding(crate::specs::Line::line_of))]
    fn push_line<S: PieceWriter>(&self, line: &mut S)
        ensures taken { Takes S.ends_as line.old (line_of self.now) line.new }
        ensures sized { IsMetricInMemory self.now }
    {
        push_head(line, &self.head);
        push_rate(line, &self.rate);
        push_tags(line, &self.tags);
        push_last(line, self.container, &self.enrichment, self.time);
    }

    /// Returns the length of the line in bytes, without making the line. It returns `None` only if the length passes
    /// `usize::MAX`. It takes no memory.
    pub fn line_len(&self) -> Option<usize>
        ensures { SomeIff result (length (line_of self.now) < 2 ^ 64) (length (line_of self.now)) }
    {
        usize::try_from(self.counted()).ok()
    }

    // Returns the length of the line in bytes. The line of every record is shorter than 2 to the 128.
    fn counted(&self) -> u128
        ensures { result ≡ length (line_of self.now) }
    {
        let mut counter = LengthCounter::new();
        self.push_line(&mut counter);
        counter.length()
    }

    // Returns a buffer of exactly the length of the line.
    fn reserved<B: Allocator>(&self, alloc: B) -> Result<LineBuf<B>, AllocError>
        ensures empty { IfOk result (λ f. f.bytes.items ≡ []) }
        ensures end { IfOk result (λ f. f.end ≡ length (line_of self.now)) }
        ensures exact { IfOk result (λ f. vec_capacity f.bytes ≡ length (line_of self.now)) }
    {
        let Some(length) = self.line_len() else {
            return Err(AllocError);
        };
        LineBuf::with_room(alloc, length)
    }

    /// Returns the line of the record's metric, which is never empty. Its fields have this order: name, numbers, type
    /// text, rate, tags, container, external data, cardinality, time. It takes memory once, as many bytes as the line
    /// has (`line_len`).
    ///
    /// The only error is `SinkError::OutOfMemory`: memory ran out, or the length passes `usize::MAX`.
    #[tactic(auto, using(crate::proofs::grammar::LineText::line_is_not_empty, crate::proofs::writing::LineLength::record_said))]
    pub fn format<B: Allocator>(&self, alloc: B) -> MetricResult<String<B>>
        ensures line { IfOk result (λ line. string_bytes line ≡ line_of self.now) }
        ensures refused { MayOnlyRunOutOfMemory result }
        ensures representable { OnOk result (IsRepresentable self.now) }
        ensures not_empty { 0 < length (line_of self.now) }
    {
        let mut line = self.reserved(alloc)?;
        self.push_line(&mut line);
        Ok(line.into_text())
    }
}
