//! A metric that owns its texts.
ghost use Rattle.std.specs.Prelude.{◌≡◌, IfOk, map};

use crate::line::enrichment::Enrichment;
use crate::line::options::Rate;
use crate::line::{Head, MetricType, OwnedTag, Record, lend_tags};
use cadence_errors::MetricResult;
use cadence_value::decimal::Decimal;
use cadence_value::value::MetricValue;
use std::alloc::{AllocError, Allocator, Global};

/// A metric that owns its texts, for example one that was read from a line. It has neither external data nor a
/// cardinality.
#[derive(Drop)]
#[derive_where(Debug, PartialEq, Eq)]
pub struct OwnedMetric<A: Allocator = Global> {
    /// The whole name: a client's prefix and key.
    pub name: String<A>,
    /// The numbers, in the order of the line.
    pub numbers: Vec<Decimal, A>,
    /// The kind. Any kind can have any numbers.
    pub kind: MetricType,
    /// The sampling rate, if the line has one: the share of events that are sent, between 0 and 1. At 0.1 a server
    /// counts each received number of a counter ten times.
    pub rate: Option<Decimal>,
    /// The tags, in the order of the line.
    pub tags: Vec<OwnedTag<A>, A>,
    /// The id of the container in which the sender runs, if the line has one (DogStatsD).
    pub container: Option<String<A>>,
    /// The time of the metric in seconds since 1970, if the line has one (DogStatsD).
    pub time: Option<u64>,
}

impl<A: Allocator + Clone> OwnedMetric<A> {
    ghost use Rattle.std.specs.Prelude.{◌≡◌, IfOk, string_bytes};
    ghost use Rattle.cadence_errors.specs.Errors.{Makes, MayOnlyRunOutOfMemory};
    ghost use Rattle.cadence_text.specs.Line.{line_of};
    ghost use Rattle.cadence_text.specs.Owned.{metric_of_owned};

    /// Returns the metric as a record whose prefix is empty. The record borrows the texts and has a copy of the
    /// numbers. The copy and the list of tags are allocated from the allocator of the metric's tags.
    ///
    /// The only error is `SinkError::OutOfMemory`.
    pub fn to_record(&self) -> MetricResult<Record<'_, A>>
        ensures { Makes (metric_of_owned self.now) result }
    {
        let alloc = self.tags.allocator();
        let numbers = Vec::from_slice(alloc.clone()?, &self.numbers)?;
        let tags = lend_tags(alloc.clone()?, &self.tags)?;
        Ok(Record {
            head: Head {
                prefix: "",
                key: &self.name,
                value: MetricValue::PackedDecimal(numbers),
                kind: self.kind,
            },
            rate: self.rate.map(Rate::of),
            tags,
            container: self.container.as_ref().map(|id| id.as_str()),
            enrichment: Enrichment {
                external: None,
                cardinality: None,
            },
            time: self.time,
        })
    }

    /// Returns the line of the metric. The line, a copy of the numbers and a list of the tags are allocated from the
    /// allocator of the metric's tags.
    ///
    /// The only error is `SinkError::OutOfMemory`.
    pub fn line(&self) -> MetricResult<String<A>>
        ensures line { IfOk result (λ line.
            string_bytes line ≡ line_of (metric_of_owned self.now)) }
        ensures refused { MayOnlyRunOutOfMemory result }
    {
        let record = self.to_record()?;
        record.format(self.tags.allocator().clone()?)
    }
}
