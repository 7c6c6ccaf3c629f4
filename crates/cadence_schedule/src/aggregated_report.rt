//! What a run returns.
use crate::steps::Reply;
use cadence_aggregate::Aggregator;
use cadence_aggregating::WaitingLines;
use cadence_errors::SinkError;
use cadence_flow::stats::SinkStats;
use cadence_queue::QueueCore;
use std::alloc::{AllocError, Allocator, Global};

/// The report of a run with an aggregator, as [`run_schedule_aggregated`](crate::run_schedule_aggregated) returns it.
/// Dropping it sends nothing. The Rust crate has no such type.
#[derive(Drop)]
pub struct AggregatedReport<W, A: Allocator = Global> {
    /// The replies, one to each step, in the order of the steps.
    pub replies: Vec<Reply, A>,
    /// How many lines each packet has that the writer took, in order. If the packer still holds text, the last number
    /// is that of the lines held.
    pub cut: Vec<usize, A>,
    /// The text that the packer still holds.
    pub held: Vec<u8, A>,
    /// The queue, with its capacity, its policy, the lines that still wait in it and its counts.
    pub queue: QueueCore<String<A>, A>,
    /// The line that the worker took from the queue and did not hand to the aggregator, if there is one.
    pub in_hand: Option<String<A>>,
    /// How many bytes and packets the writer took and refused during the run, each modulo 2 to the 64.
    pub stats: SinkStats,
    /// The writer, with the packets that it took.
    pub writer: W,
    /// What the aggregator still holds.
    pub aggregator: Aggregator,
}

impl<W, A: Allocator> AggregatedReport<W, A> {
    ghost use Rattle.std.specs.Prelude.{◌≡◌, IfOk, map, string_bytes};
    ghost use Rattle.cadence_aggregating.specs.Printed.{line_saying};
    ghost use Rattle.cadence_schedule.specs.Aggregated.{held_in_report};

    /// Returns the lines that the next flush would send to the packer, in order. The aggregator forgets them.
    ///
    /// # Errors
    /// Memory ran out. Some of the lines are lost then.
    pub fn take_lines(&mut self, alloc: Global) -> Result<Vec<String>, AllocError>
        ensures { IfOk result (λ lines.
            map string_bytes lines.items ≡ map line_saying (held_in_report self.old)) }
    {
        let mut waiting = WaitingLines::new(alloc);
        let mut fault = SinkError::NothingWritten;
        match self.aggregator.flush(&mut waiting, &mut fault) {
            Some(()) => waiting.into_texts(),
            None => Err(AllocError),
        }
    }
}
