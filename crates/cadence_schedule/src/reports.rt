//! The report of a run: its replies, its packets, and what is left in the queue, in hand and in the packer.

use super::packing::Packing;
use super::running::Running;
use super::steps::Reply;
use cadence_flow::io::{CountingWriter, PacketWriter};
use cadence_flow::stats::SinkStats;
use cadence_queue::QueueCore;
use std::alloc::{Allocator, Global};

/// The report of a run, as [`run_schedule_with`](crate::run_schedule_with) returns it. Dropping it sends nothing: the
/// held text stays unsent. The Rust crate has no such type.
#[derive(Drop)]
pub struct Report<W, A: Allocator = Global> {
    pub(crate) replies: Vec<Reply, A>,
    pub(crate) cut: Vec<usize, A>,
    pub(crate) held: Vec<u8, A>,
    pub(crate) queue: QueueCore<String<A>, A>,
    pub(crate) in_hand: Option<String<A>>,
    pub(crate) stats: SinkStats,
    pub(crate) writer: W,
}

impl<W, A: Allocator> Report<W, A> {
    ghost use Rattle.std.specs.Prelude.{◌≡◌, option_copied};
    ghost use Rattle.cadence_schedule.specs.Report.{outcome_of};

    /// Returns the replies, one to each step, in the order of the steps.
    pub fn replies(&self) -> &[Reply]
        ensures { result.now ≡ (outcome_of self.now).replies }
    {
        self.replies.as_slice()
    }

    /// Returns how many lines each packet has that the writer took, in order. If the packer still holds text, the last
    /// number is that of the lines held. For a writer that may take only a part of a packet, nothing is promised of
    /// this list.
    pub fn cut(&self) -> &[usize]
        ensures { result.now ≡ (outcome_of self.now).cut }
    {
        self.cut.as_slice()
    }

    /// Returns the text that the packer still holds. It has at most as many bytes as the capacity of the packer.
    pub fn held(&self) -> &[u8]
        ensures { result.now ≡ (outcome_of self.now).held }
    {
        self.held.as_slice()
    }

    /// Returns the queue, with its capacity, its policy, the lines that still wait in it and its counts.
    pub fn queue(&self) -> &QueueCore<String<A>, A>
        ensures { result.now ≡ (outcome_of self.now).queue }
    {
        &self.queue
    }

    /// Returns the line that the worker took from the queue and did not hand to the packer, if there is one.
    pub fn in_hand(&self) -> Option<&str>
        ensures { option_copied result ≡ (outcome_of self.now).in_hand }
    {
        self.in_hand.as_ref().map(|line| line.as_str())
    }

    /// Returns how many bytes and packets the writer took and refused during the run, each modulo 2 to the 64.
    pub fn stats(&self) -> SinkStats
        ensures { result ≡ (outcome_of self.now).stats }
    {
        self.stats
    }

    /// Returns the writer, with the packets that it took.
    pub fn writer(&self) -> &W
        ensures { result.now ≡ (outcome_of self.now).writer }
    {
        &self.writer
    }
}

impl<W: PacketWriter, A: Allocator> Report<W, A> {
    ghost use Rattle.std.specs.Prelude.{◌≡◌, ◌<◌, ◌≤◌, ◌^◌, length};
    ghost use Rattle.cadence_schedule.specs.RunOutcome.{outcome_after};
    ghost use Rattle.cadence_schedule.specs.Report.{outcome_of};

    // Makes the report of a run after its last step.
    pub(crate) fn of(
        running: Running<Packing<CountingWriter<W>, A>, A>,
        replies: Vec<Reply, A>,
    ) -> Report<W, A>
        ensures outcome { outcome_of result ≡ outcome_after running running.stage replies }
        ensures held { length (outcome_of result).held ≤ running.stage.packer.format.capacity }
        ensures bytes_sent { (outcome_of result).stats.bytes_sent < 2 ^ 64 }
        ensures packets_sent { (outcome_of result).stats.packets_sent < 2 ^ 64 }
    {
        let Running {
            queue,
            in_hand,
            stage,
        } = running;
        let Packing { packer, cut, .. } = stage;
        let (counting, held) = packer.into_parts();
        let (writer, stats) = counting.into_parts();
        Report {
            replies,
            cut,
            held,
            queue,
            in_hand,
            stats,
            writer,
        }
    }
}
