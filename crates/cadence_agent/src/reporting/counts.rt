//! The counts of a sink at one moment, and by how much they grew between two moments.
ghost use Rattle.std.specs.Prelude.{◌≡◌, ◌++◌, IfOk, OnOk};
ghost use Rattle.cadence_flow.specs.Sums.{less};
ghost use Rattle.cadence_agent.specs.Counts.{growth_if_any, growths_between, name_of, number_of, without_growth};

use cadence::SinkStats;
use std::alloc::{AllocError, Allocator};

/// One of the counts of a sink.
#[derive(Clone, Copy, Debug, PartialEq, Eq)]
pub enum Count {
    /// The bytes that the sink sent.
    BytesSent,
    /// The packets that the sink sent.
    PacketsSent,
    /// The bytes of the packets that the sink dropped.
    BytesDropped,
    /// The packets that the sink dropped.
    PacketsDropped,
    /// The lines that a full queue dropped to make room for later ones.
    LinesDropped,
    /// The lines that the sink refused with an error.
    LinesRefused,
}

impl Count {
    /// Returns the name of the counter that reports this count.
    pub fn name(self) -> &'static str
        ensures { result.now ≡ name_of self }
    {
        match self {
            Count::BytesSent => "bytes_sent",
            Count::PacketsSent => "packets_sent",
            Count::BytesDropped => "bytes_dropped",
            Count::PacketsDropped => "packets_dropped",
            Count::LinesDropped => "lines_dropped",
            Count::LinesRefused => "lines_refused",
        }
    }
}

/// By how much a count grew.
#[derive(Clone, Copy, Debug, PartialEq, Eq)]
pub struct Growth {
    /// Which count grew.
    pub count: Count,
    /// By how many bytes, packets or lines it grew.
    pub number: u64,
}

/// The counts of a sink at one moment, each modulo 2 to the 64.
#[derive(Clone, Copy, Debug, Default, PartialEq, Eq)]
pub struct SinkCounts {
    /// The bytes and packets that were sent and dropped.
    pub stats: SinkStats,
    /// The lines that a full queue dropped to make room for later ones.
    pub lines_dropped: u64,
    /// The lines that the sink refused with an error.
    pub lines_refused: u64,
}

// Returns the count minus the number, modulo 2 to the 64.
fn less(count: u64, number: u64) -> u64
    ensures { result ≡ less count number }
{
    count.wrapping_sub(number)
}

impl SinkCounts {
    /// Returns the number of this count.
    pub fn number(&self, count: Count) -> u64
        ensures { result ≡ number_of self.now count }
    {
        match count {
            Count::BytesSent => self.stats.bytes_sent,
            Count::PacketsSent => self.stats.packets_sent,
            Count::BytesDropped => self.stats.bytes_dropped,
            Count::PacketsDropped => self.stats.packets_dropped,
            Count::LinesDropped => self.lines_dropped,
            Count::LinesRefused => self.lines_refused,
        }
    }

    /// Takes a growth back: subtracts its number from its count, modulo 2 to the 64. So the growth of this count since
    /// these counts is greater by this number.
    pub fn take_back(&mut self, growth: Growth)
        ensures { self.new ≡ without_growth self.old growth }
    {
        let number = growth.number;
        match growth.count {
            Count::BytesSent => self.stats.bytes_sent = less(self.stats.bytes_sent, number),
            Count::PacketsSent => self.stats.packets_sent = less(self.stats.packets_sent, number),
            Count::BytesDropped => self.stats.bytes_dropped = less(
                self.stats.bytes_dropped,
                number,
            ),
            Count::PacketsDropped => self.stats.packets_dropped = less(
                self.stats.packets_dropped,
                number,
            ),
            Count::LinesDropped => self.lines_dropped = less(self.lines_dropped, number),
            Count::LinesRefused => self.lines_refused = less(self.lines_refused, number),
        }
    }
}

// Adds the growth of this count to the list, unless the count stayed the same.
fn push_growth<A: Allocator>(
    growths: &mut Vec<Growth, A>,
    last: &SinkCounts,
    now: &SinkCounts,
    count: Count,
) -> Result<(), AllocError>
    ensures { OnOk result (growths.new.items ≡
        growths.old.items ++ growth_if_any last.now now.now count) }
{
    let number = less(now.number(count), last.number(count));
    if number != 0 {
        growths.push(Growth { count, number })?;
    }
    Ok(())
}

/// Returns by how much the counts of a sink grew between two moments, in the order of `Count`. A count that stayed the
/// same is left out. Differences are modulo 2 to the 64, as the counts are. The only error is that memory ran out.
pub fn growths_between<A: Allocator>(
    alloc: A,
    last: &SinkCounts,
    now: &SinkCounts,
) -> Result<Vec<Growth, A>, AllocError>
    ensures { IfOk result (λ list. list.items ≡ growths_between last.now now.now) }
{
    let mut growths = Vec::new(alloc);
    push_growth(&mut growths, last, now, Count::BytesSent)?;
    push_growth(&mut growths, last, now, Count::PacketsSent)?;
    push_growth(&mut growths, last, now, Count::BytesDropped)?;
    push_growth(&mut growths, last, now, Count::PacketsDropped)?;
    push_growth(&mut growths, last, now, Count::LinesDropped)?;
    push_growth(&mut growths, last, now, Count::LinesRefused)?;
    Ok(growths)
}
