//! Lines that are added up before the packer takes them.
ghost use Rattle.std.specs.Prelude.{◌≡◌, []};
ghost use Rattle.cadence_stage.specs.OwnLog.{items_of};

use crate::packer_sink::PackerSink;
use crate::packing::Packing;
use cadence_aggregate::Aggregator;
use cadence_aggregating::Sums;
use cadence_errors::SinkError;
use cadence_flow::io::PacketWriter;
use cadence_stage::Stage;
use std::alloc::{Allocator, Global};

// Sums of lines over the packer of a run.
#[derive(Drop)]
pub(crate) struct PackedSums<P: PacketWriter, A: Allocator> {
    lines: Sums,
    pub(crate) sink: PackerSink<P, A>,
}

impl<P: PacketWriter, A: Allocator> PackedSums<P, A> {
    // Puts sums before the packer.
    pub(crate) fn new(alloc: Global, lines: Sums, packing: Packing<P, A>) -> PackedSums<P, A>
        ensures lines { result.lines ≡ lines }
        ensures packing { result.sink.packing ≡ packing }
        ensures notes { items_of result.sink.notes ≡ [] }
    {
        PackedSums {
            lines,
            sink: PackerSink::new(alloc, packing),
        }
    }

    // Returns the aggregator and the packer.
    pub(crate) fn into_parts(self) -> (Aggregator, Packing<P, A>)
        ensures aggregator { result.0 ≡ self.lines.aggregator }
        ensures packing { result.1 ≡ self.sink.packing }
    {
        let PackedSums { lines, sink } = self;
        (lines.into_aggregator(), sink.into_packing())
    }
}

// A line that is added is taken whole. After an error it is not added, and each line that was held before is sent or
// still held. A flush sends what is held to the packer, and then what the packer holds.
impl<P: PacketWriter, A: Allocator> Stage for PackedSums<P, A> {
    ghost use Rattle.std.specs.Prelude.{length, map};
    ghost use Rattle.cadence_aggregating.specs.Sums.{accepted_by};
    ghost use Rattle.cadence_schedule.specs.SumsCalls.{SumsCall};

    ghost step = { λ old new call. SumsCall P.kind P.history old call new };

    ghost taken = { λ sums. map (λ line. (line, length line)) (accepted_by sums.lines) };

    fn take_line(&mut self, line: &str, fault: &mut SinkError) -> Option<usize> {
        self.lines.add(&mut self.sink, line, fault)?;
        Some(line.len())
    }

    fn empty(&mut self, fault: &mut SinkError) -> Option<()> {
        self.lines.flush(&mut self.sink, fault)?;
        self.sink.packing.empty(fault)
    }
}
