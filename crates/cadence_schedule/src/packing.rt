//! The packer of a run, with the numbers of lines in its packets.
ghost use Rattle.std.specs.Prelude.{◌≡◌, ◌+◌, ◌<◌, ◌≤◌, [], IfErr, IfOk, IsTrue, vec_len, vec_capacity};
ghost use Rattle.cadence_flow.specs.Packer.{new_packer};
ghost use Rattle.cadence_schedule.specs.Cut.{Counted, HasLast};

use cadence_aggregate::out_of_memory;
use cadence_errors::SinkError;
use cadence_flow::io::{LineBuffer, PacketWriter};
use cadence_stage::{GhostTexts, Stage};
use std::alloc::{AllocError, Allocator};

// A packer over its writer, and its cut: how many lines each packet has, the held text counted as the last packet. `kept`
// has the lines that the packer took, and exists in proofs only.
#[derive(Drop)]
pub(crate) struct Packing<P: PacketWriter, A: Allocator> {
    pub(crate) packer: LineBuffer<P, A>,
    pub(crate) cut: Vec<usize, A>,
    pub(crate) kept: GhostTexts,
}

// Counts a line in the last packet of the cut if it joins the held text, and in a new packet otherwise.
fn count_line<A: Allocator>(cut: &mut Vec<usize, A>, joins: bool)
    requires { vec_len cut.old < vec_capacity cut.old }
    ensures counted { (IsTrue joins → HasLast cut.old.items) →
        Counted joins cut.old.items cut.new.items }
    ensures length { vec_len cut.new ≤ vec_len cut.old + 1 }
    ensures room { vec_capacity cut.old ≤ vec_capacity cut.new }
{
    if joins && !cut.is_empty() {
        let last = cut.len() - 1;
        cut[last] = cut[last].saturating_add(1);
    } else {
        let Ok(()) = cut.push(1) else { unreachable!() };
    }
}

// Returns a list with room for this many numbers, and an allocator.
fn cut_and_alloc<A: Allocator + Clone>(
    alloc: &A,
    lines: usize,
) -> Result<(Vec<usize, A>, A), AllocError>
    ensures none { IfOk result (λ made. made.0.items ≡ []) }
    ensures room { IfOk result (λ made. lines ≤ vec_capacity made.0) }
{
    Ok((Vec::with_capacity(alloc.clone()?, lines)?, alloc.clone()?))
}

impl<P: PacketWriter, A: Allocator> Packing<P, A> {
    ghost use Rattle.cadence_schedule.specs.Cut.{joins_held};

    // Returns whether the packer holds text that has room for this line and its ending.
    fn joins_held(&self, line: &str) -> bool
        ensures { result ≡ joins_held self.now.packer.format self.now.packer.held line.now }
    {
        !self.packer.held().is_empty() && self.packer.fits(line.as_bytes())
    }
}

impl<P: PacketWriter, A: Allocator + Clone> Packing<P, A> {
    ghost use Rattle.cadence_schedule.specs.PackedRuns.{room_of};

    // Returns a packer that holds nothing, with room to count this many lines, or the writer if memory runs out.
    pub(crate) fn new(
        alloc: &A,
        capacity: usize,
        ending: &str,
        lines: usize,
        writer: P,
    ) -> Result<Packing<P, A>, P>
        ensures packer { IfOk result (λ made. made.packer ≡ new_packer writer capacity ending.now) }
        ensures cut { IfOk result (λ made. made.cut.items ≡ []) }
        ensures room { IfOk result (λ made. lines ≤ room_of made) }
        ensures returned { IfErr result (λ back. back ≡ writer) }
    {
        let Ok((cut, second)) = cut_and_alloc(alloc, lines) else {
            return Err(writer);
        };
        let packer = LineBuffer::with_ending(second, writer, capacity, ending)?;
        Ok(Packing {
            packer,
            cut,
            kept: GhostTexts::new(),
        })
    }
}

// A line is counted if it was kept. It is refused if there is no room to count it, and no memory for more room.
impl<P: PacketWriter, A: Allocator> Stage for Packing<P, A> {
    ghost use Rattle.cadence_schedule.specs.PackedRuns.{PacksCounted};

    ghost step = { λ old new call. PacksCounted P.kind P.history old call new };

    ghost taken = { λ packing. packing.kept.items };

    fn take_line(&mut self, line: &str, fault: &mut SinkError) -> Option<usize> {
        let Ok(()) = self.cut.reserve(1) else {
            return out_of_memory(fault);
        };
        let joins = self.joins_held(line);
        let count = self.packer.write(line.as_bytes(), fault)?;
        count_line(&mut self.cut, joins);
        self.kept.note(line.as_bytes(), count);
        Some(count)
    }

    fn empty(&mut self, fault: &mut SinkError) -> Option<()> {
        self.packer.flush(fault)
    }
}
