//! Lines that are added up before a packer takes them.
ghost use Rattle.std.specs.Prelude.{◌≡◌, ◌∷◌, [], IfOk, OnErr, OnOk};
ghost use Rattle.cadence_aggregating.specs.Summed.{AddsQuietly, accepted_in, gone_in, held_in, limits_in, waiting_in};

use crate::board::LossBoard;
use crate::error::RunError;
use crate::taker::LineTaker;
use cadence_aggregating::{Limits, SummedLines};
use cadence_errors::SinkError;
use cadence_flow::io::{LineBuffer, PacketWriter};
use std::alloc::{AllocError, Allocator, Global};
use std::io::{self, ErrorKind};
use std::str;

/// Adds up lines, and gives a packer those that are to be sent. A [`LossBoard`] counts the lines that were added up.
#[derive(Drop)]
pub struct SummedPacker<'a, T, A: Allocator = Global> {
    sums: SummedLines,
    lines: LineBuffer<T, A>,
    // Whether a line was taken since everything was sent.
    is_holding: bool,
    board: &'a LossBoard,
}

impl<'a, T: PacketWriter, A: Allocator> SummedPacker<'a, T, A> {
    ghost use Rattle.cadence_send.specs.Summed.{GivesToPacker, HoldsSummary, packer_below, sums_of};

    /// Returns sums of no line over a packer. The only error is that memory ran out.
    pub fn new(
        alloc: Global,
        limits: Limits,
        lines: LineBuffer<T, A>,
        board: &'a LossBoard,
    ) -> Result<SummedPacker<'a, T, A>, AllocError>
        ensures accepted { IfOk result (λ p. accepted_in (sums_of p) ≡ []) }
        ensures gone { IfOk result (λ p. gone_in (sums_of p) ≡ []) }
        ensures limits { IfOk result (λ p. limits_in (sums_of p) ≡ limits) }
        ensures packer { IfOk result (λ p. packer_below p ≡ lines) }
    {
        Ok(SummedPacker {
            sums: SummedLines::new(alloc, limits)?,
            lines,
            is_holding: false,
            board,
        })
    }

    /// Returns the writer of the packer.
    pub fn get_ref(&self) -> &T
        ensures { result.now ≡ (packer_below self.now).writer }
    {
        self.lines.get_ref()
    }

    /// States that the lines that the packer took and those that wait, with what is held, are a summary of the accepted
    /// lines: a server knows the same after both. Does nothing when it is called.
    pub fn keeps_the_record(&self)
        ensures { HoldsSummary self.now }
    {
        self.sums.keeps_the_record();
    }

    // Gives the packer the lines that wait, in order, until it refuses one.
    fn give_waiting(&mut self) -> Result<(), RunError>
        ensures gives { GivesToPacker T.kind T.history self.old self.new }
        ensures accepted { accepted_in (sums_of self.new) ≡ accepted_in (sums_of self.old) }
        ensures held { held_in (sums_of self.new) ≡ held_in (sums_of self.old) }
        ensures all { OnOk result (waiting_in (sums_of self.new) ≡ []) }
        ensures none { waiting_in (sums_of self.old) ≡ [] → self.new ≡ self.old }
    {
        while let Some(line) = self.sums.first() {
            self.lines.take(line.as_bytes())?;
            self.sums.drop_first();
        }
        Ok(())
    }
}

/// What is held waits for a flush. A line that the packer refuses waits too, and comes before all others.
impl<T: PacketWriter, A: Allocator> LineTaker for SummedPacker<'_, T, A> {
    ghost use Rattle.cadence_send.specs.Summed.{IsAllSent, TakesSummed, packer_below, summed_more, summed_none, sums_of};

    ghost takes = { TakesSummed T.kind T.history };

    ghost is_sent = { IsAllSent };

    ghost takes_none = { summed_none T.kind T.history };

    ghost takes_more = { summed_more T.kind T.history };

    // If no line waits, and the line is to be held and can be, the packer stays as it was.
    fn take(&mut self, line: &[u8]) -> Result<(), RunError>
        ensures taken { OnOk result
            (TakesSummed T.kind T.history self.old self.new (line.now ∷ [])) }
        ensures kept { OnErr result (TakesSummed T.kind T.history self.old self.new []) }
        ensures quiet { OnOk result (waiting_in (sums_of self.old) ≡ [] →
            AddsQuietly (sums_of self.old) line.now
            (packer_below self.old) (packer_below self.new)) }
    {
        let Ok(text) = str::from_utf8(line) else {
            return Err(RunError::Input(io::Error::from(ErrorKind::InvalidData)));
        };
        self.give_waiting()?;
        self.sums.add(text)?;
        self.is_holding = true;
        let _ = self.give_waiting();
        self.board.note_added();
        Ok(())
    }

    fn send(&mut self) -> Result<(), RunError> {
        self.give_waiting()?;
        self.sums.flush()?;
        self.give_waiting()?;
        self.lines.send()?;
        self.is_holding = false;
        self.board.note_sent();
        Ok(())
    }

    fn is_holding(&self) -> bool {
        self.is_holding
    }
}
