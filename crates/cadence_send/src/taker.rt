//! What takes the lines of the engine: a packer, or sums over a packer.
ghost use Rattle.std.specs.Prelude.{◌≡◌, ◌∷◌, ◌++◌, [], ℕ, List, OnErr, OnOk};
ghost use Rattle.cadence_send.specs.Sent.{TakesLines};

use crate::error::RunError;
use cadence_errors::SinkError;
use cadence_flow::io::{LineBuffer, PacketWriter};
use std::alloc::Allocator;

/// Takes the lines of metrics, and sends them in packets.
pub trait LineTaker {
    /// Between the two states it took these lines, in order, and nothing else.
    ghost takes: { Self → Self → List (List ℕ) → Type 0 };

    /// Nothing is held.
    ghost is_sent: { Self → Type 0 };

    /// Takes a line.
    ///
    /// # Errors
    /// `Writer` if a packet is refused, and `OutOfMemory`. The line is not taken then.
    fn take(&mut self, line: &[u8]) -> Result<(), RunError>
        ensures taken { OnOk result (takes self.old self.new (line.now ∷ [])) }
        ensures kept { OnErr result (takes self.old self.new []) };

    /// Sends what is held.
    ///
    /// # Errors
    /// `Writer` if a packet is refused, and `OutOfMemory`. What was not sent is still held.
    fn send(&mut self) -> Result<(), RunError>
        ensures same { takes self.old self.new [] }
        ensures sent { OnOk result (is_sent self.new) };

    /// Returns whether something is held that waits to be sent.
    fn is_holding(&self) -> bool;

    /// Between a state and itself it took nothing.
    ghost takes_none: { (p : Self) → takes p p [] };

    /// What it took in two steps is what it took in the first and then in the second.
    ghost takes_more: { (p q r : Self) (lines others : List (List ℕ)) → takes p q lines →
        takes q r others → takes p r (lines ++ others) };
}

/// A packer holds the text of lines until they fill a packet.
impl<T: PacketWriter, A: Allocator> LineTaker for LineBuffer<T, A> {
    ghost use Rattle.cadence_send.specs.Takes.{takes_more as packer_takes_more, takes_none as packer_takes_none};

    ghost takes = { TakesLines T.kind T.history };

    ghost is_sent = { λ p. p.held ≡ [] };

    ghost takes_none = { packer_takes_none T.kind T.history };

    ghost takes_more = { packer_takes_more T.kind T.history };

    #[inline(always)]
    fn take(&mut self, line: &[u8]) -> Result<(), RunError> {
        // Most lines fit the packet, and `hold` then takes them with less work than `write`.
        if self.hold(line) {
            return Ok(());
        }
        let mut fault = SinkError::NothingWritten;
        self.write(line, &mut fault).ok_or(fault)?;
        Ok(())
    }

    fn send(&mut self) -> Result<(), RunError> {
        let mut fault = SinkError::NothingWritten;
        self.flush(&mut fault).ok_or(fault)?;
        Ok(())
    }

    fn is_holding(&self) -> bool {
        !self.held().is_empty()
    }
}
