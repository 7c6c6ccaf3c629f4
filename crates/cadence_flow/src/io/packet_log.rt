//! A writer that stores its packets in memory, for tests and for schedules.
use super::{PacketWriter, Refusals};
use cadence_errors::SinkError;
use std::alloc::{AllocError, Allocator, Global};
use std::marker::Model;

/// What a `PacketLog` does with one packet.
#[derive(Clone, Copy, Debug, PartialEq, Eq)]
pub enum Answer {
    /// The log takes the whole packet.
    Whole,
    /// The log takes only this many of the packet's first bytes, or the whole packet if it is no longer than that.
    Short(usize),
    /// The log refuses the packet with `SinkError::PacketRefused`.
    Refuse,
}

/// A writer that stores the packets that it takes in memory. A script says what it does with each packet; after the
/// script's end it takes each packet whole. If there is no memory for a packet, the log refuses it with
/// `SinkError::OutOfMemory`, and that answer of the script is used up.
#[derive(Drop)]
pub struct PacketLog<A: Allocator = Global> {
    packets: Vec<Vec<u8, A>, A>,
    script: Vec<Answer, A>,
    used: usize,
    refusals: Refusals,
}

impl<A: Allocator> Model for PacketLog<A> {
    ghost use Rattle.std.specs.Prelude.{◌≤◌, length, map};
    ghost use Rattle.cadence_flow.specs.Log.{LogState};

    ghost Value = { LogState };

    ghost view = { λ l. record {
      packets = map (λ p. p.items) l.packets.items;
      script = l.script.items;
      used = l.used;
      refusals = l.refusals;
    } };

    ghost invariant = { λ l. l.used ≤ length l.script.items };
}

impl<A: Allocator> PacketLog<A> {
    ghost use Rattle.std.specs.Prelude.{◌≡◌, map};
    ghost use Rattle.cadence_flow.specs.Log.{new_log};

    /// Makes a log without packets, with this script.
    pub fn new(alloc: A, script: Vec<Answer, A>) -> PacketLog<A>
        ensures { result ≡ new_log script.items }
    {
        PacketLog {
            packets: Vec::new(alloc),
            script,
            used: 0,
            refusals: Refusals::none(),
        }
    }

    /// Returns the packets that the log took, the oldest first. Of a packet that it took in part, this has only that
    /// part.
    pub fn packets(&self) -> &[Vec<u8, A>]
        ensures { map (λ p. p.items) result.now ≡ self.now.packets }
    {
        self.packets.as_slice()
    }
}

impl<A: Allocator + Clone> PacketLog<A> {
    ghost use Rattle.std.specs.Prelude.{◌≡◌, [], ◌∷◌, ◌++◌, drop, Err, OnOk, OnErr};
    ghost use Rattle.cadence_flow.specs.Log.{next_answer, answers_left};
    ghost use Rattle.cadence_flow.specs.Writer.{refusals_after};

    // Returns the next answer of the script, and marks it as used up.
    fn take_answer(&mut self) -> Answer
        ensures answer { result ≡ next_answer (answers_left self.old) }
        ensures left { answers_left self.new ≡ drop 1 (answers_left self.old) }
        ensures rest { self.new ≡ record self.old { used = self.new.used } }
    {
        if self.used < self.script.len() {
            let answer = self.script[self.used];
            self.used += 1;
            answer
        } else {
            Answer::Whole
        }
    }

    // Adds a copy of a packet to the packets of the log.
    fn keep(&mut self, packet: &[u8]) -> Result<(), AllocError>
        ensures ok { OnOk result (self.new ≡
            record self.old { packets = self.old.packets ++ packet.now ∷ [] }) }
        ensures err { OnErr result (self.new ≡ self.old) }
    {
        let alloc = self.packets.allocator().clone()?;
        let copy = Vec::from_slice(alloc, packet)?;
        self.packets.push(copy)?;
        Ok(())
    }

    // Counts a refusal of a packet of `len` bytes, and returns this error.
    fn refuse(&mut self, error: SinkError, len: usize) -> Result<usize, SinkError>
        ensures answer { result ≡ Err error }
        ensures noted { self.new ≡
            record self.old { refusals = refusals_after self.old.refusals (Err error) len } }
    {
        let answer = Err(error);
        self.refusals.note(&answer, len);
        answer
    }
}

impl<A: Allocator + Clone> PacketWriter for PacketLog<A> {
    ghost use Rattle.std.specs.Prelude.{◌≡◌, drop};
    ghost use Rattle.cadence_flow.specs.Writer.{WritesPacket};
    ghost use Rattle.cadence_flow.specs.Log.{next_answer, answers_left, Follows, log_history, log_kind};

    ghost history = { log_history };

    ghost kind = { log_kind };

    fn write_packet(&mut self, packet: &[u8]) -> Result<usize, SinkError>
        ensures same_kind { log_kind self.new ≡ log_kind self.old }
        ensures writes { WritesPacket (log_kind self.old)
            (log_history self.old) (log_history self.new) packet.now result }
        ensures follows { Follows (next_answer (answers_left self.old)) packet.now result }
        ensures left { answers_left self.new ≡ drop 1 (answers_left self.old) }
        ensures script { self.new.script ≡ self.old.script }
    {
        let count = match self.take_answer() {
            Answer::Whole => packet.len(),
            Answer::Short(n) => n.min(packet.len()),
            Answer::Refuse => return self.refuse(SinkError::PacketRefused, packet.len()),
        };
        if self.keep(&packet[..count]).is_err() {
            return self.refuse(SinkError::OutOfMemory, packet.len());
        }
        Ok(count)
    }
}
