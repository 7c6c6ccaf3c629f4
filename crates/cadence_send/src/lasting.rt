//! A writer of packets for a stream: it outlives refusals, and counts what is lost.
ghost use Rattle.std.specs.Prelude.{◌≡◌, ◌==◌, count_by, length};
ghost use Rattle.cadence_flow.specs.RecordedWriter.{packets_of};
ghost use Rattle.cadence_send.specs.Losses.{fates_of, lines_of_packet, losses_of};
ghost use Rattle.cadence_stage.specs.OwnLog.{items_of};

use crate::board::{LossBoard, Losses};
use crate::nowhere::{Nowhere, note_packet};
use crate::outlet::Outlet;
use cadence_errors::SinkError;
use cadence_flow::RecordedWriter;
use cadence_flow::io::{PacketWriter, Refusals};
use cadence_stage::OwnLog;
use std::alloc::Allocator;
use std::io::Write;

// Returns how many newlines a packet has.
fn newlines_of(packet: &[u8]) -> usize
    ensures { result ≡ count_by (λ byte. byte == 10) packet.now }
{
    packet.iter().filter(|byte| **byte == b'\n').count()
}

// Returns how many lines a packet has.
fn lines_of_packet(packet: &[u8]) -> u64
    ensures { result ≡ lines_of_packet packet.now }
{
    let newlines = newlines_of(packet);
    if newlines == 0 {
        return 1;
    }
    newlines as u64
}

// The kinds of refusals that were reported. Two refusals are of one kind if the system gave them the same code.
#[derive(Drop)]
struct Told<A: Allocator> {
    codes: Vec<Option<i32>, A>,
}

impl<A: Allocator> Told<A> {
    // Returns whether a refusal of this kind is to be reported, because none was before. Without memory to store the
    // kind it returns `false`, so that no refusal is reported twice.
    fn is_new(&mut self, fault: &SinkError) -> bool {
        let code = match fault {
            SinkError::Io(error) => error.raw_os_error(),
            _ => None,
        };
        if self.codes.contains(&code) {
            return false;
        }
        self.codes.push(code).is_ok()
    }
}

/// A writer that gives each packet to a writer below it, and goes on if that one refuses the packet: the packet is
/// dropped and counts as lost, with its lines. The first refusal of each kind is reported to `errors`, with the place
/// to which the packets go. An error of `errors` is ignored. After each packet the losses are stored in a
/// [`LossBoard`].
///
/// In proofs it also has a record of the packets that it was given, each with whether it was lost. The field `counted`
/// says that the losses are those of this record.
#[derive(Drop)]
pub struct LastingWriter<'a, T, E, A: Allocator> {
    inner: T,
    outlet: Outlet<'a>,
    errors: E,
    told: Told<A>,
    losses: Losses,
    refusals: Refusals,
    board: &'a LossBoard,
    given: RecordedWriter<Nowhere>,
    are_lost: OwnLog<bool>,
    pub ghost paired: { length (items_of are_lost) ≡ length (packets_of given) },
    pub ghost counted: { losses ≡ losses_of (fates_of (packets_of given) (items_of are_lost)) },
}

impl<'a, T: PacketWriter, E: Write + Drop, A: Allocator> LastingWriter<'a, T, E, A> {
    ghost use Rattle.std.specs.Prelude.{[]};
    ghost use Rattle.cadence_send.specs.Streams.{fates_in, writer_below};

    /// Returns a writer over this one. It was given no packet yet.
    pub fn new(alloc: A, inner: T, outlet: Outlet<'a>, errors: E, board: &'a LossBoard) -> Self
        ensures none { fates_in result ≡ [] }
        ensures below { writer_below result ≡ inner }
    {
        LastingWriter {
            inner,
            outlet,
            errors,
            told: Told {
                codes: Vec::new(alloc),
            },
            losses: Losses::default(),
            refusals: Refusals::none(),
            board,
            given: RecordedWriter::new(Nowhere),
            are_lost: OwnLog::new(),
        }
    }

    /// Returns how many packets were given and lost.
    pub fn losses(&self) -> Losses
        ensures { result ≡ losses_of (fates_in self.now) }
    {
        self.losses
    }

    /// Returns the writer below.
    pub fn get_ref(&self) -> &T
        ensures { result.now ≡ writer_below self.now }
    {
        &self.inner
    }
}

impl<T: PacketWriter, E: Write + Drop, A: Allocator> LastingWriter<'_, T, E, A> {
    ghost use Rattle.std.specs.Prelude.{◌∷◌, ◌++◌, [], true, OnOk, OnErr, IfErr};
    ghost use Rattle.cadence_send.specs.Losses.{IsSentOrLost, is_out_of_memory};
    ghost use Rattle.cadence_send.specs.Streams.{fates_in, writer_below};

    // Reports a refusal if it is the first of its kind.
    fn tell(&mut self, fault: &SinkError)
        ensures below { writer_below self.new ≡ writer_below self.old }
        ensures fates { fates_in self.new ≡ fates_in self.old }
        ensures refusals { self.new.refusals ≡ self.old.refusals }
    {
        if self.told.is_new(fault) {
            let outlet = self.outlet;
            let _ = writeln!(
                self.errors,
                "statsd_send: cannot {outlet}: {fault}: packets are dropped"
            );
        }
    }

    // Counts a packet that was given.
    fn count(&mut self, packet: &[u8], is_lost: bool)
        ensures below { writer_below self.new ≡ writer_below self.old }
        ensures fates { fates_in self.new ≡ fates_in self.old ++ (packet.now, is_lost) ∷ [] }
        ensures refusals { self.new.refusals ≡ self.old.refusals }
    {
        note_packet(&mut self.given, packet);
        self.are_lost.note(&is_lost);
        self.losses.given = self.losses.given.wrapping_add(1);
        if is_lost {
            self.losses.packets = self.losses.packets.wrapping_add(1);
            self.losses.lines = self.losses.lines.wrapping_add(lines_of_packet(packet));
        }
    }

    // Gives a packet to the writer below. If that one refuses the packet or takes only a part of it, the packet is lost.
    // The only error is that memory ran out.
    fn give(&mut self, packet: &[u8]) -> Result<(), SinkError>
        ensures fate { OnOk result (IsSentOrLost (T.kind (writer_below self.old))
            (T.history (writer_below self.old)) (T.history (writer_below self.new))
            (fates_in self.old) (fates_in self.new) packet.now) }
        ensures memory { IfErr result (λ e. is_out_of_memory e ≡ true) }
        ensures same { OnErr result (fates_in self.new ≡ fates_in self.old) }
        ensures refusals { self.new.refusals ≡ self.old.refusals }
    {
        let is_lost = match self.inner.write_packet(packet) {
            Ok(count) => count != packet.len(),
            Err(SinkError::OutOfMemory) => return Err(SinkError::OutOfMemory),
            Err(fault) => {
                self.tell(&fault);
                true
            }
        };
        self.count(packet, is_lost);
        self.board.note_packet(self.losses, is_lost);
        Ok(())
    }
}

/// It takes each packet whole. The only error is `OutOfMemory`.
impl<T: PacketWriter, E: Write + Drop, A: Allocator> PacketWriter for LastingWriter<'_, T, E, A> {
    ghost use Rattle.std.specs.Prelude.{◌≡◌, OnOk};
    ghost use Rattle.cadence_flow.specs.Writer.{WritesPacket};
    ghost use Rattle.cadence_send.specs.Losses.{IsSentOrLost, lasting_kind};
    ghost use Rattle.cadence_send.specs.Streams.{fates_in, given_history, writer_below};

    ghost history = { given_history };

    ghost kind = { λ _. lasting_kind };

    fn write_packet(&mut self, packet: &[u8]) -> Result<usize, SinkError>
        ensures writes { WritesPacket lasting_kind (given_history self.old)
            (given_history self.new) packet.now result }
        ensures fate { OnOk result (IsSentOrLost (T.kind (writer_below self.old))
            (T.history (writer_below self.old)) (T.history (writer_below self.new))
            (fates_in self.old) (fates_in self.new) packet.now) }
    {
        let answer = match self.give(packet) {
            Ok(()) => Ok(packet.len()),
            Err(fault) => Err(fault),
        };
        self.refusals.note(&answer, packet.len());
        answer
    }
}
