//! A writer with a record of its packets, which only proofs read.
ghost use Rattle.std.specs.Prelude.{◌≡◌, []};

use crate::io::PacketWriter;
use cadence_errors::SinkError;
use cadence_stage::GhostTexts;

/// A writer with a record of each packet that it was offered and didn't refuse, with the number of bytes that the
/// writer returned for it. The record exists in proofs only. With it, contracts can name the packets of any writer, even
/// of a socket, whose own contract says nothing of packets.
#[derive(Drop)]
pub struct RecordedWriter<W> {
    inner: W,
    offers: GhostTexts,
}

impl<W> RecordedWriter<W> {
    ghost use Rattle.cadence_flow.specs.RecordedWriter.{offers_of, writer_of};

    /// Wraps a writer, with an empty record.
    pub fn new(inner: W) -> Self
        ensures writer { writer_of result ≡ inner }
        ensures none { offers_of result ≡ [] }
    {
        RecordedWriter {
            inner,
            offers: GhostTexts::new(),
        }
    }
}

impl<W: PacketWriter> PacketWriter for RecordedWriter<W> {
    ghost use Rattle.std.specs.Option.{ok_or};
    ghost use Rattle.std.specs.Prelude.{Some};
    ghost use Rattle.cadence_flow.specs.Offers.{IsOffered};
    ghost use Rattle.cadence_flow.specs.Writer.{Reports, WritesPacket};
    ghost use Rattle.cadence_flow.specs.RecordedWriter.{offers_of, packets_of, recorded_history, recorded_kind, writer_of};

    ghost history = { recorded_history W.history };

    ghost kind = { recorded_kind W.kind };

    ghost offers = { λ t. Some (offers_of t) };

    fn write_packet(&mut self, packet: &[u8]) -> Result<usize, SinkError>
        ensures same_kind { recorded_kind W.kind self.new ≡ recorded_kind W.kind self.old }
        ensures writes { WritesPacket (recorded_kind W.kind self.old)
            (recorded_history W.history self.old) (recorded_history W.history self.new)
            packet.now result }
        ensures offers { IsOffered (Some (offers_of self.old)) (Some (offers_of self.new))
            packet.now result }
        ensures ties { Reports (W.kind (writer_of self.old)) →
            packets_of self.old ≡ (W.history (writer_of self.old)).packets →
            packets_of self.new ≡ (W.history (writer_of self.new)).packets }
    {
        let mut fault = SinkError::NothingWritten;
        self.write_packet_narrow(packet, &mut fault).ok_or(fault)
    }

    // Without this hint a line of `bench udp 16 20` takes 20 instructions more.
    #[inline(always)]
    fn write_packet_narrow(&mut self, packet: &[u8], fault: &mut SinkError) -> Option<usize>
        ensures same_kind { recorded_kind W.kind self.new ≡ recorded_kind W.kind self.old }
        ensures writes { WritesPacket (recorded_kind W.kind self.old)
            (recorded_history W.history self.old) (recorded_history W.history self.new)
            packet.now (ok_or result fault.new) }
        ensures offers { IsOffered (Some (offers_of self.old)) (Some (offers_of self.new))
            packet.now (ok_or result fault.new) }
        ensures ties { Reports (W.kind (writer_of self.old)) →
            packets_of self.old ≡ (W.history (writer_of self.old)).packets →
            packets_of self.new ≡ (W.history (writer_of self.new)).packets }
    {
        let taken = self.inner.write_packet_narrow(packet, fault);
        if let Some(n) = taken {
            self.offers.note(packet, n);
        }
        taken
    }
}
