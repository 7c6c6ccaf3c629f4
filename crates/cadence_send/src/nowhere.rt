//! A record of packets that exists in proofs only.
ghost use Rattle.std.specs.Prelude.{◌≡◌, ◌∷◌, ◌++◌, []};
ghost use Rattle.cadence_flow.specs.Writer.{history_of, no_refusals};
ghost use Rattle.cadence_send.specs.Losses.{nowhere_kind};
ghost use Rattle.cadence_flow.specs.RecordedWriter.{packets_of};

use cadence_errors::SinkError;
use cadence_flow::RecordedWriter;
use cadence_flow::io::PacketWriter;

// A writer without memory that takes each packet and does nothing with it.
#[derive(Drop)]
pub(crate) struct Nowhere;

impl PacketWriter for Nowhere {
    ghost history = { λ _. history_of [] no_refusals };

    ghost kind = { λ _. nowhere_kind };

    fn write_packet(&mut self, packet: &[u8]) -> Result<usize, SinkError> {
        Ok(packet.len())
    }
}

// Adds a packet to a record. It does nothing at run time.
pub(crate) fn note_packet(packets: &mut RecordedWriter<Nowhere>, packet: &[u8])
    ensures { packets_of packets.new ≡ packets_of packets.old ++ packet.now ∷ [] }
{
    let mut fault = SinkError::NothingWritten;
    let _ = packets.write_packet_narrow(packet, &mut fault);
}
