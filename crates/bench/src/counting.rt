//! A writer of packets that counts them.

use cadence::ext::PacketWriter;
use cadence::types::SinkError;

/// Takes each packet, and counts the packets and their bytes.
#[derive(Drop)]
pub struct CountingWriter {
    /// The number of bytes taken, modulo 2^64.
    pub bytes: u64,
    /// The number of packets taken, modulo 2^64.
    pub packets: u64,
}

impl PacketWriter for CountingWriter {
    ghost use Rattle.std.specs.Prelude.{false, true, []};

    // no contract speaks of its packets, and it refuses none
    ghost history = { λ _. record { packets = []; refusals = 0; refused_bytes = 0 } };

    ghost kind = { λ _. record {
      may_give = λ _. false;
      reports = false;
      takes_whole = true;
      start = record { bytes_sent = 0; packets_sent = 0; bytes_dropped = 0; packets_dropped = 0 };
    } };

    fn write_packet(&mut self, packet: &[u8]) -> Result<usize, SinkError> {
        self.bytes = self.bytes.wrapping_add(packet.len() as u64);
        self.packets = self.packets.wrapping_add(1);
        Ok(packet.len())
    }
}
