//! A writer that counts the bytes and the packets that another one took and refused.
use super::writer::PacketWriter;
use crate::stats::SinkStats;
use cadence_errors::SinkError;

/// A writer, and the sums of the bytes and the packets that it took and refused.
#[derive(Drop)]
pub struct CountingWriter<W: PacketWriter> {
    /// The writer that takes the packets.
    pub inner: W,
    /// The sums, each modulo 2^64.
    pub stats: SinkStats,
}

impl<W: PacketWriter> CountingWriter<W> {
    ghost use Rattle.std.specs.Prelude.{◌≡◌, ◌<◌, ◌^◌};
    ghost use Rattle.cadence_flow.specs.Sums.{zero_sums};

    /// Starts counting, with sums of zero.
    pub fn new(inner: W) -> CountingWriter<W>
        ensures { result ≡ record { inner = inner; stats = zero_sums } }
    {
        CountingWriter {
            inner,
            stats: SinkStats {
                bytes_sent: 0,
                packets_sent: 0,
                bytes_dropped: 0,
                packets_dropped: 0,
            },
        }
    }

    /// Returns the writer.
    pub fn into_inner(self) -> W
        ensures { result ≡ self.inner }
    {
        let CountingWriter { inner, stats: _ } = self;
        inner
    }

    /// Returns the writer and the sums.
    pub fn into_parts(self) -> (W, SinkStats)
        ensures writer { result.0 ≡ self.inner }
        ensures stats { result.1 ≡ self.stats }
        ensures bytes_sent { result.1.bytes_sent < 2 ^ 64 }
        ensures packets_sent { result.1.packets_sent < 2 ^ 64 }
    {
        let CountingWriter { inner, stats } = self;
        (inner, stats)
    }
}

impl<W: PacketWriter> PacketWriter for CountingWriter<W> {
    ghost use Rattle.cadence_flow.specs.Sums.{counted_kind};

    ghost history = { λ c. W.history c.inner };

    ghost kind = { λ c. counted_kind (W.kind c.inner) (W.history c.inner) c.stats };

    fn write_packet(&mut self, packet: &[u8]) -> Result<usize, SinkError> {
        let result = self.inner.write_packet(packet);
        self.stats.add_answer(&result, packet.len());
        result
    }
}
