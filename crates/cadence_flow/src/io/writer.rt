//! The trait of a writer of packets.
//!
//! Why results are narrow in this library: a `Result<usize, SinkError>` is 104 bytes, because a `SinkError` may be an
//! `io::Error`, and each function that returns one copies all of it, even on success. So the functions between a socket
//! and the call of a service return an `Option<usize>` and put the error in a `&mut SinkError`, which is called
//! `fault`. Only the outermost call makes a `Result` of the two.
ghost use Rattle.std.specs.Prelude.{◌≡◌, None};
ghost use Rattle.std.specs.Option.{ok_or};
ghost use Rattle.cadence_flow.specs.Offers.{IsOffered, Offers};
ghost use Rattle.cadence_flow.specs.Writer.{PacketHistory, WriterKind, WritesPacket};

use cadence_errors::SinkError;

/// A writer that takes packets one by one, as a socket does. It is used in place of `std::io::Write`, which writes
/// bytes and has no packets. An impl states for proofs which packets it took and how many it refused (`history`), and
/// what no call changes (`kind`).
///
/// A sink calls its writer while it holds the lock of its packets. So a writer must not send a metric over that sink:
/// the call would wait for ever.
pub trait PacketWriter: Drop {
    /// The packets that the writer took, and the number and total length of those that it refused.
    ghost history: { Self → PacketHistory };

    /// What no call changes: the errors that the writer may return; whether it reports its packets, that is, whether
    /// `history` has them; whether it takes each packet whole or refuses it; and the sums that a counting writer began
    /// with.
    ghost kind: { Self → WriterKind };

    /// The packets that the writer was offered and didn't refuse, each with the number of its bytes that it took.
    /// `None`, the default, is for a writer that doesn't list them.
    ghost offers: { Self → Offers } = { λ _. None };

    /// Offers one packet to the writer. Returns how many of its first bytes the writer took, as one packet. After an
    /// error the writer took nothing, and the packet counts as refused.
    fn write_packet(&mut self, packet: &[u8]) -> Result<usize, SinkError>
        ensures same_kind { kind self.new ≡ kind self.old }
        ensures writes { WritesPacket (kind self.old)
            (history self.old) (history self.new) packet.now result }
        ensures offers { IsOffered (offers self.old) (offers self.new) packet.now result };

    /// Offers one packet to the writer as `write_packet` does, with a narrow result: after an error it returns `None`,
    /// and `fault` has the error. A writer needn't implement it.
    fn write_packet_narrow(&mut self, packet: &[u8], fault: &mut SinkError) -> Option<usize>
        ensures same_kind { kind self.new ≡ kind self.old }
        ensures writes { WritesPacket (kind self.old)
            (history self.old) (history self.new) packet.now (ok_or result fault.new) }
        ensures offers { IsOffered (offers self.old) (offers self.new)
            packet.now (ok_or result fault.new) }
    {
        match self.write_packet(packet) {
            Ok(n) => Some(n),
            Err(error) => {
                *fault = error;
                None
            }
        }
    }
}
