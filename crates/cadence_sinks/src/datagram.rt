//! What the sinks over UDP and over Unix sockets share: a socket with its counts, and a buffer under a lock over one.
ghost use Rattle.std.specs.Option.{ok_or};
ghost use Rattle.std.specs.Prelude.{◌≡◌, [], Bool, IfOk, List, Result, length, ℕ, ⊤};
ghost use Rattle.cadence_errors.specs.Errors.{MayOnlyRunOutOfMemory};
ghost use Rattle.cadence_errors.specs.declared.SinkError.{SinkError};
ghost use Rattle.cadence_flow.specs.RecordedPacker.{past_of};
ghost use Rattle.cadence_flow.specs.Unread.{IsCounted, len_of, count_taken};
ghost use Rattle.cadence_flow.specs.Writer.{WritesPacket, history_of};
ghost use Rattle.cadence_sinks.specs.Buffers.{buffer_of};
ghost use Rattle.cadence_sinks.specs.Sockets.{IsBufferedAnswer, IsBufferedFlush, IsSocketAnswer, socket_kind};

use cadence_errors::{MetricResult, SinkError};
use cadence_flow::io::{PacketWriter, Refusals};
use cadence_flow::stats::{SinkStats, Unread};
use cadence_flow::{Counted, RecordedPacker, SocketStats};
use cadence_stage::{AnsweringSink, Locked, Receipt};
use std::alloc::Allocator;
use std::sync::Wait;

/// A datagram socket together with the place that it sends to.
pub trait DatagramSocket: Drop {
    /// The errors that the socket may return.
    ghost may_give: { SinkError → Bool };

    /// What the socket may answer for a packet. Code for any socket can show this only by a call of `send`.
    ghost may_answer: { Self → List ℕ → Result ℕ SinkError → Type 0 };

    /// Sends a packet. The answer has the number of the packet's first bytes that the socket took, or `None` after an
    /// error, which is in `fault` then. Nobody can read the answer before it was counted, by `SinkStats::count`. A
    /// `Result` in its place would be as wide as the widest error, and each function that passes one on copies all of
    /// it.
    fn send(&self, packet: &[u8], fault: &mut SinkError) -> Unread
        ensures answer { IsSocketAnswer may_give packet.now (ok_or (count_taken result) fault.new) }
        ensures asked { may_answer self.now packet.now (ok_or (count_taken result) fault.new) }
        ensures len { len_of result ≡ length packet.now };
}

/// A socket that sends each packet as a datagram, for a writer that owns it.
pub trait PacketSocket: Drop {
    /// The errors that the socket may return.
    ghost may_give: { SinkError → Bool };

    /// What the socket may answer for a packet, as for a `DatagramSocket`.
    ghost may_answer: { Self → List ℕ → Result ℕ SinkError → Type 0 } = { λ _ _ _. ⊤ };

    /// Sends a packet, and returns how many of its first bytes were taken. After an error it is `None`, and the error is
    /// in `fault`.
    fn send_packet(&mut self, packet: &[u8], fault: &mut SinkError) -> Option<usize>
        ensures answer { IsSocketAnswer may_give packet.now (ok_or result fault.new) }
        ensures asked { may_answer self.old packet.now (ok_or result fault.new) };
}

/// A socket whose results are counted: the bytes and packets that were sent, and those that were dropped.
#[derive(Drop)]
pub struct CountedSocket<D: DatagramSocket, R: Wait + Drop, A: Allocator> {
    socket: D,
    stats: SocketStats<R, A>,
}

impl<D: DatagramSocket, R: Wait + Drop, A: Allocator> CountedSocket<D, R, A> {
    /// Starts with all counts at 0. The only error is `OutOfMemory`.
    pub fn new(rt: R, alloc: A, socket: D) -> MetricResult<Self>
        ensures socket { IfOk result (λ c. c.socket ≡ socket) }
        ensures refused { MayOnlyRunOutOfMemory result }
    {
        let stats = SocketStats::new(rt, alloc)?;
        Ok(CountedSocket { socket, stats })
    }

    /// Returns the counts of this moment.
    pub fn stats(&self) -> SinkStats {
        SinkStats::from(&self.stats)
    }
}

/// A line is sent alone, and the result is counted.
impl<D: DatagramSocket, R: Wait + Drop, A: Allocator> AnsweringSink for CountedSocket<D, R, A> {
    type Receipt = Counted;

    ghost may_answer = { λ s line answer.
        IsSocketAnswer D.may_give line answer × D.may_answer s.socket line answer };

    ghost shows = { λ _ counted _ answer. IsCounted counted answer };

    fn emit_line(&self, line: &str, fault: &mut SinkError) -> (Option<usize>, Counted) {
        let packet = line.as_bytes();
        self.stats
            .count_line(self.socket.send(packet, fault), packet.len())
    }
}

/// Each result is counted.
impl<D: DatagramSocket, R: Wait + Drop, A: Allocator> PacketSocket for CountedSocket<D, R, A> {
    ghost may_give = { D.may_give };

    ghost may_answer = { λ s packet answer. D.may_answer s.socket packet answer };

    // Without this hint a line of `bench udp 16 20` takes 14 instructions more.
    #[inline(always)]
    fn send_packet(&mut self, packet: &[u8], fault: &mut SinkError) -> Option<usize> {
        self.stats
            .count(self.socket.send(packet, fault), packet.len())
    }
}

/// Writes packets to a socket, and counts those that the socket refused. Its contract says nothing of the packets that
/// were sent: a `RecordedPacker` around it records them.
#[derive(Drop)]
pub struct SocketWriter<S> {
    socket: S,
    refusals: Refusals,
}

impl<S: PacketSocket> SocketWriter<S> {
    /// Makes a writer to this socket, which has refused no packet yet.
    pub fn new(socket: S) -> Self {
        SocketWriter {
            socket,
            refusals: Refusals::none(),
        }
    }
}

impl<S: PacketSocket> PacketWriter for SocketWriter<S> {
    ghost history = { λ w. history_of [] w.refusals };

    ghost kind = { λ _. socket_kind S.may_give };

    fn write_packet(&mut self, packet: &[u8]) -> Result<usize, SinkError> {
        let mut fault = SinkError::NothingWritten;
        self.write_packet_narrow(packet, &mut fault).ok_or(fault)
    }

    // Without this hint a line of `bench udp 16 20` takes 17 instructions more.
    #[inline(always)]
    fn write_packet_narrow(&mut self, packet: &[u8], fault: &mut SinkError) -> Option<usize>
        ensures writes { WritesPacket (socket_kind S.may_give) (history_of [] self.old.refusals)
            (history_of [] self.new.refusals) packet.now (ok_or result fault.new) }
        ensures asked { S.may_answer self.old.socket packet.now (ok_or result fault.new) }
    {
        let taken = self.socket.send_packet(packet, fault);
        if taken.is_none() {
            self.refusals.add(packet.len());
        }
        taken
    }
}

/// The packer of a packed socket.
pub type SocketLines<D, R, A> = RecordedPacker<SocketWriter<CountedSocket<D, R, A>>, A>;

/// Makes the packer of a packed socket, which took no line yet, and the counts of its socket. The only error is
/// `OutOfMemory`.
pub fn packed_lines<D: DatagramSocket, R: Wait + Clone + Drop, A: Allocator + Clone>(
    rt: R,
    alloc: A,
    socket: D,
    capacity: usize,
) -> MetricResult<(SocketLines<D, R, A>, SocketStats<R, A>)>
    ensures none { IfOk result (λ s. past_of s.0 ≡ []) }
    ensures refused { MayOnlyRunOutOfMemory result }
{
    let socket = CountedSocket::new(rt, alloc.clone()?, socket)?;
    let stats = socket.stats.clone()?;
    let packer = RecordedPacker::new(alloc, SocketWriter::new(socket), capacity)?;
    Ok((packer, stats))
}

/// Packs lines, each followed by a newline, into the packets of a counted socket. The packer with the log of its calls,
/// which only proofs read, is under a lock. The drop of a `PackedSocket` tries one flush.
#[derive(Drop)]
pub struct PackedSocket<D: DatagramSocket, R: Wait + Drop, A: Allocator> {
    lines: Locked<SocketLines<D, R, A>, R>,
    stats: SocketStats<R, A>,
    capacity: usize,
}

impl<D: DatagramSocket, R: Wait + Clone + Drop, A: Allocator + Clone> PackedSocket<D, R, A> {
    /// Starts with an empty buffer of `capacity` bytes. The only error is `OutOfMemory`.
    pub fn new(rt: R, alloc: A, socket: D, capacity: usize) -> MetricResult<Self>
        ensures buffer { IfOk result (λ s. buffer_of s ≡ capacity) }
        ensures refused { MayOnlyRunOutOfMemory result }
    {
        let (packer, stats) = packed_lines(rt.clone()?, alloc, socket, capacity)?;
        Ok(PackedSocket {
            lines: Locked::new(rt, packer),
            stats,
            capacity,
        })
    }
}

impl<D: DatagramSocket, R: Wait + Drop, A: Allocator> PackedSocket<D, R, A> {
    /// Returns the counts of this moment.
    pub fn stats(&self) -> SinkStats {
        SinkStats::from(&self.stats)
    }

    /// Returns the packer under its lock, so that it can be flushed. The error of a flush is the socket's, or
    /// `NothingWritten` if the socket took 0 bytes. What the socket didn't take stays held.
    pub fn lines(&self) -> &Locked<SocketLines<D, R, A>, R> {
        &self.lines
    }
}

/// Buffers or sends a line, under the lock. There are three cases:
///
/// 1. The line and its newline fit into the free room of the buffer. They are held, and nothing is sent.
/// 2. They fit into an empty buffer, but not into the free room. The held text is sent, and then they are held.
/// 3. They don't fit into an empty buffer. The held text is sent, and then the line alone, without the newline.
///
/// The answer has the line's length, or in the third case how many bytes of the line the socket took. After an error
/// nothing of the line is held. The error in `fault` is the socket's, or `NothingWritten` if the socket took 0 bytes
/// of the held text. The receipt shows the packer before and after it took or refused this line.
impl<D: DatagramSocket, R: Wait + Drop, A: Allocator> AnsweringSink for PackedSocket<D, R, A> {
    ghost use Rattle.cadence_sinks.specs.Shows.{SocketShows};

    type Receipt = Receipt<SocketLines<D, R, A>>;

    ghost may_answer = { λ s line answer.
        IsBufferedAnswer D.may_give (buffer_of s) line answer };

    ghost shows = { λ s receipt line answer.
        SocketShows D.may_give (buffer_of s) receipt line answer };

    // A line that fits into an empty buffer is never cut, so its answer is the line's length. But no clause ties the
    // capacity beside the lock to that of the packer under it.
    // Without this hint a line of `bench udp 512 20` takes 21 instructions more.
    #[inline(always)]
    fn emit_line(&self, line: &str, fault: &mut SinkError) -> (Option<usize>, Self::Receipt) {
        match self.lines.emit_line(line, fault) {
            (Some(_), receipt) if line.len() < self.capacity => (Some(line.len()), receipt),
            (Some(taken), receipt) => (Some(taken), receipt),
            (None, receipt) => (None, receipt),
        }
    }
}
