//! Sinks over a datagram socket that sends to a path: one sends each line alone, the other packs lines.
ghost use Rattle.std.specs.Prelude.{◌≡◌, [], Bool, IfOk, List, Result, string_bytes, true, ℕ, ⊤};
ghost use Rattle.cadence_errors.specs.Errors.{MayOnlyRunOutOfMemory};
ghost use Rattle.cadence_errors.specs.declared.SinkError.{SinkError};
ghost use Rattle.cadence_flow.specs.RecordedPacker.{past_of};
ghost use Rattle.cadence_stage.specs.Answered.{IsAnswered, IsFlushAnswered, answered_by_holding_nothing};
ghost use Rattle.cadence_sinks.specs.Buffers.{unix_buffer};
ghost use Rattle.cadence_sinks.specs.Sockets.{IsBufferedAnswer, IsBufferedFlush, IsSocketAnswer};
ghost use Rattle.cadence_sinks.specs.Unix.{unix_path};

use super::datagram::{CountedSocket, DatagramSocket, PackedSocket, SocketLines, packed_lines};
use cadence_errors::{MetricResult, SinkError};
use cadence_flow::io::DEFAULT_CAPACITY;
use cadence_flow::stats::{SinkStats, Unread};
use cadence_flow::{MetricSink, SocketStats};
use cadence_stage::{OneCall, emit_by, flush_by};
use std::alloc::{Allocator, Global};
use std::sync::Wait;

/// A datagram socket that sends to paths, as a Unix datagram socket does. An impl may state which errors it returns.
pub trait PathSocket: Drop {
    /// The errors that the socket may return.
    ghost may_give: { SinkError → Bool } = { λ _. true };

    /// What the socket may answer for a packet to a path. Code for any socket can show this only by a call of `send_to`.
    ghost may_answer: { Self → List ℕ → List ℕ → Result ℕ SinkError → Type 0 } = { λ _ _ _ _. ⊤ };

    /// Sends a packet to a path, and returns how many of its first bytes were taken. A buffered sink calls it while it
    /// holds the lock of its buffer, so it must not send a metric over its own sink: that would wait for ever.
    fn send_to(&self, packet: &[u8], path: &str) -> Result<usize, SinkError>
        ensures answer { IsSocketAnswer may_give packet.now result }
        ensures asked { may_answer self.now packet.now path.now result };
}

// A socket with the path that it sends to.
#[derive(Drop)]
pub struct PathPeer<P: PathSocket, A: Allocator> {
    socket: P,
    path: String<A>,
}

impl<P: PathSocket, A: Allocator> DatagramSocket for PathPeer<P, A> {
    ghost may_give = { P.may_give };

    ghost may_answer = { λ s packet answer.
        P.may_answer s.socket packet (string_bytes s.path) answer };

    fn send(&self, packet: &[u8], fault: &mut SinkError) -> Unread {
        let taken = match self.socket.send_to(packet, self.path.as_str()) {
            Ok(n) => Some(n),
            Err(error) => {
                *fault = error;
                None
            }
        };
        Unread::of(taken, packet)
    }
}

/// The packer of a sink over a Unix socket.
pub type UnixLines<P, R, A> = SocketLines<PathPeer<P, A>, R, A>;

/// A sink that sends each line as a datagram to a path, in the thread of the caller.
///
/// `emit` returns how many bytes of the line the socket took, or the socket's error. The counts include each call of
/// the socket. The sink keeps the runtime `R`, whose locks it takes.
///
/// ```text
/// let sink = UnixMetricSink::from(rt.clone()?, alloc, "/run/statsd.sock", socket)?;
/// ```
#[derive(Drop)]
pub struct UnixMetricSink<P: PathSocket, R: Wait + Drop, A: Allocator = Global> {
    socket: CountedSocket<PathPeer<P, A>, R, A>,
}

impl<P: PathSocket, R: Wait + Drop, A: Allocator + Clone> UnixMetricSink<P, R, A> {
    /// Makes a sink over a socket that the caller made. The only error is `OutOfMemory`; the socket is dropped then.
    pub fn from(rt: R, alloc: A, path: &str, socket: P) -> MetricResult<Self>
        ensures path { IfOk result (λ s. unix_path s ≡ path.now) }
        ensures refused { MayOnlyRunOutOfMemory result }
    {
        let path = String::from_str(alloc.clone()?, path)?;
        let socket = CountedSocket::new(rt, alloc, PathPeer { socket, path })?;
        Ok(UnixMetricSink { socket })
    }
}

impl<P: PathSocket, R: Wait + Drop, A: Allocator> MetricSink for UnixMetricSink<P, R, A> {
    ghost may_answer = { λ _ line answer.
        IsSocketAnswer P.may_give line answer × IsAnswered line answer };

    ghost flush_may_succeed = { λ _ _. tt };

    #[inline(always)]
    fn emit(&self, line: &str) -> Result<usize, SinkError> {
        let mut fault = SinkError::NothingWritten;
        emit_by(OneCall::of(&self.socket), line, &mut fault).ok_or(fault)
    }

    fn stats(&self) -> SinkStats {
        self.socket.stats()
    }
}

/// A sink that buffers lines, each followed by a newline, and sends them packed into datagrams to a path.
///
/// It sends the held text as one datagram when the next line doesn't fit, at a flush, and when it is dropped. A line
/// that with its newline passes the capacity is sent alone, without the newline. `emit` returns the line's length, or
/// for a line that was sent alone how many bytes the socket took. The errors are the socket's, and `NothingWritten` if
/// the socket took 0 bytes of the held text; what the socket didn't take stays held. The counts include each call of
/// the socket. The sink keeps the runtime `R`, whose locks it takes.
///
/// A Unix datagram holds as many bytes as the send buffer of its socket, less 32: on Linux 212,960, unless
/// `net.core.wmem_default` says otherwise. With a larger capacity the held text can become longer than that. Then the
/// system refuses it for its size (`EMSGSIZE`) at each flush. It stays held, so each later line for which the buffer
/// has no room is refused too. Only the ready-made sinks refuse a capacity: one of more than 65,507 bytes.
///
/// ```text
/// let sink = BufferedUnixMetricSink::from(rt.clone()?, alloc, "/run/statsd.sock", socket)?;
/// ```
#[derive(Drop)]
pub struct BufferedUnixMetricSink<P: PathSocket, R: Wait + Drop, A: Allocator = Global> {
    socket: PackedSocket<PathPeer<P, A>, R, A>,
}

impl<P: PathSocket, R: Wait + Clone + Drop, A: Allocator + Clone> BufferedUnixMetricSink<P, R, A> {
    /// Makes a sink with a buffer of 512 bytes, which each datagram can hold, over a socket that the caller made. The
    /// only error is `OutOfMemory`; the socket is dropped then.
    pub fn from(rt: R, alloc: A, path: &str, socket: P) -> MetricResult<Self>
        ensures buffer { IfOk result (λ s. unix_buffer s ≡ 512) }
        ensures refused { MayOnlyRunOutOfMemory result }
    {
        Self::with_capacity(rt, alloc, path, socket, DEFAULT_CAPACITY)
    }

    /// Makes a sink with a buffer of `capacity` bytes over a socket that the caller made. A capacity of more bytes than
    /// the socket takes at once is a mistake, as the comment of the type says. The only error is `OutOfMemory`; the
    /// socket is dropped then.
    pub fn with_capacity(
        rt: R,
        alloc: A,
        path: &str,
        socket: P,
        capacity: usize,
    ) -> MetricResult<Self>
        ensures buffer { IfOk result (λ s. unix_buffer s ≡ capacity) }
        ensures refused { MayOnlyRunOutOfMemory result }
    {
        let path = String::from_str(alloc.clone()?, path)?;
        let socket = PackedSocket::new(rt, alloc, PathPeer { socket, path }, capacity)?;
        Ok(BufferedUnixMetricSink { socket })
    }

    /// Makes the packer of the sink that `with_capacity` makes, which took no line yet, and the counts of its socket, for
    /// a queue whose worker feeds it. The errors are those of `with_capacity`.
    pub fn stage(
        rt: R,
        alloc: A,
        path: &str,
        socket: P,
        capacity: usize,
    ) -> MetricResult<(UnixLines<P, R, A>, SocketStats<R, A>)>
        ensures none { IfOk result (λ s. past_of s.0 ≡ []) }
        ensures refused { MayOnlyRunOutOfMemory result }
    {
        let path = String::from_str(alloc.clone()?, path)?;
        packed_lines(rt, alloc, PathPeer { socket, path }, capacity)
    }
}

impl<P: PathSocket, R: Wait + Drop, A: Allocator> MetricSink for BufferedUnixMetricSink<P, R, A> {
    ghost may_answer = { λ s line answer.
        IsBufferedAnswer P.may_give (unix_buffer s) line answer × IsAnswered line answer };

    ghost may_flush = { λ _ answer. IsBufferedFlush P.may_give answer × IsFlushAnswered answer };

    ghost flush_may_succeed = { λ _ held. (tt, answered_by_holding_nothing held) };

    #[inline(always)]
    fn emit(&self, line: &str) -> Result<usize, SinkError> {
        let mut fault = SinkError::NothingWritten;
        emit_by(OneCall::of(&self.socket), line, &mut fault).ok_or(fault)
    }

    fn flush(&self) -> Result<(), SinkError> {
        let mut fault = SinkError::NothingWritten;
        flush_by(OneCall::of(self.socket.lines()), &mut fault).ok_or(fault)
    }

    fn stats(&self) -> SinkStats {
        self.socket.stats()
    }
}
