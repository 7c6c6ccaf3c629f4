//! Sinks over a UDP socket, and their builders: one sink sends each line as a datagram, the other packs lines into
//! datagrams.
ghost use Rattle.std.specs.Prelude.{◌≡◌, [], false, IfOk, IfErr, Some, None, is_some, unwrap_or, ⊤};
ghost use Rattle.cadence_flow.specs.RecordedPacker.{past_of};
ghost use Rattle.cadence_resolve.specs.Refusals.{IsSocketRefusal, IsTargetRefusal};
ghost use Rattle.cadence_stage.specs.Answered.{IsAnswered, IsFlushAnswered, answered_by_holding_nothing};
ghost use Rattle.cadence_sinks.specs.Buffers.{udp_buffer};
ghost use Rattle.cadence_sinks.specs.Sockets.{IsBufferedAnswer, IsBufferedFlush, IsSocketAnswer, is_io};
ghost use Rattle.cadence_sinks.specs.Udp.{SendsTo, buffered_options, looks_up_again, no_options, options_of};

use crate::datagram::{CountedSocket, DatagramSocket, PackedSocket, SocketLines, packed_lines};
use cadence_errors::{MetricResult, SinkError};
use cadence_flow::io::DEFAULT_CAPACITY;
use cadence_flow::stats::{SinkStats, Unread};
use cadence_flow::{Handler, MetricSink, SinkErrorHandler, SocketStats};
use cadence_resolve::{Family, Resolver, Runtime, StaticResolver, Target};
use cadence_stage::{OneCall, emit_by, flush_by};
use std::alloc::{Allocator, Global};
use std::net::{Net, UdpSocket};
use std::sync::Wait;
use std::time::Duration;

/// A UDP socket with the resolver of the address that it sends to.
#[derive(Drop)]
pub struct UdpPeer<R: Wait + Drop, A: Allocator> {
    pub socket: UdpSocket,
    pub resolver: Resolver<R, A>,
}

impl<R: Wait + Drop, A: Allocator> DatagramSocket for UdpPeer<R, A> {
    ghost may_give = { is_io };

    ghost may_answer = { λ _ _ _. ⊤ };

    fn send(&self, packet: &[u8], fault: &mut SinkError) -> Unread {
        let taken = match self.socket.send_to(packet, self.resolver.get_addr()) {
            Ok(n) => Some(n),
            Err(error) => {
                self.resolver.note_refusal();
                *fault = SinkError::Io(error);
                None
            }
        };
        Unread::of(taken, packet)
    }
}

/// The packer of a sink over a UDP socket.
pub type UdpLines<R, A> = SocketLines<UdpPeer<R, A>, R, A>;

/// A sink that sends each line as a UDP datagram, in the thread of the caller.
///
/// `emit` returns how many bytes of the line the socket took, or `Io`. The counts include each call of the socket. The
/// sink keeps the runtime `R`, whose locks it takes. Its drop stops the lookups, and doesn't wait for them.
///
/// ```text
/// let socket = UdpSocket::bind(rt, SocketAddr::from((Ipv4Addr::UNSPECIFIED, 0)))?;
/// let target = Target::Name {
///     host: String::from_str(alloc, "localhost")?,
///     port: DEFAULT_PORT,
/// };
/// let sink = UdpMetricSink::from(rt.clone()?, alloc, target, socket)?;
/// ```
#[derive(Drop)]
pub struct UdpMetricSink<R: Wait + Drop, A: Allocator = Global> {
    socket: CountedSocket<UdpPeer<R, A>, R, A>,
}

impl<R: Net + Wait + Drop, A: Allocator + Clone> UdpMetricSink<R, A> {
    /// Makes a sink over a socket that the caller bound. The target is looked up once, now, and the sink sends to its
    /// first address of the socket's family, or if it has none to its first address.
    ///
    /// The errors are `SinkError::Io` if the lookup fails, the kind `InvalidInput` if the name has no address, and
    /// `SinkError::OutOfMemory`. After an error the socket is dropped.
    pub fn from(rt: R, alloc: A, target: Target<A>, socket: UdpSocket) -> MetricResult<Self>
        ensures once { IfOk result (λ s. looks_up_again s ≡ false) }
        ensures address { IfOk result (λ s. SendsTo s target) }
        ensures refused { IfErr result (λ e. IsTargetRefusal target e) }
    {
        let resolver = Resolver::Static(StaticResolver::new(
            &rt,
            &target,
            Family::of_socket(&socket),
        )?);
        let socket = CountedSocket::new(rt, alloc, UdpPeer { socket, resolver })?;
        Ok(UdpMetricSink { socket })
    }
}

impl<R: Wait + Drop, A: Allocator> UdpMetricSink<R, A> {
    /// Returns a builder without any setting.
    pub fn builder() -> UdpMetricSinkBuilder
        ensures { options_of result ≡ no_options }
    {
        UdpMetricSinkBuilder::new()
    }
}

impl<R: Wait + Drop, A: Allocator> MetricSink for UdpMetricSink<R, A> {
    ghost may_answer = { λ _ line answer.
        IsSocketAnswer is_io line answer × IsAnswered line answer };

    ghost flush_may_succeed = { λ _ _. tt };

    #[inline(always)]
    fn emit(&self, line: &str) -> Result<usize, SinkError> {
        let mut fault = SinkError::NothingWritten;
        emit_by(OneCall::of(&self.socket), line, &mut fault).ok_or(fault)
    }

    fn stats(&self) -> SinkStats {
        self.socket.stats()
    }
}

/// Makes a `UdpMetricSink`. Without a period the target is looked up once.
///
/// ```text
/// let builder = UdpMetricSinkBuilder::new().with_resolver_period(Duration::from_secs(60));
/// let sink = builder.build(rt.clone()?, alloc, target, socket)?;
/// ```
#[derive(Drop)]
pub struct UdpMetricSinkBuilder {
    period: Option<Duration>,
    handler: Option<Handler>,
}

impl UdpMetricSinkBuilder {
    /// Returns a builder without any setting.
    pub fn new() -> Self
        ensures { options_of result ≡ no_options }
    {
        UdpMetricSinkBuilder {
            period: None,
            handler: None,
        }
    }

    /// Lets a thread look the target up again after each period. After a refused packet it does so earlier, as soon as
    /// a second has passed since the last lookup. The thread sleeps in between. A period below one millisecond counts
    /// as one millisecond. The drop of the sink wakes the thread, which then ends after one more lookup at the latest.
    pub fn with_resolver_period(mut self, period: Duration) -> Self
        ensures { options_of result ≡ record (options_of self) { period = Some period } }
    {
        self.period = Some(period);
        self
    }

    /// Sets the handler of lookups after the first one. It receives the error of each lookup that fails, and
    /// `NoAddresses` if one gives no address. It runs in the thread that looks up. Without a period it is never called.
    pub fn with_resolver_error_handler(mut self, handler: SinkErrorHandler) -> Self
        requires { IsAlwaysCallable handler }
        ensures { options_of result ≡ record (options_of self) { handler = Some handler } }
    {
        self.handler = Some(Handler::new(handler));
        self
    }

    /// Makes the sink over a socket that the caller bound, and starts the thread of its resolver if there is a period.
    ///
    /// The errors are `SinkError::Io` if the first lookup fails or the thread can't be started, the kind `InvalidInput`
    /// if the name has no address, and `SinkError::OutOfMemory`. After an error the socket is dropped.
    pub fn build<R: Runtime, A: Allocator + Clone + Send + Sync + 'static>(
        self,
        rt: R,
        alloc: A,
        target: Target<A>,
        socket: UdpSocket,
    ) -> MetricResult<UdpMetricSink<R, A>>
        ensures periodic { IfOk result (λ s. looks_up_again s ≡ is_some (options_of self).period) }
        ensures address { IfOk result (λ s. SendsTo s target) }
        ensures refused { IfErr result (λ e. IsSocketRefusal e) }
        ensures once { (options_of self).period ≡ None →
            IfErr result (λ e. IsTargetRefusal target e) }
    {
        let family = Family::of_socket(&socket);
        let resolver = Resolver::new(&rt, &alloc, target, family, self.period, self.handler)?;
        let socket = CountedSocket::new(rt, alloc, UdpPeer { socket, resolver })?;
        Ok(UdpMetricSink { socket })
    }
}

/// A sink that buffers lines, each followed by a newline, and sends them packed into UDP datagrams.
///
/// It sends the held text as one datagram when the next line doesn't fit, at a flush, and when it is dropped. A line
/// that with its newline passes the capacity is sent alone, without the newline. `emit` returns the line's length, or
/// for a line that was sent alone how many bytes the socket took. The errors are `Io`, and `NothingWritten` if the
/// socket took 0 bytes of the held text; what the socket didn't take stays held. The counts include each call of the
/// socket. The sink keeps the runtime `R`, whose locks it takes. Its drop stops the lookups, and doesn't wait for them.
///
/// A datagram holds at most 65,507 bytes over IPv4, and 65,527 over IPv6. With a larger capacity the held text can
/// become longer than that. Then the system refuses it for its size (`EMSGSIZE`) at each flush. It stays held, so each
/// later line for which the buffer has no room is refused too. Only the ready-made sinks refuse such a capacity.
///
/// ```text
/// let sink = BufferedUdpMetricSink::with_capacity(rt.clone()?, alloc, target, socket, 1432)?;
/// ```
#[derive(Drop)]
pub struct BufferedUdpMetricSink<R: Wait + Drop, A: Allocator = Global> {
    socket: PackedSocket<UdpPeer<R, A>, R, A>,
}

impl<R: Net + Wait + Clone + Drop, A: Allocator + Clone> BufferedUdpMetricSink<R, A> {
    /// Makes a sink with a buffer of 512 bytes, which each datagram can hold. Otherwise it does what `with_capacity`
    /// does, with the same errors.
    pub fn from(rt: R, alloc: A, target: Target<A>, socket: UdpSocket) -> MetricResult<Self>
        ensures buffer { IfOk result (λ s. udp_buffer s ≡ 512) }
        ensures refused { IfErr result (λ e. IsTargetRefusal target e) }
    {
        Self::with_capacity(rt, alloc, target, socket, DEFAULT_CAPACITY)
    }

    /// Makes a sink with a buffer of `capacity` bytes over a socket that the caller bound. A capacity of more than
    /// 65,507 bytes is a mistake over IPv4, as the comment of the type says. The target is looked up once, now, and the
    /// sink sends to its first address of the socket's family, or if it has none to its first address.
    ///
    /// The errors are `SinkError::Io` if the lookup fails, the kind `InvalidInput` if the name has no address, and
    /// `SinkError::OutOfMemory`. After an error the socket is dropped.
    pub fn with_capacity(
        rt: R,
        alloc: A,
        target: Target<A>,
        socket: UdpSocket,
        capacity: usize,
    ) -> MetricResult<Self>
        ensures buffer { IfOk result (λ s. udp_buffer s ≡ capacity) }
        ensures refused { IfErr result (λ e. IsTargetRefusal target e) }
    {
        let resolver = Resolver::Static(StaticResolver::new(
            &rt,
            &target,
            Family::of_socket(&socket),
        )?);
        let socket = PackedSocket::new(rt, alloc, UdpPeer { socket, resolver }, capacity)?;
        Ok(BufferedUdpMetricSink { socket })
    }
}

impl<R: Wait + Drop, A: Allocator> BufferedUdpMetricSink<R, A> {
    /// Returns a builder without any setting.
    pub fn builder() -> BufferedUdpMetricSinkBuilder
        ensures { buffered_options result ≡ no_options }
    {
        BufferedUdpMetricSinkBuilder::new()
    }
}

impl<R: Wait + Drop, A: Allocator> MetricSink for BufferedUdpMetricSink<R, A> {
    ghost may_answer = { λ s line answer.
        IsBufferedAnswer is_io (udp_buffer s) line answer × IsAnswered line answer };

    ghost may_flush = { λ _ answer. IsBufferedFlush is_io answer × IsFlushAnswered answer };

    ghost flush_may_succeed = { λ _ held. (tt, answered_by_holding_nothing held) };

    #[inline(always)]
    fn emit(&self, line: &str) -> Result<usize, SinkError> {
        let mut fault = SinkError::NothingWritten;
        emit_by(OneCall::of(&self.socket), line, &mut fault).ok_or(fault)
    }

    fn flush(&self) -> Result<(), SinkError> {
        let mut fault = SinkError::NothingWritten;
        flush_by(OneCall::of(self.socket.lines()), &mut fault).ok_or(fault)
    }

    fn stats(&self) -> SinkStats {
        self.socket.stats()
    }
}

/// Makes a `BufferedUdpMetricSink`. Without a capacity the buffer has 512 bytes. Without a period the target is looked
/// up once.
#[derive(Drop)]
pub struct BufferedUdpMetricSinkBuilder {
    capacity: Option<usize>,
    lookups: UdpMetricSinkBuilder,
}

impl BufferedUdpMetricSinkBuilder {
    /// Returns a builder without any setting.
    pub fn new() -> Self
        ensures { buffered_options result ≡ no_options }
    {
        BufferedUdpMetricSinkBuilder {
            capacity: None,
            lookups: UdpMetricSinkBuilder::new(),
        }
    }

    // Returns a builder with these settings of the lookups, and without a capacity.
    pub(crate) fn of_lookups(lookups: UdpMetricSinkBuilder) -> Self
        ensures { buffered_options result ≡ options_of lookups }
    {
        BufferedUdpMetricSinkBuilder {
            capacity: None,
            lookups,
        }
    }

    /// Sets the capacity of the buffer, in bytes. More than 65,507 are a mistake over IPv4, as the comment of
    /// `BufferedUdpMetricSink` says.
    pub fn with_capacity(mut self, capacity: usize) -> Self
        ensures { buffered_options result
            ≡ record (buffered_options self) { capacity = Some capacity } }
    {
        self.capacity = Some(capacity);
        self
    }

    /// Sets a period, as `UdpMetricSinkBuilder::with_resolver_period` does.
    pub fn with_resolver_period(self, period: Duration) -> Self
        ensures { buffered_options result
            ≡ record (buffered_options self) { period = Some period } }
    {
        BufferedUdpMetricSinkBuilder {
            capacity: self.capacity,
            lookups: self.lookups.with_resolver_period(period),
        }
    }

    /// Sets the handler of lookups, as `UdpMetricSinkBuilder::with_resolver_error_handler` does.
    pub fn with_resolver_error_handler(self, handler: SinkErrorHandler) -> Self
        requires { IsAlwaysCallable handler }
        ensures { buffered_options result
            ≡ record (buffered_options self) { handler = Some handler } }
    {
        BufferedUdpMetricSinkBuilder {
            capacity: self.capacity,
            lookups: self.lookups.with_resolver_error_handler(handler),
        }
    }

    /// Makes the sink over a socket that the caller bound, and starts the thread of its resolver if there is a period.
    ///
    /// The errors are `SinkError::Io` if the first lookup fails or the thread can't be started, the kind `InvalidInput`
    /// if the name has no address, and `SinkError::OutOfMemory`. After an error the socket is dropped.
    pub fn build<R: Runtime, A: Allocator + Clone + Send + Sync + 'static>(
        self,
        rt: R,
        alloc: A,
        target: Target<A>,
        socket: UdpSocket,
    ) -> MetricResult<BufferedUdpMetricSink<R, A>>
        ensures buffer { IfOk result (λ s.
            udp_buffer s ≡ unwrap_or (buffered_options self).capacity 512) }
        ensures refused { IfErr result (λ e. IsSocketRefusal e) }
        ensures once { (buffered_options self).period ≡ None →
            IfErr result (λ e. IsTargetRefusal target e) }
    {
        let capacity = self.capacity.unwrap_or(DEFAULT_CAPACITY);
        let UdpMetricSinkBuilder { period, handler } = self.lookups;
        let family = Family::of_socket(&socket);
        let resolver = Resolver::new(&rt, &alloc, target, family, period, handler)?;
        let socket = PackedSocket::new(rt, alloc, UdpPeer { socket, resolver }, capacity)?;
        Ok(BufferedUdpMetricSink { socket })
    }

    /// Makes the packer of the sink that `build` makes, which took no line yet, and the counts of its socket, for a queue
    /// whose worker feeds it. The errors are those of `build`.
    pub fn build_stage<R: Runtime, A: Allocator + Clone + Send + Sync + 'static>(
        self,
        rt: R,
        alloc: A,
        target: Target<A>,
        socket: UdpSocket,
    ) -> MetricResult<(UdpLines<R, A>, SocketStats<R, A>)>
        ensures none { IfOk result (λ s. past_of s.0 ≡ []) }
        ensures refused { IfErr result (λ e. IsSocketRefusal e) }
    {
        let capacity = self.capacity.unwrap_or(DEFAULT_CAPACITY);
        let UdpMetricSinkBuilder { period, handler } = self.lookups;
        let family = Family::of_socket(&socket);
        let resolver = Resolver::new(&rt, &alloc, target, family, period, handler)?;
        packed_lines(rt, alloc, UdpPeer { socket, resolver }, capacity)
    }
}
