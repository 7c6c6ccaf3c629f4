//! The counts of what a sink sent and dropped; and the same under a lock, for a socket that threads share.

use cadence_errors::{MetricResult, SinkError};
use cadence_stage::{Closed, Opener, acquire};
use std::alloc::{AllocError, Allocator, Global};
use std::snapshot::Snapshot;
use std::sync::{Arc, Mutex, Wait};

/// How many bytes and packets a sink sent and dropped, each modulo 2^64. A packet that is refused and sent again later
/// counts as dropped and as sent.
#[derive(Clone, Copy, Debug, Default, PartialEq, Eq)]
pub struct SinkStats {
    /// The bytes that the writer took.
    pub bytes_sent: u64,
    /// The packets that the writer took, in part or whole. An empty packet counts too.
    pub packets_sent: u64,
    /// The bytes of the packets that the writer refused.
    pub bytes_dropped: u64,
    /// The packets that the writer refused.
    pub packets_dropped: u64,
}

impl SinkStats {
    ghost use Rattle.std.specs.Prelude.{◌≡◌, ◌+◌, ◌%◌, ◌^◌, IfSome, None};
    ghost use Rattle.cadence_flow.specs.Sums.{after_answer, after_refused, after_taken};
    ghost use Rattle.cadence_flow.specs.Unread.{len_of, count_taken};

    /// Adds one packet sent, of which the writer took `n` bytes.
    pub fn add_taken(&mut self, n: usize)
        ensures { self.new ≡ after_taken self.old n }
    {
        self.add_bytes_sent(n as u64);
        self.add_packet_sent();
    }

    /// Adds one packet dropped, of `len` bytes.
    pub fn add_refused(&mut self, len: usize)
        ensures { self.new ≡ after_refused self.old len }
    {
        self.add_bytes_dropped(len as u64);
        self.add_packet_dropped();
    }

    /// Adds a packet of `len` bytes by the writer's result: `Ok(n)` is a packet sent, with `n` bytes, and an error is a
    /// packet dropped, with `len` bytes.
    pub fn add_answer(&mut self, answer: &Result<usize, SinkError>, len: usize)
        ensures { self.new ≡ after_answer self.old answer.now len }
    {
        match answer {
            Ok(n) => self.add_taken(*n),
            Err(_) => self.add_refused(len),
        }
    }

    /// Counts what a socket answered for a packet of `len` bytes, and returns how many bytes the socket took: `Some(n)`
    /// is a packet sent, with `n` bytes, and `None` is a packet dropped, with `len` bytes.
    pub fn count(&mut self, answer: Unread, len: usize) -> Option<usize>
        requires { len ≡ len_of answer }
        ensures same { result ≡ count_taken answer }
        ensures taken { IfSome result (λ n. self.new ≡ after_taken self.old n) }
        ensures refused { result ≡ None → self.new ≡ after_refused self.old len }
    {
        let Unread { taken, len: _ } = answer;
        match taken {
            Some(n) => self.add_taken(n),
            None => self.add_refused(len),
        }
        taken
    }

    /// Adds `n` bytes sent.
    pub fn add_bytes_sent(&mut self, n: u64)
        ensures { self.new ≡
            record self.old { bytes_sent = (self.old.bytes_sent + n) % 2 ^ 64 } }
    {
        self.bytes_sent = self.bytes_sent.wrapping_add(n);
    }

    /// Adds one packet sent.
    pub fn add_packet_sent(&mut self)
        ensures { self.new ≡
            record self.old { packets_sent = (self.old.packets_sent + 1) % 2 ^ 64 } }
    {
        self.packets_sent = self.packets_sent.wrapping_add(1);
    }

    /// Adds `n` bytes dropped.
    pub fn add_bytes_dropped(&mut self, n: u64)
        ensures { self.new ≡
            record self.old { bytes_dropped = (self.old.bytes_dropped + n) % 2 ^ 64 } }
    {
        self.bytes_dropped = self.bytes_dropped.wrapping_add(n);
    }

    /// Adds one packet dropped.
    pub fn add_packet_dropped(&mut self)
        ensures { self.new ≡
            record self.old { packets_dropped = (self.old.packets_dropped + 1) % 2 ^ 64 } }
    {
        self.packets_dropped = self.packets_dropped.wrapping_add(1);
    }
}

/// What a socket answered for a packet, before it was counted. It can't be let go, because its type has no `Drop`, and
/// only `SinkStats::count` opens it.
pub struct Unread {
    taken: Option<usize>,
    len: Snapshot<usize>,
}

impl Unread {
    ghost use Rattle.std.specs.Prelude.{◌≡◌, length};
    ghost use Rattle.cadence_flow.specs.Unread.{len_of, count_taken};

    /// Keeps what a socket answered for this packet: how many bytes it took, or `None` if it refused the packet.
    pub fn of(taken: Option<usize>, packet: &[u8]) -> Unread
        ensures taken { count_taken result ≡ taken }
        ensures len { len_of result ≡ length packet.now }
    {
        Unread {
            taken,
            len: Snapshot::of(&packet.len()),
        }
    }
}

/// The four counts of a `SinkStats` for a sink over a socket, under a lock. A clone shares the counts of its original.
/// The four numbers of one reading are of the same moment. It stores the runtime `R`, which taking the lock needs.
#[derive(Drop)]
pub struct SocketStats<R: Wait + Drop, A: Allocator = Global> {
    rt: R,
    counts: Arc<Mutex<SinkStats>, A>,
}

impl<R: Wait + Drop, A: Allocator> SocketStats<R, A> {
    ghost use Rattle.std.specs.Prelude.{◌≡◌};
    ghost use Rattle.cadence_errors.specs.Errors.{MayOnlyRunOutOfMemory};
    ghost use Rattle.cadence_flow.specs.Unread.{len_of, count_taken, counted_of};

    /// Makes four counts of 0. The only error is `OutOfMemory`.
    pub fn new(rt: R, alloc: A) -> MetricResult<Self>
        ensures { MayOnlyRunOutOfMemory result }
    {
        let counts = Arc::new(alloc, Mutex::new(SinkStats::default()))?;
        Ok(SocketStats { rt, counts })
    }

    /// Adds `n` bytes sent.
    pub fn incr_bytes_sent(&self, n: u64) {
        acquire(&self.counts, &self.rt).add_bytes_sent(n);
    }

    /// Adds one packet sent.
    pub fn incr_packets_sent(&self) {
        acquire(&self.counts, &self.rt).add_packet_sent();
    }

    /// Adds `n` bytes dropped.
    pub fn incr_bytes_dropped(&self, n: u64) {
        acquire(&self.counts, &self.rt).add_bytes_dropped(n);
    }

    /// Adds one packet dropped.
    pub fn incr_packets_dropped(&self) {
        acquire(&self.counts, &self.rt).add_packet_dropped();
    }

    /// Counts a packet of `len` bytes by the socket's result, in one step: `Ok(n)` is a packet sent, with `n` bytes,
    /// and an error is a packet dropped, with `len` bytes.
    pub fn note(&self, answer: &Result<usize, SinkError>, len: usize) {
        acquire(&self.counts, &self.rt).add_answer(answer, len);
    }

    /// Counts what a socket answered for a packet of `len` bytes, and returns how many bytes the socket took.
    // Without this hint a line of `bench udp 16 20` takes 15 instructions more.
    #[inline(always)]
    pub fn count(&self, answer: Unread, len: usize) -> Option<usize>
        requires { len ≡ len_of answer }
        ensures { result ≡ count_taken answer }
    {
        let mut counts = acquire(&self.counts, &self.rt);
        counts.count(answer, len)
    }

    /// Counts what a socket answered for a line of `len` bytes, and returns how many bytes the socket took, with a
    /// receipt of a sink.
    pub fn count_line(&self, answer: Unread, len: usize) -> (Option<usize>, Counted)
        requires { len ≡ len_of answer }
        ensures same { result.0 ≡ count_taken answer }
        ensures shows { counted_of result.1 ≡ count_taken answer }
    {
        let taken = self.count(answer, len);
        let counted = Counted {
            taken: Snapshot::of(&taken),
        };
        (taken, counted)
    }

    /// Counts a packet as `note` does, and returns the socket's result unchanged.
    pub fn update(&self, answer: Result<usize, SinkError>, len: usize) -> Result<usize, SinkError>
        ensures { result ≡ answer }
    {
        self.note(&answer, len);
        answer
    }
}

impl<R: Wait + Clone + Drop, A: Allocator + Clone> Clone for SocketStats<R, A> {
    fn clone(&self) -> Result<Self, AllocError> {
        let rt = self.rt.clone()?;
        let counts = self.counts.clone()?;
        Ok(SocketStats { rt, counts })
    }
}

/// Shows that a socket took or refused a line, and that this was counted. It can't be let go, because its type has no
/// `Drop`.
pub struct Counted {
    taken: Snapshot<Option<usize>>,
}

impl Closed for Counted {
    fn close(self, _by: Opener) {
        let Counted { taken: _ } = self;
    }
}

/// Reads the four counts at one moment.
impl<R: Wait + Drop, A: Allocator> From<&SocketStats<R, A>> for SinkStats {
    fn from(stats: &SocketStats<R, A>) -> SinkStats {
        *acquire(&stats.counts, &stats.rt)
    }
}
