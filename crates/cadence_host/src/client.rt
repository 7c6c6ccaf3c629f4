//! A client of C: its held text and its queue of packets.
ghost use Rattle.std.specs.Prelude.{◌≡◌};

use crate::call::COptions;
use crate::line::{LineValue, test_call};
use crate::packet::Packet;
use crate::settings::CSettings;
use crate::status::{StatusError, copy_out};
use cadence_flow::io::HeldLines;
use cadence_queue::{QueueCore, QueuePolicy, Taken};
use cadence_settings::key_text;
use std::alloc::Global;
use std::marker::Model;
use std::mem;

/// The counts of a client: `held` is the length of the held text in bytes, and `waiting` the number of packets that
/// wait. Of all packets, `made` became part of the queue, `sent` were dropped because the host had sent them, and
/// `dropped` were dropped to make room. The last three are modulo 2 to the 64.
#[repr(C)]
#[derive(Clone, Copy)]
pub struct CCounts {
    pub held: usize,
    pub waiting: usize,
    pub made: u64,
    pub sent: u64,
    pub dropped: u64,
}

/// A client: the held text of the next packet, the packets that wait for the host, and the buffer in which each call
/// makes its line. Contracts see it as a `ClientState`, without the buffer.
#[derive(Drop)]
pub struct Client {
    lines: HeldLines,
    queue: QueueCore<Packet>,
    line_buffer: Vec<u8>,
}

impl Model for Client {
    ghost use Rattle.std.specs.Prelude.{◌≡◌, ◌≤◌, codes, false, IfSome, IsSome};
    ghost use Rattle.cadence_host.specs.ClientState.{ClientState};

    ghost Value = { ClientState };

    ghost view = { λ p. record {
      queue = p.queue;
      held = p.lines.text;
      capacity = p.lines.format.capacity;
    } };

    ghost invariant = { λ p.
        (p.lines.format.ending ≡ codes "\n")
        × IsSome p.queue.capacity × IfSome p.queue.capacity (λ most. 2 ≤ most)
        × (p.queue.stopped ≡ false) };
}

impl Client {
    ghost use Rattle.std.specs.Prelude.{[], ◌∷◌, take, Some, ◌≡◌, ◌<◌, ◌≤◌, ◌+◌, IfOk, OnOk, OnErr, IsTrue, ◌↔◌, length, true};
    ghost use Rattle.cadence_host.specs.Calls.{IsUtf8IfKnown, kind_named};
    ghost use Rattle.cadence_host.specs.Tests.{Tests};
    ghost use Rattle.cadence_host.specs.Texts.{IsUtf8Settings};
    ghost use Rattle.cadence_text.specs.declared.line.MetricType.{MetricType};
    ghost use Rattle.cadence_host.specs.Status.{status, CADENCE_FULL, CADENCE_INVALID, CADENCE_NO_MEMORY, CADENCE_NO_PACKET, CADENCE_NOT_UTF8, CADENCE_OK, CADENCE_SEPARATOR, CADENCE_TOO_SMALL, IsOkOr};
    ghost use Rattle.cadence_host.specs.ClientState.{new_state, queue_with_packet, AreCountsOf, DropsHeld, DropsOldest, PacksHeld, HasNoPacket, IsOldest, IsOldestLength, KeepsCall, LacksRoom, LacksRoomForCall, LacksRoomForHeld, Packs};

    /// Makes a client without packets: `capacity` is how many bytes a packet holds, and `most` is how many packets may
    /// wait. The error is `NoMemory`.
    pub fn new(
        alloc: Global,
        capacity: usize,
        most: usize,
        policy: QueuePolicy,
    ) -> Result<Client, StatusError>
        requires { 2 ≤ most }
        ensures made { IfOk result (λ p. p ≡ new_state capacity most policy) }
        ensures statuses { IsOkOr (CADENCE_NO_MEMORY ∷ []) (status result) }
    {
        let lines = HeldLines::new(alloc, capacity)?;
        let Ok(queue) = QueueCore::with_policy(alloc, Some(most), policy) else {
            return Err(StatusError::NoMemory);
        };
        Ok(Client {
            lines,
            queue,
            line_buffer: Vec::new(alloc),
        })
    }

    // Returns whether the queue refuses packets if it is full, and has no room for `packets` more.
    fn lacks_room(&self, packets: usize) -> bool
        ensures { IsTrue result ↔ LacksRoom self.now.queue packets }
    {
        let Some(most) = self.queue.capacity() else {
            unreachable!()
        };
        self.queue.policy() == QueuePolicy::Refuse && most - self.queue.waiting() < packets
    }

    // Adds a packet to the queue. Under `DropOldest` a full queue drops its oldest packet first.
    fn add_packet(&mut self, packet: Packet)
        requires { LacksRoom self.old.queue 1 → ⊥ }
        ensures { self.new ≡ record self.old { queue = queue_with_packet self.old.queue packet } }
    {
        let Ok(_dropped) = self.queue.submit(packet) else {
            unreachable!()
        };
    }

    /// Makes a packet of the held text, if there is any. The errors are `Full` and `NoMemory`; after them the client is
    /// as it was.
    pub fn flush(&mut self, alloc: Global) -> Result<(), StatusError>
        ensures flushed { OnOk result (PacksHeld self.old self.new) }
        ensures refused { OnErr result (self.new ≡ self.old) }
        ensures full { status result ≡ CADENCE_FULL → LacksRoomForHeld self.old }
        ensures statuses { IsOkOr (CADENCE_NO_MEMORY ∷ CADENCE_FULL ∷ []) (status result) }
    {
        if self.lines.is_empty() {
            return Ok(());
        }
        if self.lacks_room(1) {
            return Err(StatusError::Full);
        }
        let packet = self.lines.take_text(alloc)?;
        self.add_packet(Packet::new(packet));
        Ok(())
    }

    // Makes a packet of the held text, if there is any, and then another one of an oversize line, without its newline.
    fn pack_oversize(&mut self, alloc: Global, line: &[u8]) -> Result<(), StatusError>
        requires { self.old.capacity < length line.now + 1 }
        ensures { Packs result self.old line.now self.new }
    {
        let packets = if self.lines.is_empty() { 1 } else { 2 };
        if self.lacks_room(packets) {
            return Err(StatusError::Full);
        }
        let packet = Vec::from_slice(alloc, line)?;
        self.flush(alloc)?;
        self.add_packet(Packet::new(packet));
        Ok(())
    }

    // Keeps a line that doesn't fit beside the held text.
    fn flush_and_pack(&mut self, alloc: Global, line: &[u8]) -> Result<(), StatusError>
        requires { self.old.capacity < length self.old.held + (length line.now + 1) }
        ensures { Packs result self.old line.now self.new }
    {
        if self.lines.is_oversize(line) {
            return self.pack_oversize(alloc, line);
        }
        self.flush(alloc)?;
        let held = self.lines.hold(line);
        if !held {
            unreachable!()
        }
        Ok(())
    }

    /// Keeps a line: holds it with its newline if it fits beside the held text; otherwise makes a packet of the held
    /// text first. An oversize line becomes a packet of its own. The errors are `Full` and `NoMemory`; after them the
    /// client is as it was.
    // Without this hint a counter of `bindings/c/speed.c` takes 8 instructions more.
    #[inline(always)]
    pub fn pack(&mut self, alloc: Global, line: &[u8]) -> Result<(), StatusError>
        ensures { Packs result self.old line.now self.new }
    {
        if self.lines.hold(line) {
            return Ok(());
        }
        self.flush_and_pack(alloc, line)
    }

    /// Keeps the line of the metric that a call means with these settings. The errors are `NotUtf8` for a text of the
    /// settings or the call, `Invalid` for its kind or its rate, `Separator` for a text of the call if the settings are
    /// strict, `NoMemory` and `Full`. After an error the client is as it was, but for its buffer, which may have been
    /// freed and which contracts don't see.
    pub fn keep<V: LineValue + Drop>(
        &mut self,
        alloc: Global,
        settings: &CSettings<'_>,
        kind: u32,
        key: &[u8],
        value: V,
        options: &COptions<'_>,
    ) -> Result<(), StatusError>
        requires settings { options.now.known ≡ true → IsUtf8Settings settings.now }
        requires texts { IsUtf8IfKnown key.now options.now }
        requires kind { (k : MetricType) → kind_named kind ≡ Some k → V.suits value k }
        ensures kept { OnOk result
            (KeepsCall settings.now kind key.now (V.text value) options.now
            self.old self.new) }
        ensures refused { OnErr result (self.new ≡ self.old) }
        ensures full { status result ≡ CADENCE_FULL →
            LacksRoomForCall settings.now kind key.now (V.text value) options.now
            self.old }
        ensures tests { Tests (status result) settings.now kind key.now ⊥ options.now }
        ensures statuses { IsOkOr (CADENCE_NO_MEMORY ∷ CADENCE_FULL ∷ CADENCE_INVALID
            ∷ CADENCE_NOT_UTF8 ∷ CADENCE_SEPARATOR ∷ []) (status result) }
    {
        let call = match test_call(settings, kind, key, options) {
            Ok(call) => call,
            Err(error) => return Err(error),
        };
        let Ok(key) = key_text(&alloc, call.key, call.is_cleaned) else {
            return Err(StatusError::NoMemory);
        };
        let buffer = mem::replace(&mut self.line_buffer, Vec::new(alloc));
        let Ok(line) = value.line_in_buffer(buffer, &call, key.as_str(), options) else {
            return Err(StatusError::NoMemory);
        };
        let outcome = self.pack(alloc, &line);
        self.line_buffer = line;
        outcome
    }

    /// Copies the oldest packet that waits into the first bytes of `buf` and writes its length into `size`. The packet
    /// still waits. Returns the status of `NoPacket`, with the length 0, if no packet waits. Returns the status of
    /// `TooSmall`, with the length of the packet, if `buf` is shorter than the packet.
    #[tactic(auto, using(crate::proofs::Lists::empty_of_none))]
    pub fn copy_oldest(&self, buf: &mut [u8], size: &mut usize) -> u32
        ensures copied { result ≡ CADENCE_OK → IsOldest (take size.new buf.new) self.now }
        ensures within { result ≡ CADENCE_OK → size.new ≤ length buf.new }
        ensures none { result ≡ CADENCE_NO_PACKET → HasNoPacket self.now }
        ensures nothing { result ≡ CADENCE_NO_PACKET → size.new ≡ 0 }
        ensures told { result ≡ CADENCE_TOO_SMALL → IsOldestLength size.new self.now }
        ensures small { result ≡ CADENCE_TOO_SMALL → length buf.new < size.new }
        ensures statuses { IsOkOr (CADENCE_NO_PACKET ∷ CADENCE_TOO_SMALL ∷ []) result }
    {
        let Some(packet) = self.queue.get(0) else {
            *size = 0;
            return StatusError::NoPacket.code();
        };
        copy_out(packet.as_slice(), buf, size)
    }

    /// Drops the oldest packet that waits. The error is `NoPacket` if none waits.
    pub fn drop_oldest(&mut self) -> Result<(), StatusError>
        ensures dropped { OnOk result (DropsOldest self.old self.new) }
        ensures none { OnErr result (HasNoPacket self.old × (self.new ≡ self.old)) }
        ensures statuses { IsOkOr (CADENCE_NO_PACKET ∷ []) (status result) }
    {
        match self.queue.take() {
            Taken::Text(_packet) => Ok(()),
            Taken::Empty | Taken::Ended => Err(StatusError::NoPacket),
        }
    }

    /// Copies the held text into the first bytes of `buf` and writes its length into `size`. The text stays held.
    /// Returns the status of `TooSmall`, with the length of the text, if `buf` is shorter than it.
    pub fn copy_held(&self, buf: &mut [u8], size: &mut usize) -> u32
        ensures copied { result ≡ CADENCE_OK → take size.new buf.new ≡ self.now.held }
        ensures within { result ≡ CADENCE_OK → size.new ≤ length buf.new }
        ensures told { size.new ≡ length self.now.held }
        ensures small { result ≡ CADENCE_TOO_SMALL → length buf.new < size.new }
        ensures statuses { IsOkOr (CADENCE_TOO_SMALL ∷ []) result }
    {
        copy_out(self.lines.text(), buf, size)
    }

    /// Drops the held text, after the host has sent it. The error is `Full` if a packet waits, because that comes before
    /// the held text; the client is as it was then.
    pub fn drop_held(&mut self) -> Result<(), StatusError>
        ensures dropped { OnOk result (DropsHeld self.old self.old.held self.new) }
        ensures refused { OnErr result (self.new ≡ self.old) }
        ensures full { OnErr result (HasNoPacket self.old → ⊥) }
        ensures statuses { IsOkOr (CADENCE_FULL ∷ []) (status result) }
    {
        if self.queue.waiting() > 0 {
            return Err(StatusError::Full);
        }
        let size = self.lines.text().len();
        self.lines.skip(size);
        Ok(())
    }

    /// Returns the counts of the client.
    pub fn counts(&self) -> CCounts
        ensures { AreCountsOf self.now result }
    {
        CCounts {
            held: self.lines.text().len(),
            waiting: self.queue.waiting(),
            made: self.queue.submitted(),
            sent: self.queue.drained(),
            dropped: self.queue.dropped(),
        }
    }
}
