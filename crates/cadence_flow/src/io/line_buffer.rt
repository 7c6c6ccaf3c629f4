//! The packer: lines that are held until they are written as one packet.
ghost use Rattle.std.specs.Prelude.{◌≡◌, ◌<◌, ◌≤◌, ◌∷◌, ◌++◌, [], length, take, drop, is_ok, vec_len, ◌↔◌, OnOk, OnErr, IfErr, IsTrue};
ghost use Rattle.std.specs.Option.{ok_or};
ghost use Rattle.cadence_flow.specs.Offers.{FlushesOffers, SendsOffers};
ghost use Rattle.cadence_flow.specs.Packer.{Flushes, HasCause};
ghost use Rattle.cadence_flow.specs.Writer.{RefusedNothing, Reports, Sends, TakesWhole};

use super::{HeldLines, PacketWriter};
use cadence_errors::SinkError;
use std::alloc::{Allocator, Global};
use std::marker::Model;
use std::mem;

/// A packer: it holds lines, each followed by an ending, until one doesn't fit a packet of the capacity any more, and
/// then writes them as one packet. It works over any `PacketWriter`.
///
/// Dropping a packer writes nothing. If its owner doesn't flush it before, the held text is lost.
///
/// Its calls return `None` after an error and leave the error in `fault`, as `PacketWriter::write_packet_narrow` does.
#[derive(Drop)]
pub struct LineBuffer<T, A: Allocator = Global> {
    inner: T,
    lines: HeldLines<A>,
}

impl<T, A: Allocator> Model for LineBuffer<T, A> {
    ghost use Rattle.cadence_flow.specs.Packer.{Packer, packer_code};

    ghost Value = { Packer T };

    ghost coded = { packer_code T.code };

    ghost view = { λ w. record { writer = w.inner; held = w.lines.text; format = w.lines.format } };
}

impl<T: PacketWriter, A: Allocator + Clone> LineBuffer<T, A> {
    ghost use Rattle.std.specs.Prelude.{codes};
    ghost use Rattle.cadence_flow.specs.Packer.{MakesPacker};

    /// Makes a packer with a capacity in bytes that holds nothing yet, and whose ending is the newline.
    ///
    /// If there is no memory, the writer comes back.
    pub fn new(alloc: A, inner: T, capacity: usize) -> Result<Self, T>
        ensures { MakesPacker inner capacity (codes "\n") result }
    {
        LineBuffer::with_ending(alloc, inner, capacity, "\n")
    }

    /// Makes a packer with a capacity in bytes that holds nothing yet, and with this ending. It takes the memory for
    /// the whole capacity now, so `write` and `flush` take none.
    ///
    /// If there is no memory for `capacity` bytes and the ending, the writer comes back.
    pub fn with_ending(alloc: A, inner: T, capacity: usize, ending: &str) -> Result<Self, T>
        ensures { MakesPacker inner capacity ending.now result }
    {
        let Ok(lines) = HeldLines::with_ending(alloc, capacity, ending) else {
            return Err(inner);
        };
        Ok(LineBuffer { inner, lines })
    }
}

impl<T: PacketWriter, A: Allocator> LineBuffer<T, A> {
    ghost use Rattle.std.specs.Borrow.{Lends, sem};
    ghost use Rattle.cadence_flow.specs.Offers.{WritesOffers};
    ghost use Rattle.cadence_flow.specs.Frame.{Fits};
    ghost use Rattle.cadence_flow.specs.Packer.{FlushesHeld, HoldsLine, ReplacesWriter, WritesLine, with_writer};
    ghost use Rattle.cadence_flow.specs.contracts.io.line_buffer.LineBuffer.{the_row};

    /// Writes a line and returns its length. It takes no memory. There are three cases:
    ///
    /// - The line and its ending fit into the room that the held text leaves: they are held, and nothing is written.
    ///   They are also held if they fill the capacity exactly. (With an empty ending, the Rust crate writes such a line
    ///   at once.)
    /// - They fit into a packet, but not into this room: the held text is flushed, and then the line is held.
    /// - They pass the capacity, so the line is oversize: the held text is flushed, and then the line alone is written
    ///   as one packet, without its ending. The result is how many bytes the writer took, which may be 0.
    ///
    /// After an error the result is `None` and `fault` has the error: the writer's own, or `NothingWritten` if it took
    /// 0 bytes of held text. Nothing of the line is held then. What the writer didn't take of the held text stays held.
    #[inline(always)]
    pub fn write(&mut self, line: &[u8], fault: &mut SinkError) -> Option<usize>
        ensures writes { WritesLine T.kind T.history
            self.old self.new line.now (ok_or result fault.new) }
        ensures offers { WritesOffers self.old.format (T.offers self.old.writer)
            (T.offers self.new.writer) self.old.held self.new.held
            line.now (ok_or result fault.new) }
    {
        if self.hold(line) {
            return Some(line.len());
        }
        self.write_late(line, fault)
    }

    /// Writes a line that doesn't fit into the room that the held text leaves, as `write` does: the held text is
    /// flushed, and then the line is held, or written alone if it is oversize. It is for a caller that has called
    /// `hold` already, so that the room isn't tested twice.
    pub fn write_late(&mut self, line: &[u8], fault: &mut SinkError) -> Option<usize>
        requires { Fits self.old.format self.old.held line.now → ⊥ }
        ensures writes { WritesLine T.kind T.history
            self.old self.new line.now (ok_or result fault.new) }
        ensures offers { WritesOffers self.old.format (T.offers self.old.writer)
            (T.offers self.new.writer) self.old.held self.new.held
            line.now (ok_or result fault.new) }
    {
        self.flush(fault)?;
        if self.lines.hold(line) {
            return Some(line.len());
        }
        self.inner.write_packet_narrow(line, fault)
    }

    /// Returns whether a line and its ending fit into the room that the held text leaves.
    pub fn fits(&self, line: &[u8]) -> bool
        ensures { IsTrue result ↔ Fits self.now.format self.now.held line.now }
    {
        self.lines.fits(line)
    }

    /// Holds a line and its ending if they fit into the room that the held text leaves, and returns whether they did.
    /// Otherwise nothing changes. This is what `write` does with most lines. It takes no memory, and can't fail.
    // Without this hint a line of `bench udp 512 20` takes 17 instructions more.
    #[inline(always)]
    pub fn hold(&mut self, line: &[u8]) -> bool
        ensures { HoldsLine self.old self.new line.now result }
    {
        self.lines.hold(line)
    }

    /// Writes the held text as one packet. If the writer takes only a part of it, the rest is written as one more
    /// packet, and so on. If nothing is held, it writes nothing. It takes no memory.
    ///
    /// After an error the result is `None` and `fault` has the error: the writer's own, or `NothingWritten` if it took
    /// 0 bytes. What the writer didn't take stays held. An interrupted write is an error like any other.
    // Without this hint a line of `bench udp 16 20` takes 21 instructions more.
    #[inline(always)]
    pub fn flush(&mut self, fault: &mut SinkError) -> Option<()>
        ensures flushes { FlushesHeld T.kind T.history self.old self.new (ok_or result fault.new) }
        ensures offers { FlushesOffers (T.offers self.old.writer)
            (T.offers self.new.writer) self.old.held (is_ok (ok_or result fault.new)) }
    {
        if self.lines.is_empty() {
            return Some(());
        }
        send_held(&mut self.lines, &mut self.inner, fault)
    }

    /// Returns the held text, which waits to be written. It is at most `capacity` bytes long.
    pub fn held(&self) -> &[u8]
        ensures text { result.now ≡ self.now.held }
        ensures bound { length self.now.held ≤ self.now.format.capacity }
    {
        self.lines.text()
    }

    /// Returns the writer.
    pub fn get_ref(&self) -> &T
        ensures { result.now ≡ self.now.writer }
    {
        &self.inner
    }

    /// Returns the writer, to change it. The held text and the capacity stay as they are.
    pub fn get_mut(&mut self) -> &mut T
        ensures value { result.now ≡ self.old.writer }
        ensures* writes_back { sem 𝓛 (Lends (the_row T.row A.row A.Allocator) T.row
            self.entry result (with_writer self.old)) }
    {
        &mut self.inner
    }

    /// Replaces the writer, and returns the old one with the held text, which is not written. Nothing is held
    /// afterwards.
    ///
    /// If there is no memory for `capacity` bytes, the new writer comes back, and nothing has changed.
    pub fn replace_writer(&mut self, alloc: A, writer: T) -> Result<(T, Vec<u8, A>), T>
        ensures { ReplacesWriter self.old self.new writer result }
    {
        let Ok(held) = self.lines.take_text(alloc) else {
            return Err(writer);
        };
        let inner = mem::replace(&mut self.inner, writer);
        Ok((inner, held))
    }

    /// Returns the writer and the held text, which has at most as many bytes as the capacity. Nothing is written.
    pub fn into_parts(self) -> (T, Vec<u8, A>)
        ensures writer { result.0 ≡ self.writer }
        ensures text { result.1.items ≡ self.held }
        ensures bound { vec_len result.1 ≤ self.format.capacity }
    {
        let LineBuffer { inner, lines } = self;
        (inner, lines.into_text())
    }
}

/// Sends bytes until the writer has taken all of them or refuses: after a short count it sends the rest as one more
/// packet. Returns how many bytes the writer took, and `Some` if it took all. Otherwise `fault` has the error: the
/// writer's own, or `NothingWritten` if it took 0 bytes.
fn send<T: PacketWriter>(bytes: &[u8], to: &mut T, fault: &mut SinkError) -> (usize, Option<()>)
    ensures same_kind { T.kind to.new ≡ T.kind to.old }
    ensures all { OnOk (ok_or result.1 fault.new) (result.0 ≡ length bytes.now) }
    ensures left { OnErr (ok_or result.1 fault.new) (result.0 < length bytes.now) }
    ensures unchanged { length bytes.now ≡ 0 → T.history to.new ≡ T.history to.old }
    ensures ok { OnOk (ok_or result.1 fault.new)
        (RefusedNothing (T.history to.old) (T.history to.new)) }
    ensures sent { Reports (T.kind to.old) →
        OnOk (ok_or result.1 fault.new) (Sends (T.history to.old) (T.history to.new) bytes.now) }
    ensures cause { IfErr (ok_or result.1 fault.new)
        (HasCause (T.kind to.old) (T.history to.old) (T.history to.new)
        (take result.0 bytes.now) (drop result.0 bytes.now)) }
    ensures one_packet { Reports (T.kind to.old) → TakesWhole (T.kind to.old) →
        0 < length bytes.now → OnOk (ok_or result.1 fault.new)
        ((T.history to.new).packets ≡ (T.history to.old).packets ++ bytes.now ∷ []) }
    ensures no_packet { TakesWhole (T.kind to.old) →
        OnErr (ok_or result.1 fault.new) ((result.0 ≡ 0)
        × ((T.history to.new).packets ≡ (T.history to.old).packets)) }
    ensures offers { 0 < length bytes.now →
        SendsOffers (T.offers to.old) (T.offers to.new) (is_ok (ok_or result.1 fault.new)) }
{
    let mut sent = 0;
    while sent < bytes.len() {
        match to.write_packet_narrow(&bytes[sent..], fault) {
            Some(0) => {
                *fault = SinkError::NothingWritten;
                return (sent, None);
            }
            Some(n) => sent += n,
            None => return (sent, None),
        }
    }
    (sent, Some(()))
}

/// Sends the held text as `send` does, and removes what the writer took from it.
fn send_held<T: PacketWriter, A: Allocator>(
    lines: &mut HeldLines<A>,
    to: &mut T,
    fault: &mut SinkError,
) -> Option<()>
    requires { 0 < length lines.old.text }
    ensures same_kind { T.kind to.new ≡ T.kind to.old }
    ensures same_format { lines.new.format ≡ lines.old.format }
    ensures flushes { Flushes (T.kind to.old)
        (record { history = T.history to.old; held = lines.old.text })
        (record { history = T.history to.new; held = lines.new.text })
        (ok_or result fault.new) }
    ensures offers { FlushesOffers (T.offers to.old) (T.offers to.new)
        lines.old.text (is_ok (ok_or result fault.new)) }
{
    let (sent, result) = send(lines.text(), to, fault);
    lines.skip(sent);
    result
}
