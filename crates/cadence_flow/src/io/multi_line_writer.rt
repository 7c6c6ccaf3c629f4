//! The packer with the interface of the Rust crate.
use super::{LineBuffer, PacketWriter};
use cadence_errors::SinkError;
use std::alloc::{Allocator, Global};
use std::marker::Model;

/// A packer: it holds lines, each followed by an ending, until one doesn't fit a packet of the capacity (in bytes) any
/// more, and then writes them as one packet. It never holds more than the capacity. A line that with its ending passes
/// the capacity is written alone, without the ending.
///
/// It does what a `LineBuffer` does, with two differences: its calls return an error as a `Result`, and dropping it
/// flushes once. An error of that flush is lost.
pub struct MultiLineWriter<T: PacketWriter, A: Allocator = Global> {
    lines: LineBuffer<T, A>,
}

impl<T: PacketWriter, A: Allocator> Model for MultiLineWriter<T, A> {
    ghost use Rattle.cadence_flow.specs.Packer.{Packer, packer_code};

    ghost Value = { Packer T };

    ghost coded = { packer_code T.code };

    ghost view = { λ w. w.lines };
}

impl<T: PacketWriter, A: Allocator + Clone> MultiLineWriter<T, A> {
    ghost use Rattle.std.specs.Prelude.{codes};
    ghost use Rattle.cadence_flow.specs.Packer.{MakesPacker};

    /// Makes a packer with a capacity in bytes that holds nothing yet, and whose ending is the newline.
    ///
    /// If there is no memory, the writer comes back.
    pub fn new(alloc: A, inner: T, capacity: usize) -> Result<Self, T>
        ensures { MakesPacker inner capacity (codes "\n") result }
    {
        MultiLineWriter::with_ending(alloc, inner, capacity, "\n")
    }

    /// Makes a packer with a capacity in bytes that holds nothing yet, and with this ending. It takes the memory for
    /// the whole capacity now, so `write` and `flush` take none.
    ///
    /// If there is no memory for `capacity` bytes and the ending, the writer comes back.
    pub fn with_ending(alloc: A, inner: T, capacity: usize, ending: &str) -> Result<Self, T>
        ensures { MakesPacker inner capacity ending.now result }
    {
        let lines = LineBuffer::with_ending(alloc, inner, capacity, ending)?;
        Ok(MultiLineWriter { lines })
    }
}

impl<T: PacketWriter, A: Allocator> MultiLineWriter<T, A> {
    ghost use Rattle.std.specs.Prelude.{◌≡◌, ◌≤◌, length};
    ghost use Rattle.std.specs.Borrow.{Lends, sem};
    ghost use Rattle.cadence_flow.specs.Packer.{FlushesHeld, ReplacesWriter, WritesLine, with_writer};
    ghost use Rattle.cadence_flow.specs.contracts.io.multi_line_writer.MultiLineWriter.{the_row};

    /// Writes a line as `LineBuffer::write` does. Returns the line's length, or for an oversize line how many bytes of
    /// it the writer took.
    ///
    /// The errors are the writer's own, and `NothingWritten` if it took 0 bytes of held text. Nothing of the line is
    /// held after an error. What the writer didn't take of the held text stays held.
    pub fn write(&mut self, line: &[u8]) -> Result<usize, SinkError>
        ensures { WritesLine T.kind T.history self.old self.new line.now result }
    {
        let mut fault = SinkError::NothingWritten;
        self.lines.write(line, &mut fault).ok_or(fault)
    }

    /// Writes the held text as `LineBuffer::flush` does.
    ///
    /// The errors are the writer's own, and `NothingWritten` if it took 0 bytes. What the writer didn't take stays
    /// held.
    pub fn flush(&mut self) -> Result<(), SinkError>
        ensures { FlushesHeld T.kind T.history self.old self.new result }
    {
        let mut fault = SinkError::NothingWritten;
        self.lines.flush(&mut fault).ok_or(fault)
    }

    /// Returns the held text, which waits to be written. It is at most `capacity` bytes long.
    pub fn held(&self) -> &[u8]
        ensures text { result.now ≡ self.now.held }
        ensures bound { length self.now.held ≤ self.now.format.capacity }
    {
        self.lines.held()
    }

    /// Returns the writer.
    pub fn get_ref(&self) -> &T
        ensures { result.now ≡ self.now.writer }
    {
        self.lines.get_ref()
    }

    /// Returns the writer, to change it. The held text and the capacity stay as they are.
    pub fn get_mut(&mut self) -> &mut T
        ensures value { result.now ≡ self.old.writer }
        ensures* writes_back { sem 𝓛 (Lends (the_row T.row A.row T.PacketWriter A.Allocator) T.row
            self.entry result (with_writer self.old)) }
    {
        self.lines.get_mut()
    }

    /// Replaces the writer, and returns the old one with the held text, which is not written. Nothing is held
    /// afterwards.
    ///
    /// If there is no memory for `capacity` bytes, the new writer comes back, and nothing has changed.
    pub fn replace_writer(&mut self, alloc: A, writer: T) -> Result<(T, Vec<u8, A>), T>
        ensures { ReplacesWriter self.old self.new writer result }
    {
        self.lines.replace_writer(alloc, writer)
    }

    /// Returns the writer and the held text. Nothing is written.
    pub fn into_parts(self) -> (T, Vec<u8, A>)
        ensures writer { result.0 ≡ self.writer }
        ensures text { result.1.items ≡ self.held }
    {
        let MultiLineWriter { lines } = self;
        lines.into_parts()
    }
}

impl<T: PacketWriter, A: Allocator> Drop for MultiLineWriter<T, A> {
    fn drop(mut self) {
        let _ = self.flush();
        let MultiLineWriter { lines: _ } = self;
    }
}
