//! What a line is written to, piece by piece: a counter of bytes, which measures the line, and a text with just that
//! much room. A `PieceWriter` can't refuse a piece. So a piece that is too long for the room empties the text, and
//! the function that reserves the room proves that this never happens.
ghost use Rattle.std.specs.Prelude.{◌≡◌, ◌+◌, ◌↔◌, ◌≤◌, ◌-◌, ◌^◌, [], IfOk, IsTrue, length, min, string_bytes};
ghost use Rattle.std.specs.String.{string_capacity};

use cadence_value::text::{ByteWriter, PieceWriter};
use std::alloc::{AllocError, Allocator};

/// A `PieceWriter` that only counts the bytes. It stops at `u128::MAX`.
#[derive(Clone, Copy)]
pub(crate) struct ByteCounter {
    length: u128,
}

impl ByteCounter {
    // Returns a counter that has counted no bytes.
    pub(crate) fn new() -> ByteCounter
        ensures { result.length ≡ 0 }
    {
        ByteCounter { length: 0 }
    }

    // Returns the number of bytes.
    pub(crate) fn length(&self) -> u128
        ensures { result ≡ self.now.length }
    {
        self.length
    }

    fn add(&mut self, count: usize)
        ensures { self.new.length ≡ min (self.old.length + count) (2 ^ 128 - 1) }
    {
        self.length = self.length.saturating_add(count as u128);
    }
}

impl ByteWriter for ByteCounter {
    ghost use Rattle.cadence_events.specs.LineWriters.{counter_ends};

    ghost ends_as = { counter_ends };

    fn take_byte(&mut self, _byte: u8) {
        self.add(1);
    }
}

impl PieceWriter for ByteCounter {
    fn take_piece(&mut self, piece: &str) {
        self.add(piece.len());
    }
}

/// A `PieceWriter` that writes into a text of a fixed length. `end` is the length that was reserved.
#[derive(Drop)]
pub(crate) struct LineText<A: Allocator> {
    text: String<A>,
    end: usize,
    ghost within: { end ≤ string_capacity text },
}

impl<A: Allocator> LineText<A> {
    // Returns an empty text with room for `length` bytes. It takes memory once, and only that much.
    pub(crate) fn with_room(alloc: A, length: usize) -> Result<LineText<A>, AllocError>
        ensures empty { IfOk result (λ t. string_bytes t.text ≡ []) }
        ensures end { IfOk result (λ t. t.end ≡ length) }
    {
        let text = String::with_capacity(alloc, length)?;
        Ok(LineText { text, end: length })
    }

    // Returns the text.
    pub(crate) fn into_text(self) -> String<A>
        ensures { result ≡ self.text }
    {
        self.text
    }

    // Returns whether more bytes fit the room.
    fn has_room(&self, more: usize) -> bool
        ensures { IsTrue result ↔ (length (string_bytes self.now.text) + more ≤ self.now.end) }
    {
        self.text.len() <= self.end && more <= self.end - self.text.len()
    }

    // Empties the text, and ends its room.
    fn give_up(&mut self)
        ensures text { string_bytes self.new.text ≡ [] }
        ensures end { self.new.end ≡ 0 }
    {
        self.text.clear();
        self.end = 0;
    }
}

impl<A: Allocator> ByteWriter for LineText<A> {
    ghost use Rattle.cadence_events.specs.LineWriters.{line_ends};

    ghost ends_as = { line_ends };

    fn take_byte(&mut self, byte: u8) {
        if !self.has_room(1) {
            return self.give_up();
        }
        let Ok(()) = self.text.push(byte as char) else {
            unreachable!()
        };
    }
}

impl<A: Allocator> PieceWriter for LineText<A> {
    fn take_piece(&mut self, piece: &str) {
        if !self.has_room(piece.len()) {
            return self.give_up();
        }
        let Ok(()) = self.text.push_str(piece) else {
            unreachable!()
        };
    }
}
