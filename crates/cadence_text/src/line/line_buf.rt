//! The two writers for the pieces of a line: a counter of bytes, which measures a line, and a buffer of the measured
//! length, into which the line is written.
//!
//! A `PieceWriter` can't refuse a piece. So a piece that is too long for the buffer empties the buffer, and the
//! functions that reserve its room prove that this never happens.
ghost use Rattle.std.specs.Prelude.{◌≡◌, ◌≤◌, ◌+◌, ◌++◌, ◌%◌, ◌^◌, [], IfOk, IsUtf8, OnOk, drop, length, string_bytes, take};
ghost use Rattle.std.specs.Vec.{vec_capacity};
ghost use Rattle.cadence_text.specs.Cleaned.{cleaned_text};
ghost use Rattle.cadence_value.specs.InMemory.{IsTextInMemory};
ghost use Rattle.cadence_value.specs.Takes.{Takes};

use crate::line::cleaning::clean;
use cadence_value::text::{ByteWriter, PieceWriter, number_len, wide_len};
use std::alloc::{AllocError, Allocator};

/// A `PieceWriter` that only counts the bytes, modulo 2 to the 128.
#[derive(Clone, Copy)]
pub(crate) struct LengthCounter {
    length: u128,
}

impl LengthCounter {
    pub(crate) fn new() -> LengthCounter
        ensures { result.length ≡ 0 }
    {
        LengthCounter { length: 0 }
    }

    pub(crate) fn length(&self) -> u128
        ensures { result ≡ self.now.length }
    {
        self.length
    }

    fn add(&mut self, count: usize)
        ensures { self.new.length ≡ (self.old.length + count) % 2 ^ 128 }
    {
        self.length = self.length.wrapping_add(count as u128);
    }
}

impl ByteWriter for LengthCounter {
    ghost use Rattle.cadence_text.specs.PieceWriters.{counter_ends};

    ghost ends_as = { counter_ends };

    fn take_byte(&mut self, _byte: u8) {
        self.add(1);
    }
}

impl PieceWriter for LengthCounter {
    fn take_piece(&mut self, piece: &str) {
        self.add(piece.len());
    }

    fn take_number(&mut self, number: u64) {
        self.add(number_len(number));
    }

    fn take_wide(&mut self, number: u128) {
        self.add(wide_len(number));
    }
}

// Moves the first `count` bytes of a text to the end. The standard `rotate_left` clears a large room on the stack at
// each call.
fn turn_left(text: &mut [u8], count: usize)
    requires { count ≤ length text.old }
    ensures { text.new ≡ drop count text.old ++ take count text.old }
{
    let (front, back) = text.split_at_mut(count);
    front.reverse();
    back.reverse();
    text.reverse();
}

/// A `PieceWriter` that writes the bytes into a buffer of a fixed length. `end` is the length that was reserved.
/// Contracts promise that a text that fits into this length is written. They promise nothing of a longer text.
#[derive(Drop)]
pub(crate) struct LineBuf<A: Allocator> {
    bytes: Vec<u8, A>,
    end: usize,
    ghost utf8: { ∥ IsUtf8 bytes.items ∥₁ },
    ghost within: { end ≤ vec_capacity bytes },
}

impl<A: Allocator> LineBuf<A> {
    ghost use Rattle.cadence_text.specs.PieceWriters.{cleaned_after, line_buf_ends, rotated_text};

    /// Returns an empty buffer of `length` bytes. It takes memory once, and only that much.
    pub(crate) fn with_room(alloc: A, length: usize) -> Result<LineBuf<A>, AllocError>
        ensures empty { IfOk result (λ f. f.bytes.items ≡ []) }
        ensures end { IfOk result (λ f. f.end ≡ length) }
        ensures exact { IfOk result (λ f. vec_capacity f.bytes ≡ length) }
    {
        let bytes = Vec::with_capacity(alloc, length)?;
        Ok(LineBuf { bytes, end: length })
    }

    /// Empties a buffer of the caller's, and returns it with room for `length` bytes. It takes memory only if the
    /// buffer is too short, and then only that much.
    pub(crate) fn in_buffer(buffer: Vec<u8, A>, length: usize) -> Result<LineBuf<A>, AllocError>
        ensures empty { IfOk result (λ f. f.bytes.items ≡ []) }
        ensures end { IfOk result (λ f. f.end ≡ length) }
    {
        let mut bytes = buffer;
        bytes.clear();
        bytes.reserve_exact(length)?;
        Ok(LineBuf { bytes, end: length })
    }

    /// Returns a buffer of length 0. It takes no memory.
    pub(crate) fn empty(alloc: A) -> LineBuf<A>
        ensures { result.bytes.items ≡ [] }
    {
        LineBuf {
            bytes: Vec::new(alloc),
            end: 0,
        }
    }

    /// Makes room for `more` bytes after the text, and ends the room there. The buffer grows by doubling.
    pub(crate) fn reserve(&mut self, more: usize) -> Result<(), AllocError>
        ensures text { self.new.bytes.items ≡ self.old.bytes.items }
        ensures end { OnOk result (self.new.end ≡ length self.old.bytes.items + more) }
    {
        // The test is inline, so that a buffer with room makes no call.
        if more > self.bytes.capacity() - self.bytes.len() {
            return self.grow(more);
        }
        self.end = self.bytes.len() + more;
        Ok(())
    }

    #[cold]
    fn grow(&mut self, more: usize) -> Result<(), AllocError>
        ensures text { self.new.bytes.items ≡ self.old.bytes.items }
        ensures end { OnOk result (self.new.end ≡ length self.old.bytes.items + more) }
    {
        self.bytes.reserve(more)?;
        self.end = self.bytes.len() + more;
        Ok(())
    }

    pub(crate) fn len(&self) -> usize
        ensures { result ≡ length self.now.bytes.items }
    {
        self.bytes.len()
    }

    /// Moves the `count` bytes after `start` to the end.
    pub(crate) fn turn(&mut self, start: usize, count: usize)
        requires within { start + count ≤ length self.old.bytes.items }
        requires utf8 { IsUtf8 (rotated_text start count self.old.bytes.items) }
        ensures bytes { self.new.bytes.items ≡ rotated_text start count self.old.bytes.items }
        ensures end { self.new.end ≡ self.old.end }
    {
        turn_left(&mut self.bytes[start..], count);
    }

    pub(crate) fn as_text(&self) -> &str
        ensures { result.now ≡ self.now.bytes.items }
    {
        unsafe { std::str::from_utf8_unchecked(self.bytes.as_slice()) }
    }

    pub(crate) fn into_bytes(self) -> Vec<u8, A>
        ensures { result.items ≡ self.bytes.items }
    {
        self.bytes
    }

    pub(crate) fn into_text(self) -> String<A>
        ensures { string_bytes result ≡ self.bytes.items }
    {
        unsafe { String::from_utf8_unchecked(self.bytes) }
    }

    /// Writes a piece with an underscore in place of each separator. If the piece follows the key of a tag, colons stay.
    // Without this hint a call of `bench count_tags` takes 9 instructions more, although it cleans no text.
    #[inline(never)]
    pub(crate) fn take_cleaned(&mut self, piece: &str, after_key: bool)
        ensures taken { Takes line_buf_ends self.old (cleaned_text after_key piece.now) self.new }
        ensures sized { IsTextInMemory piece.now }
    {
        if piece.len() > self.bytes.capacity() - self.bytes.len() {
            return self.give_up();
        }
        let start = self.bytes.len();
        let Ok(()) = self.bytes.extend_from_slice(piece.as_bytes()) else {
            unreachable!()
        };
        self.clean_after(start, after_key);
    }

    // Puts an underscore in place of each separator after the first `start` bytes.
    fn clean_after(&mut self, start: usize, after_key: bool)
        requires within { start ≤ length self.old.bytes.items }
        requires utf8 { IsUtf8 (cleaned_after start after_key self.old.bytes.items) }
        ensures bytes { self.new.bytes.items ≡ cleaned_after start after_key self.old.bytes.items }
        ensures end { self.new.end ≡ self.old.end }
    {
        clean(&mut self.bytes[start..], after_key);
    }

    // Empties the buffer.
    fn give_up(&mut self)
        ensures bytes { self.new.bytes.items ≡ [] }
        ensures end { self.new.end ≡ 0 }
    {
        self.bytes.clear();
        self.end = 0;
    }
}

impl<A: Allocator> ByteWriter for LineBuf<A> {
    ghost use Rattle.cadence_text.specs.PieceWriters.{line_buf_ends};

    ghost ends_as = { line_buf_ends };

    fn take_byte(&mut self, byte: u8) {
        if self.bytes.len() >= self.bytes.capacity() {
            return self.give_up();
        }
        self.bytes.push_reserved(byte);
    }
}

impl<A: Allocator> PieceWriter for LineBuf<A> {
    fn take_piece(&mut self, piece: &str) {
        // A piece that passes the capacity passes the end too. Because of this test the compiler leaves out the growth.
        if piece.len() > self.bytes.capacity() - self.bytes.len() {
            return self.give_up();
        }
        let Ok(()) = self.bytes.extend_from_slice(piece.as_bytes()) else {
            unreachable!()
        };
    }
}
