//! The ring that stores a queue's texts.
ghost use Rattle.std.specs.Prelude.{◌≡◌, ◌<◌, [], ◌∷◌, ◌++◌, length, drop, slice_get, option_copied, IfOk, OnOk, OnErr, IsOk};
ghost use Rattle.circular_buffer.specs.Buffer.{buffer};

use circular_buffer::HeapCircularBuffer;
use std::alloc::{AllocError, Allocator};
use std::marker::Model;
use std::mem;

/// For how many texts a growing ring has room at first.
const LEAST_ROOM: usize = 8;

/// Texts in a ring buffer. A ring without room has no block of memory. Its calls never let a text go, so a text may be of
/// a type that can't be dropped. A ring of such texts ends by `destroy_empty`.
#[derive(Drop)]
pub struct TextRing<T, A: Allocator> {
    alloc: A,
    block: Option<HeapCircularBuffer<T, A>>,
}

impl<T, A: Allocator> Model for TextRing<T, A> {
    ghost use Rattle.circular_buffer.specs.Buffer.{Buffer, buffer, buffer_code};
    ghost use Rattle.cadence_queue.specs.QueueRoom.{ring_of};

    ghost Value = { Buffer T };

    ghost coded = { buffer_code T.code };

    ghost view = { λ r. ring_of r.block };
}

impl<T, A: Allocator + Clone> TextRing<T, A> {
    /// Makes an empty ring with room for `room` texts. With a room of 0 it takes no memory.
    pub fn with_room(alloc: A, room: usize) -> Result<Self, AllocError>
        ensures made { IfOk result (λ r. r ≡ buffer [] room) }
        ensures none { room ≡ 0 → IsOk result }
    {
        if room == 0 {
            return Ok(TextRing { alloc, block: None });
        }
        let block = HeapCircularBuffer::with_capacity(alloc.clone()?, room)?;
        Ok(TextRing {
            alloc,
            block: Some(block),
        })
    }

    // Doubles the room. It is a function of its own, so that `reserve` is short enough to be inlined.
    // Without this hint a line of `bench queue 0 20` takes 73 instructions more.
    #[inline(never)]
    fn grow(&mut self) -> Result<(), AllocError>
        ensures items { self.new.items ≡ self.old.items }
        ensures room { OnOk result (length self.new.items < self.new.capacity) }
        ensures err { OnErr result (self.new ≡ self.old) }
    {
        match &mut self.block {
            Some(block) => {
                let room = block.capacity() * 2;
                block.resize(room.max(LEAST_ROOM))
            }
            None => {
                let alloc = self.alloc.clone()?;
                let block = HeapCircularBuffer::with_capacity(alloc, LEAST_ROOM)?;
                // an assignment would drop the old block, and a block of texts may have no `Drop`
                match mem::replace(&mut self.block, Some(block)) {
                    None => Ok(()),
                    Some(_block) => unreachable!(),
                }
            }
        }
    }

    /// Makes room for one more text, if there is none. A ring with room left takes no memory. A full one doubles its
    /// room, and gets room for at least 8 texts. If memory runs out, the ring has not changed.
    pub fn reserve(&mut self) -> Result<(), AllocError>
        ensures items { self.new.items ≡ self.old.items }
        ensures room { OnOk result (length self.new.items < self.new.capacity) }
        ensures kept { length self.old.items < self.old.capacity →
            IsOk result × (self.new ≡ self.old) }
        ensures same { OnErr result (self.new ≡ self.old) }
    {
        if self.len() < self.room() {
            return Ok(());
        }
        self.grow()
    }
}

impl<T, A: Allocator> TextRing<T, A> {
    /// Returns how many texts the ring has.
    pub fn len(&self) -> usize
        ensures { result ≡ length self.now.items }
    {
        match &self.block {
            Some(block) => block.len(),
            None => 0,
        }
    }

    /// Returns how many texts the ring can have before it grows.
    pub fn room(&self) -> usize
        ensures { result ≡ self.now.capacity }
    {
        match &self.block {
            Some(block) => block.capacity(),
            None => 0,
        }
    }

    /// Returns the text at this place, counted from 0 at the front.
    pub fn get(&self, index: usize) -> Option<&T>
        ensures { option_copied result ≡ slice_get self.now.items index }
    {
        match &self.block {
            Some(block) => block.get(index),
            None => None,
        }
    }

    /// Removes the first text and returns it.
    pub fn pop_front(&mut self) -> Option<T>
        ensures value { result ≡ slice_get self.old.items 0 }
        ensures items { self.new ≡ buffer (drop 1 self.old.items) self.old.capacity }
    {
        match &mut self.block {
            Some(block) => block.pop_front(),
            None => None,
        }
    }

    /// Adds a text at the end of a ring with room left.
    pub fn push(&mut self, text: T)
        requires { length self.old.items < self.old.capacity }
        ensures { self.new ≡ buffer (self.old.items ++ text ∷ []) self.old.capacity }
    {
        let Some(block) = &mut self.block else {
            unreachable!()
        };
        match block.try_push_back(text) {
            Ok(()) => {}
            Err(_text) => unreachable!(),
        }
    }

    /// Ends an empty ring.
    pub fn destroy_empty(self)
        requires { self.items ≡ [] }
    {
        let TextRing { alloc: _, block } = self;
        match block {
            Some(block) => block.destroy_empty(),
            None => {}
        }
    }
}
