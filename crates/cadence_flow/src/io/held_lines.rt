//! Lines that are held until they are a packet. The held text begins at `start` in the buffer. The bytes before `start`
//! are no longer held, so a short count moves no bytes.
ghost use Rattle.std.specs.Prelude.{◌≡◌, ◌+◌, ◌-◌, ◌<◌, ◌≤◌, ◌++◌, length, take, drop, vec_len, vec_capacity, ◌↔◌, IsTrue, IsFalse};

use std::alloc::{AllocError, Allocator, Global};
use std::marker::Model;
use std::mem;

/// Lines, each followed by an ending, that are held in one buffer until they are a packet of at most the capacity. It
/// has no writer: its owner takes the held text as a packet, or writes it and then calls `skip`.
#[derive(Drop)]
pub struct HeldLines<A: Allocator = Global> {
    // the held text is what begins at `start`; if nothing is held, the buffer is empty and `start` is 0
    bytes: Vec<u8, A>,
    start: usize,
    capacity: usize,
    ending: Vec<u8, A>,
}

impl<A: Allocator> Model for HeldLines<A> {
    ghost use Rattle.std.specs.Prelude.{◌≤◌, ◌-◌, length, drop, vec_capacity};
    ghost use Rattle.cadence_flow.specs.HeldLines.{HeldText};

    ghost Value = { HeldText };

    ghost view = { λ h. record {
      text = drop h.start h.bytes.items;
      format = record { capacity = h.capacity; ending = h.ending.items };
    } };

    ghost invariant = { λ h. (length h.bytes.items ≤ h.capacity)
        × (h.capacity ≤ vec_capacity h.bytes) × (h.start ≤ length h.bytes.items - 1) };
}

impl<A: Allocator + Clone> HeldLines<A> {
    ghost use Rattle.std.specs.Prelude.{IfOk, codes};
    ghost use Rattle.cadence_flow.specs.HeldLines.{nothing_held};

    /// Makes a buffer for packets with a capacity in bytes that holds nothing yet, and whose ending is the newline.
    pub fn new(alloc: A, capacity: usize) -> Result<Self, AllocError>
        ensures { IfOk result (λ h. h ≡ nothing_held capacity (codes "\n")) }
    {
        HeldLines::with_ending(alloc, capacity, "\n")
    }

    /// Makes a buffer for packets with a capacity in bytes that holds nothing yet, and with this ending. It takes the
    /// memory for the whole capacity now, so `hold` takes none.
    pub fn with_ending(alloc: A, capacity: usize, ending: &str) -> Result<Self, AllocError>
        ensures { IfOk result (λ h. h ≡ nothing_held capacity ending.now) }
    {
        let second = alloc.clone()?;
        let bytes = Vec::with_capacity(alloc, capacity)?;
        let ending = Vec::from_slice(second, ending.as_bytes())?;
        Ok(HeldLines {
            bytes,
            start: 0,
            capacity,
            ending,
        })
    }
}

impl<A: Allocator> HeldLines<A> {
    ghost use Rattle.std.specs.Prelude.{[]};
    ghost use Rattle.cadence_flow.specs.Frame.{is_oversize};
    ghost use Rattle.cadence_flow.specs.Frame.{Fits};
    ghost use Rattle.cadence_flow.specs.HeldLines.{HoldsText, TakesText, with_text};

    /// Returns whether a line and its ending fit into the room that the held text leaves.
    pub fn fits(&self, line: &[u8]) -> bool
        ensures { IsTrue result ↔ Fits self.now.format self.now.text line.now }
    {
        line.len() + self.ending.len() <= self.capacity - self.bytes.len() + self.start
    }

    /// Returns whether a line is oversize: with its ending it passes the capacity.
    pub fn is_oversize(&self, line: &[u8]) -> bool
        ensures { result ≡ is_oversize self.now.format line.now }
    {
        line.len() + self.ending.len() > self.capacity
    }

    /// Holds a line and its ending if they fit into the room that the held text leaves, and returns whether they did.
    /// Otherwise nothing changes. It takes no memory, and can't fail.
    // Without this hint a line of `bench udp 512 20` takes 17 instructions more.
    #[inline(always)]
    pub fn hold(&mut self, line: &[u8]) -> bool
        ensures { HoldsText self.old self.new line.now result }
    {
        let required = line.len() + self.ending.len();
        if self.capacity - self.bytes.len() < required
            && !make_room(&mut self.bytes, &mut self.start, self.capacity, required)
        {
            return false;
        }
        append(&mut self.bytes, line);
        append_ending(&mut self.bytes, self.ending.as_slice());
        true
    }

    /// Returns whether nothing is held.
    pub fn is_empty(&self) -> bool
        ensures none { IsTrue result → self.now.text ≡ [] }
        ensures some { IsFalse result → 0 < length self.now.text }
    {
        self.bytes.is_empty()
    }

    /// Returns the held text, which waits to be a packet. It is at most `capacity` bytes long.
    pub fn text(&self) -> &[u8]
        ensures text { result.now ≡ self.now.text }
        ensures bound { length self.now.text ≤ self.now.format.capacity }
    {
        &self.bytes[self.start..]
    }

    /// Removes the first `n` bytes of the held text, which were written.
    pub fn skip(&mut self, n: usize)
        requires { n ≤ length self.old.text }
        ensures { self.new ≡ with_text self.old (drop n self.old.text) }
    {
        self.start += n;
        if self.start == self.bytes.len() {
            self.bytes.clear();
            self.start = 0;
        }
    }

    /// Takes the held text and puts a new buffer in its place, so that nothing is held. After an error nothing has
    /// changed.
    pub fn take_text(&mut self, alloc: A) -> Result<Vec<u8, A>, AllocError>
        ensures { TakesText self.old self.new result }
    {
        let room = Vec::with_capacity(alloc, self.capacity)?;
        let mut text = mem::replace(&mut self.bytes, room);
        move_to_front(&mut text, &mut self.start);
        Ok(text)
    }

    /// Returns the held text, which has at most as many bytes as the capacity.
    pub fn into_text(self) -> Vec<u8, A>
        ensures text { result.items ≡ self.text }
        ensures bound { vec_len result ≤ self.format.capacity }
    {
        let HeldLines {
            bytes: mut text,
            mut start,
            capacity: _,
            ending: _,
        } = self;
        move_to_front(&mut text, &mut start);
        text
    }
}

/// Copies the held text to the front of the buffer.
#[cold]
// Without this hint a line of `bench udp 512 20` takes 3 instructions more.
#[inline(never)]
fn copy_to_front(bytes: &mut [u8], start: usize)
    requires { start ≤ length bytes.old }
    ensures len { length bytes.new ≡ length bytes.old }
    ensures front { take (length bytes.old - start) bytes.new ≡ drop start bytes.old }
{
    if start > 0 {
        let len = bytes.len();
        bytes.copy_within(start..len, 0);
    }
}

/// Moves the held text to the front of the buffer. It takes two fields and not a reference to the whole, so that
/// the other fields can stay in registers.
fn move_to_front<A: Allocator>(bytes: &mut Vec<u8, A>, start: &mut usize)
    requires { start.old ≤ vec_len bytes.old }
    ensures start { start.new ≡ 0 }
    ensures items { bytes.new.items ≡ drop start.old bytes.old.items }
    ensures capacity { vec_capacity bytes.new ≡ vec_capacity bytes.old }
{
    let len = bytes.len();
    copy_to_front(bytes.as_mut_slice(), *start);
    bytes.truncate(len - *start);
    *start = 0;
}

/// Moves the held text to the front of the buffer if `n` more bytes fit behind it there, and returns whether they do.
/// It is called if they don't fit where the held text is now.
fn make_room<A: Allocator>(
    bytes: &mut Vec<u8, A>,
    start: &mut usize,
    capacity: usize,
    n: usize,
) -> bool
    requires start { start.old ≤ vec_len bytes.old - 1 }
    requires bound { vec_len bytes.old ≤ capacity }
    requires none { capacity < vec_len bytes.old + n }
    ensures exact { IsTrue result ↔ (vec_len bytes.old - start.old) + n ≤ capacity }
    ensures room { IsTrue result → vec_len bytes.new + n ≤ capacity }
    ensures text { drop start.new bytes.new.items ≡ drop start.old bytes.old.items }
    ensures start { start.new ≤ vec_len bytes.new - 1 }
    ensures len { vec_len bytes.new ≤ vec_len bytes.old }
    ensures capacity { vec_capacity bytes.new ≡ vec_capacity bytes.old }
{
    if *start == 0 || n > capacity - bytes.len() + *start {
        return false;
    }
    move_to_front(bytes, start);
    true
}

/// Appends bytes to the buffer, which has room for them.
// Without this hint a counter of `bindings/c/speed.c` takes 2 instructions more.
#[inline(always)]
fn append<A: Allocator>(held: &mut Vec<u8, A>, bytes: &[u8])
    requires { vec_len held.old + length bytes.now ≤ vec_capacity held.old }
    ensures items { held.new.items ≡ held.old.items ++ bytes.now }
    ensures capacity { vec_capacity held.old ≤ vec_capacity held.new }
{
    // never true: it lets the compiler leave out the code that grows the buffer
    if bytes.len() > held.capacity() - held.len() {
        unreachable!()
    }
    let Ok(()) = held.extend_from_slice(bytes) else {
        unreachable!()
    };
}

/// Appends a line's ending to the buffer, which has room for it. Most endings are one byte, and pushing one byte is
/// faster than copying a slice.
fn append_ending<A: Allocator>(held: &mut Vec<u8, A>, ending: &[u8])
    requires { vec_len held.old + length ending.now ≤ vec_capacity held.old }
    ensures items { held.new.items ≡ held.old.items ++ ending.now }
    ensures capacity { vec_capacity held.old ≤ vec_capacity held.new }
{
    if let [byte] = ending {
        held.push_reserved(*byte);
    } else {
        append(held, ending);
    }
}
