//! A writer that fails once, and one that writes one byte at a time.
use std::alloc::Allocator;
use std::io;
use std::io::{ErrorKind, Write};

/// A writer that takes one byte of each write and stores it, so that a write can fail between any two bytes.
#[derive(Drop)]
pub struct ByteWriter<A: Allocator> {
    taken: Vec<u8, A>,
}

impl<A: Allocator> ByteWriter<A> {
    /// Creates a writer that has taken nothing yet.
    pub fn new(alloc: A) -> ByteWriter<A> {
        ByteWriter {
            taken: Vec::new(alloc),
        }
    }

    /// Returns the bytes that it took, in order.
    pub fn taken(&self) -> &[u8] {
        &self.taken
    }
}

impl<A: Allocator> Write for ByteWriter<A> {
    fn write(&mut self, bytes: &[u8]) -> io::Result<usize> {
        match bytes.first() {
            Some(byte) => {
                self.taken.push(*byte)?;
                Ok(1)
            }
            None => Ok(0),
        }
    }

    fn flush(&mut self) -> io::Result<()> {
        Ok(())
    }
}

/// A writer that passes each write and flush on to `inner`, except for one, which fails with an error of kind `Other`.
#[derive(Drop)]
pub struct FailingWriter<W> {
    inner: W,
    left: u64,
}

impl<W: Write> FailingWriter<W> {
    /// Creates a writer that passes on `passed` writes and flushes, fails at the next one, and passes on all later
    /// ones.
    pub fn after(inner: W, passed: u64) -> FailingWriter<W> {
        FailingWriter {
            inner,
            left: passed,
        }
    }

    /// Returns the writer that this one passes its calls on to.
    pub fn get_ref(&self) -> &W {
        &self.inner
    }

    // Counts one call, and returns whether it is the one that fails.
    fn fails(&mut self) -> bool {
        let is_last = self.left == 0;
        self.left = self.left.wrapping_sub(1);
        is_last
    }
}

impl<W: Write> Write for FailingWriter<W> {
    fn write(&mut self, bytes: &[u8]) -> io::Result<usize> {
        if self.fails() {
            return Err(io::Error::from(ErrorKind::Other));
        }
        self.inner.write(bytes)
    }

    fn flush(&mut self) -> io::Result<()> {
        if self.fails() {
            return Err(io::Error::from(ErrorKind::Other));
        }
        self.inner.flush()
    }
}
