//! A reader that fails once, and one that reads one byte at a time.
use std::io;
use std::io::{ErrorKind, Read};

/// A reader whose reads return one byte each, so that a read can fail between any two bytes.
#[derive(Clone, Copy, Debug)]
pub struct ByteReader<'a> {
    left: &'a [u8],
}

impl<'a> ByteReader<'a> {
    /// Creates a reader of these bytes.
    pub fn new(bytes: &'a [u8]) -> ByteReader<'a> {
        ByteReader { left: bytes }
    }
}

impl Read for ByteReader<'_> {
    fn read(&mut self, buffer: &mut [u8]) -> io::Result<usize> {
        match (self.left, buffer) {
            ([byte, left @ ..], [first, ..]) => {
                *first = *byte;
                self.left = left;
                Ok(1)
            }
            _ => Ok(0),
        }
    }
}

/// A reader that passes each read on to `inner`, except for one, which fails with an error of kind `Other`.
#[derive(Drop)]
pub struct FailingReader<R> {
    inner: R,
    left: u64,
}

impl<R: Read> FailingReader<R> {
    /// Creates a reader that passes on `passed` reads, fails at the next one, and passes on all later ones.
    pub fn after(inner: R, passed: u64) -> FailingReader<R> {
        FailingReader {
            inner,
            left: passed,
        }
    }
}

impl<R: Read> Read for FailingReader<R> {
    fn read(&mut self, buffer: &mut [u8]) -> io::Result<usize> {
        let is_last = self.left == 0;
        self.left = self.left.wrapping_sub(1);
        if is_last {
            return Err(io::Error::from(ErrorKind::Other));
        }
        self.inner.read(buffer)
    }
}
