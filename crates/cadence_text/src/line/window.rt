//! A window on a part of a line. The line is written to it without being stored as a whole, so it takes no memory.
ghost use Rattle.std.specs.Prelude.{◌≡◌, ◌≤◌, []};

use cadence_value::text::{ByteWriter, PieceWriter};

/// The most bytes that a window stores.
pub(crate) const WINDOW: usize = 512;

/// A part of a line: up to `WINDOW` bytes of it, after the bytes that the window skips.
///
/// `skip` is how many of the bytes that come next are still to be skipped.
#[derive(Clone, Copy)]
pub(crate) struct Window {
    bytes: [u8; WINDOW],
    length: usize,
    skip: u128,
    ghost within: { length ≤ 512 },
}

impl Window {
    ghost use Rattle.cadence_value.specs.Takes.{Takes};
    ghost use Rattle.cadence_text.specs.PieceWriters.{window_ends, window_text};

    // Returns an empty window that skips this many bytes.
    pub(crate) fn after(skip: u128) -> Window
        ensures shown { window_text result ≡ [] }
        ensures skip { result.skip ≡ skip }
        ensures length { result.length ≡ 0 }
    {
        Window {
            bytes: [0; WINDOW],
            length: 0,
            skip,
        }
    }

    // Returns the bytes that the window has stored.
    pub(crate) fn shown(&self) -> &[u8]
        ensures { result.now ≡ window_text self.now }
    {
        &self.bytes[..self.length]
    }

    // Stores these bytes, as far as there is room. No more bytes are to be skipped.
    fn show(&mut self, text: &[u8])
        requires { self.old.skip ≡ 0 }
        ensures { Takes window_ends self.old text.now self.new }
    {
        let count = text.len().min(WINDOW - self.length);
        let end = self.length + count;
        self.bytes[self.length..end].copy_from_slice(&text[..count]);
        self.length = end;
    }

    // Takes the next bytes of the line: skips those that are still to be skipped, and stores the others.
    fn pass(&mut self, text: &[u8])
        ensures { Takes window_ends self.old text.now self.new }
    {
        let length = text.len() as u128;
        if length <= self.skip {
            self.skip -= length;
            return;
        }
        let from = self.skip as usize;
        self.skip = 0;
        self.show(&text[from..]);
    }
}

impl ByteWriter for Window {
    ghost use Rattle.cadence_text.specs.PieceWriters.{window_ends};

    ghost ends_as = { window_ends };

    fn take_byte(&mut self, byte: u8) {
        self.pass(&[byte]);
    }
}

impl PieceWriter for Window {
    fn take_piece(&mut self, piece: &str) {
        self.pass(piece.as_bytes());
    }
}
