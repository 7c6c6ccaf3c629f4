//! Prints packets.
ghost use Rattle.std.specs.Prelude.{◌≡◌, ◌≤◌, [], true, length, MatchResult};
ghost use Rattle.cadence_flow.specs.Writer.{history_of};
ghost use Rattle.cadence_send.specs.Writers.{is_packet_error, packet_writer_kind};

use crate::engine::split_line;
use cadence_cli::push_bytes;
use cadence_errors::SinkError;
use cadence_flow::io::{PacketWriter, Refusals};
use std::alloc::{AllocError, Allocator, Global};
use std::io::Write;

/// A writer that prints each packet as a line: the word `packet`, the length in bytes, and the bytes with the escapes
/// of `cadence_cli::push_bytes`.
#[derive(Drop)]
pub struct PacketPrinter<O, A: Allocator = Global> {
    output: O,
    // The line that is printed.
    text: Vec<u8, A>,
    // A part of the line that is printed.
    piece: String<A>,
    refusals: Refusals,
}

impl<O: Write + Drop, A: Allocator + Clone> PacketPrinter<O, A> {
    /// Returns a writer that prints to this output.
    pub fn new(alloc: A, output: O) -> Result<PacketPrinter<O, A>, AllocError> {
        Ok(PacketPrinter {
            output,
            text: Vec::new(alloc.clone()?),
            piece: String::new(alloc),
            refusals: Refusals::none(),
        })
    }
}

// Returns whether all bytes are newlines, or printable without an escape. The loop doesn't stop early, so that the
// compiler tests many bytes at a time.
fn are_plain(bytes: &[u8]) -> bool {
    let mut all = true;
    for byte in bytes {
        let is_printable = *byte >= b' ' && *byte <= b'~' && *byte != b'\\';
        all = all & (is_printable || *byte == b'\n');
    }
    all
}

// Adds lines without other escapes than those of their newlines.
fn push_lines<A: Allocator>(text: &mut Vec<u8, A>, bytes: &[u8]) -> Result<(), AllocError> {
    let mut left = bytes;
    while let Some((line, others)) = split_line(left) {
        text.extend_from_slice(line)?;
        text.extend_from_slice(b"\\n")?;
        left = others;
    }
    text.extend_from_slice(left)
}

// Adds the bytes with their escapes. Most packets have only newlines to escape, and those are added line by line.
fn push_escaped<A: Allocator>(
    text: &mut Vec<u8, A>,
    piece: &mut String<A>,
    bytes: &[u8],
) -> Result<(), AllocError> {
    if are_plain(bytes) {
        return push_lines(text, bytes);
    }
    piece.clear();
    push_bytes(piece, bytes)?;
    text.extend_from_slice(piece.as_bytes())
}

// Prints a packet and returns its length in bytes. The texts of the two buffers are replaced.
fn print_packet<O: Write, A: Allocator>(
    output: &mut O,
    text: &mut Vec<u8, A>,
    piece: &mut String<A>,
    packet: &[u8],
) -> Result<usize, SinkError>
    ensures { MatchResult result (λ n. n ≤ length packet.now) (λ e. is_packet_error e ≡ true) }
{
    let length = packet.len();
    piece.clear();
    write!(piece, "packet {length}")?;
    text.clear();
    text.extend_from_slice(piece.as_bytes())?;
    if length > 0 {
        text.extend_from_slice(b" ")?;
    }
    push_escaped(text, piece, packet)?;
    text.extend_from_slice(b"\n")?;
    match output.write_all(text) {
        Ok(()) => Ok(length),
        Err(error) => Err(SinkError::Io(error)),
    }
}

impl<O: Write + Drop, A: Allocator> PacketWriter for PacketPrinter<O, A> {
    ghost history = { λ w. history_of [] w.refusals };

    ghost kind = { λ _. packet_writer_kind };

    fn write_packet(&mut self, packet: &[u8]) -> Result<usize, SinkError> {
        let answer = print_packet(&mut self.output, &mut self.text, &mut self.piece, packet);
        self.refusals.note(&answer, packet.len());
        answer
    }
}
