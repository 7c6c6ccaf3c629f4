//! Reports the lines of a packet that no server can read.
ghost use Rattle.std.specs.Prelude.{IfOk, IsFalse, IsTrue};
ghost use Rattle.cadence_listen.specs.Readable.{IsReadable, IsUnreadable, Tells};

use crate::pieces::{split_piece, without_last};
use cadence_cli::push_bytes;
use cadence_read::{AnyLine, cut_line};
use std::alloc::{AllocError, Global};
use std::io::Write;

// Returns whether a server can read the line of a text between newlines. An empty line is no line, so that it is read.
fn can_be_read(piece: &[u8]) -> bool
    ensures yes { IsTrue result → IsReadable piece.now }
    ensures no { IsFalse result → IsUnreadable piece.now }
{
    let line = without_last(piece, b'\r');
    let is = cut_line(line);
    if line.is_empty() {
        return true;
    }
    !matches!(is, AnyLine::Opaque(_))
}

// Reports that no server can read a line. An error of `errors` is ignored.
fn tell_fault<E: Write>(
    alloc: Global,
    piece: &[u8],
    place: (u64, u64),
    errors: &mut E,
) -> Result<(), AllocError> {
    let mut text = String::new(alloc);
    push_bytes(&mut text, without_last(piece, b'\r'))?;
    let (packet, number) = place;
    let _ = writeln!(
        errors,
        "statsd_watch: packet {packet}, line {number}: wants NAME:VALUE|TYPE: {text}"
    );
    Ok(())
}

/// Reports each line of a packet that no server can read. Returns whether there is none.
pub(crate) fn tell_faults<E: Write>(
    alloc: Global,
    lines: &[u8],
    packet: u64,
    errors: &mut E,
) -> Result<bool, AllocError>
    ensures { IfOk result (Tells lines.now) }
{
    let (mut number, mut is_whole) = (0u64, true);
    let mut left = Some(lines);
    while let Some(rest) = left {
        let (piece, others) = split_piece(rest, b'\n');
        number = number.saturating_add(1);
        let is_readable = can_be_read(piece);
        if !is_readable {
            tell_fault(alloc, piece, (packet, number), errors)?;
        }
        is_whole = is_whole && is_readable;
        left = others;
    }
    Ok(is_whole)
}
