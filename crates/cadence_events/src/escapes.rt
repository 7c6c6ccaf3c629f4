//! Escapes: a newline in a text, and `m:` in the message of a service check.
ghost use Rattle.std.specs.Prelude.{◌≡◌, ◌-◌, ◌==◌, length, slice_index};
ghost use Rattle.cadence_events.specs.Escapes.{between, escaped, escaped_message};
ghost use Rattle.cadence_value.specs.Takes.{Takes};

use cadence_value::bytes::split_text_once;
use cadence_value::text::PieceWriter;

/// Returns the length in bytes that a text has in a line, where a newline is two bytes.
pub(crate) fn escaped_len(text: &str) -> usize
    ensures { result ≡ length (escaped text.now) }
{
    let mut newlines = 0;
    for byte in text.as_bytes() {
        if *byte == b'\n' {
            newlines += 1;
        }
    }
    text.len() + newlines
}

/// Writes a text with a backslash and an `n` in place of each newline.
pub(crate) fn push_escaped<S: PieceWriter>(line: &mut S, text: &str)
    ensures { Takes S.ends_as line.old (escaped text.now) line.new }
{
    let mut left = text;
    while let Some((front, rest)) = split_text_once(left, b'\n') {
        line.take_piece(front);
        line.take_piece("\\n");
        left = rest;
    }
    line.take_piece(left);
}

// Returns whether the last byte of a text is an `m`.
fn ends_in_m(text: &str) -> bool
    ensures { result ≡ (slice_index text.now (length text.now - 1) == 109) }
{
    let bytes = text.as_bytes();
    !bytes.is_empty() && bytes[bytes.len() - 1] == b'm'
}

// Writes a backslash if the last byte of a text is an `m`. A colon comes next.
fn push_mark<S: PieceWriter>(line: &mut S, front: &str)
    ensures { Takes S.ends_as line.old
        (between (slice_index front.now (length front.now - 1)) 58) line.new }
{
    if ends_in_m(front) {
        line.take_byte(b'\\');
    }
}

/// Writes the message of a service check, with a backslash between each `m` and the colon after it.
pub(crate) fn push_message<S: PieceWriter>(line: &mut S, message: &str)
    ensures { Takes S.ends_as line.old (escaped_message message.now) line.new }
{
    let mut left = message;
    while let Some((front, rest)) = split_text_once(left, b':') {
        push_escaped(line, front);
        push_mark(line, front);
        line.take_byte(b':');
        left = rest;
    }
    push_escaped(line, left);
}
