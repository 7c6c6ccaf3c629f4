//! Reads a line, or finds the place from which it can't be read.
ghost use Rattle.std.specs.Prelude.{◌≤◌, IfOk, IsTrue, length};
ghost use Rattle.cadence_listen.specs.Places.{CanBegin, IsPlace, ReadsLine};

use cadence_read::{ReadFault, read_line};
use cadence_text::line::OwnedMetric;
use cadence_value::bytes::split_once;
use std::alloc::{AllocError, Allocator};
use std::str;

/// What reading a line gave.
#[derive(Debug, Drop)]
pub enum Reading<A: Allocator> {
    /// The line is that of this metric.
    Read(OwnedMetric<A>),
    /// The line is not that of any metric. Its first bytes, up to this place, are also the first bytes of some metric's
    /// line, unless the place is 0.
    Unread(usize),
}

// If a text is the beginning of a metric's line, it is a whole line with one of these texts behind it: which ones depends on
// where it ends.
const ENDS_OF_NAME: [&[u8]; 1] = [b":1|c"];

const ENDS_OF_VALUES: [&[u8]; 3] = [b"1|c", b"|c", b".1|c"];

const ENDS_OF_TYPE: [&[u8]; 2] = [b"", b"c"];

const ENDS_OF_FIELDS: [&[u8]; 5] = [b"", b"1", b".1", b":", &[b'T', b'1']];

// Returns the texts of which one makes a whole line, behind a beginning of a metric's line.
fn ends_of(text: &[u8]) -> &'static [&'static [u8]] {
    let Some((_, others)) = split_once(text, b'|') else {
        return if text.contains(&b':') {
            &ENDS_OF_VALUES
        } else {
            &ENDS_OF_NAME
        };
    };
    if others.contains(&b'|') {
        &ENDS_OF_FIELDS
    } else {
        &ENDS_OF_TYPE
    }
}

// Returns where the character ends that the place is within, or the place if it is between two characters.
fn end_of_char(text: &[u8], at: usize) -> usize
    requires { at ≤ length text.now }
    ensures least { at ≤ result }
    ensures most { result ≤ length text.now }
{
    let (front, others) = text.split_at(at);
    if str::from_utf8(front).is_ok() {
        return at;
    }
    match others.iter().position(|byte| *byte & 0xc0 != 0x80) {
        Some(more) => at + more,
        None => text.len(),
    }
}

// Returns whether the text, with the end behind it, is the line of a metric. Both are written into the buffer.
fn is_line<A: Allocator + Clone>(
    alloc: &A,
    buffer: &mut Vec<u8, A>,
    text: &[u8],
    end: &[u8],
) -> Result<bool, AllocError>
    ensures { IfOk result (λ is. IsTrue is → CanBegin text.now) }
{
    buffer.clear();
    buffer.extend_from_slice(text)?;
    buffer.extend_from_slice(end)?;
    match read_line(alloc, buffer) {
        Ok(_) => Ok(true),
        Err(ReadFault::Unusable(_)) => Ok(false),
        Err(ReadFault::OutOfMemory) => Err(AllocError),
    }
}

// Returns whether the line of some metric begins with the text.
fn can_begin<A: Allocator + Clone>(
    alloc: &A,
    buffer: &mut Vec<u8, A>,
    text: &[u8],
) -> Result<bool, AllocError>
    ensures { IfOk result (λ is. IsTrue is → CanBegin text.now) }
{
    for end in ends_of(text) {
        if is_line(alloc, buffer, text, end)? {
            return Ok(true);
        }
    }
    Ok(false)
}

// Returns how many bytes of the line are also the first bytes of some metric's line. If a text is the beginning of a
// line, so is each beginning of the text, and so a binary search finds the longest one. It tries whole characters only,
// because no end completes a part of one.
fn find_place<A: Allocator + Clone>(alloc: &A, line: &[u8]) -> Result<usize, AllocError>
    ensures { IfOk result (IsPlace line.now) }
{
    let mut buffer = Vec::new(alloc.clone()?);
    let (mut good, mut bad) = (0, line.len() + 1);
    while bad - good > 1 {
        let middle = good + (bad - good) / 2;
        let at = end_of_char(line, middle);
        if at < bad && can_begin(alloc, &mut buffer, &line[..at])? {
            good = at;
        } else {
            bad = middle;
        }
    }
    Ok(good)
}

/// Reads the metric of a line. If there is none, it finds the place from which the line can't be read: up to there it can
/// be the beginning of a metric's line.
///
/// # Errors
/// The only error is that memory ran out.
pub fn read_or_find<A: Allocator + Clone>(alloc: &A, line: &[u8]) -> Result<Reading<A>, AllocError>
    ensures { IfOk result (ReadsLine line.now) }
{
    match read_line(alloc, line) {
        Ok(metric) => Ok(Reading::Read(metric)),
        Err(ReadFault::Unusable(_)) => {
            let at = find_place(alloc, line)?;
            Ok(Reading::Unread(at))
        }
        Err(ReadFault::OutOfMemory) => Err(AllocError),
    }
}
