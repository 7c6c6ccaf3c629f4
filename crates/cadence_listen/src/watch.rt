//! Prints or counts the lines of packets as they come.
ghost use Rattle.std.specs.Prelude.{◌≡◌, ◌&&◌, ◌++◌, List, IfOk, OnOk, Option, false, not, string_bytes, true, ℕ};
ghost use Rattle.std.specs.Io.KnownBytes.{Appends};
ghost use Rattle.std.specs.Option.{option_map};
ghost use Rattle.cadence_listen.specs.Filters.{pieces};
ghost use Rattle.cadence_listen.specs.Readable.{Tells};
ghost use Rattle.cadence_listen.specs.Rows.{AreRows, IsRemarkOf, IsRow, IsRowOf, IsWithoutLast, front_column, remark_column};

use crate::counts::Counts;
use crate::faults::tell_faults;
use crate::filter::Filter;
use crate::object::{push_line, push_member, push_raw};
use crate::pieces::{split_piece, without_last};
use crate::remark::remark_on;
use crate::row::push_row;
use cadence_read::{AnyLine, cut_line};
use std::alloc::{AllocError, AllocFailed, Global};
use std::io;
use std::io::Write;

/// Which lines of packets are printed, and how.
#[derive(Clone, Copy, Debug, Default)]
pub struct WatchFormat<'a> {
    /// Which lines are printed.
    pub filter: Filter<'a>,
    /// Whether each line is printed as a JSON object.
    pub is_json: bool,
    /// Whether a packet with a line that no server can read is refused whole.
    pub is_strict: bool,
}

/// What is known of a packet besides its bytes.
#[derive(Clone, Copy, Debug)]
pub struct Origin<'a> {
    /// The number of the packet, counted from 1.
    pub number: u64,
    /// When the packet came, if that is to be printed: seconds since 1970.
    pub time: Option<&'a str>,
    /// Who sent the packet, if that is to be printed.
    pub sender: Option<&'a str>,
}

/// Why the lines of a packet were not printed.
#[derive(Debug, Drop)]
pub enum WatchError {
    /// Writing to the output failed.
    Output(io::Error),
    /// Memory ran out.
    OutOfMemory,
}

impl From<AllocError> for WatchError {
    fn from(_error: AllocError) -> WatchError {
        WatchError::OutOfMemory
    }
}

impl<T: Drop> From<AllocFailed<T>> for WatchError {
    fn from(_error: AllocFailed<T>) -> WatchError {
        WatchError::OutOfMemory
    }
}

// Returns the remark on a line. Only a metric's line has one.
fn remark_of(alloc: Global, line: &[u8], is: AnyLine<'_>) -> Result<Option<String>, AllocError>
    ensures { IfOk result (λ remark.
        IsRemarkOf line.now is.entry (option_map string_bytes remark)) }
{
    match is {
        AnyLine::MetricLine(_) => remark_on(alloc, line),
        _ => Ok(None),
    }
}

// Returns what is printed of a line as a JSON object.
fn json_of(
    alloc: Global,
    line: &[u8],
    is: AnyLine<'_>,
    origin: Origin<'_>,
) -> Result<String, AllocError> {
    let mut text = String::new(alloc);
    if let Some(time) = origin.time {
        push_raw(&mut text, "received", time)?;
    }
    if let Some(sender) = origin.sender {
        push_member(alloc, &mut text, "sender", sender.as_bytes())?;
    }
    push_line(alloc, &mut text, is)?;
    if let Some(remark) = remark_of(alloc, line, is)? {
        push_member(alloc, &mut text, "remark", remark.as_bytes())?;
    }
    text.push_str("}\n")?;
    Ok(text)
}

// Adds a text and a tab, if there is a text.
fn push_front(out: &mut String, text: Option<&str>) -> Result<(), AllocError>
    ensures { OnOk result (string_bytes out.new
        ≡ string_bytes out.old ++ front_column text.entry) }
{
    match text {
        Some(text) => {
            out.push_str(text)?;
            out.push('\t')
        }
        None => Ok(()),
    }
}

// Adds a tab and the remark on a line, if it has one.
fn push_remark(
    alloc: Global,
    out: &mut String,
    line: &[u8],
    is: AnyLine<'_>,
) -> Result<(), AllocError>
    ensures { OnOk result ((remark : Option (List ℕ)) × IsRemarkOf line.now is.entry remark
        × (string_bytes out.new ≡ string_bytes out.old ++ remark_column remark)) }
{
    match remark_of(alloc, line, is)? {
        Some(remark) => {
            out.push('\t')?;
            out.push_str(&remark)
        }
        None => Ok(()),
    }
}

// Adds what is printed of a line as columns.
fn push_columns(
    alloc: Global,
    out: &mut String,
    line: &[u8],
    is: AnyLine<'_>,
    origin: Origin<'_>,
) -> Result<(), AllocError>
    ensures { OnOk result ((row : List ℕ) × IsRow origin.entry line.now is.entry row
        × (string_bytes out.new ≡ string_bytes out.old ++ row)) }
{
    push_front(out, origin.time)?;
    push_front(out, origin.sender)?;
    push_row(out, is)?;
    push_remark(alloc, out, line, is)?;
    out.push('\n')
}

// Adds what is printed of a text between newlines.
fn push_piece(
    alloc: Global,
    out: &mut String,
    piece: &[u8],
    origin: Origin<'_>,
    format: WatchFormat<'_>,
) -> Result<(), AllocError>
    ensures { OnOk result (format.entry.is_json ≡ false → (row : List ℕ)
        × IsRowOf format.entry.filter origin.entry piece.now row
        × (string_bytes out.new ≡ string_bytes out.old ++ row)) }
{
    let line = without_last(piece, b'\r');
    let is = cut_line(line);
    if line.is_empty() || !format.filter.keeps(is) {
        return Ok(());
    }
    if format.is_json {
        let text = json_of(alloc, line, is, origin)?;
        return out.push_str(&text);
    }
    push_columns(alloc, out, line, is, origin)
}

// Returns what is printed of the texts between newlines.
fn list_lines(
    alloc: Global,
    lines: &[u8],
    origin: Origin<'_>,
    format: WatchFormat<'_>,
) -> Result<String, AllocError>
    ensures { IfOk result (λ text. format.entry.is_json ≡ false →
        AreRows format.entry.filter origin.entry (pieces 10 lines.now) (string_bytes text)) }
{
    let mut text = String::new(alloc);
    let mut left = Some(lines);
    while let Some(rest) = left {
        let (piece, others) = split_piece(rest, b'\n');
        push_piece(alloc, &mut text, piece, origin, format)?;
        left = others;
    }
    Ok(text)
}

/// Prints the lines of a packet that the filter keeps. A carriage return at the end of a line belongs to its end, and an
/// empty line is no line. For each line that no server can read, the number of the packet and of the line are written to
/// `errors`. If the format is strict, nothing is printed of such a packet. Returns whether a server can read all lines. An
/// error of `errors` is ignored.
///
/// # Errors
/// `Output` if the lines can't be written, and `OutOfMemory`.
pub fn print_packet<O: Write, E: Write>(
    alloc: Global,
    packet: &[u8],
    origin: Origin<'_>,
    format: WatchFormat<'_>,
    output: &mut O,
    errors: &mut E,
) -> Result<bool, WatchError>
    ensures told { IfOk result (λ whole. (lines : List ℕ) × IsWithoutLast 10 packet.now lines
        × Tells lines whole) }
    ensures refused { IfOk result (λ whole. (format.entry.is_strict && not whole) ≡ true →
        O.contents output.new ≡ O.contents output.old) }
    ensures printed { IfOk result (λ whole. (format.entry.is_strict && not whole) ≡ false →
        format.entry.is_json ≡ false → (lines : List ℕ) × (text : List ℕ)
        × IsWithoutLast 10 packet.now lines
        × AreRows format.entry.filter origin.entry (pieces 10 lines) text
        × Appends (O.contents output.old) (O.contents output.new) text) }
{
    let lines = without_last(packet, b'\n');
    let is_whole = tell_faults(alloc, lines, origin.number, errors)?;
    if format.is_strict && !is_whole {
        return Ok(false);
    }
    let text = list_lines(alloc, lines, origin, format)?;
    match output.write_all(text.as_bytes()) {
        Ok(()) => Ok(is_whole),
        Err(error) => Err(WatchError::Output(error)),
    }
}

/// Counts the lines of a packet in place of printing them. All else is as `print_packet` has it.
///
/// # Errors
/// `OutOfMemory`.
pub fn count_packet<E: Write>(
    alloc: Global,
    packet: &[u8],
    number: u64,
    format: WatchFormat<'_>,
    counts: &mut Counts,
    errors: &mut E,
) -> Result<bool, AllocError>
    ensures { IfOk result (λ whole. (lines : List ℕ) × IsWithoutLast 10 packet.now lines
        × Tells lines whole) }
{
    let lines = without_last(packet, b'\n');
    let is_whole = tell_faults(alloc, lines, number, errors)?;
    if format.is_strict && !is_whole {
        return Ok(false);
    }
    for line in lines.split(|byte| *byte == b'\n') {
        let line = without_last(line, b'\r');
        let is = cut_line(line);
        if !line.is_empty() && format.filter.keeps(is) {
            counts.add(alloc, is)?;
        }
    }
    Ok(is_whole)
}
