//! Reads packets.

use crate::arguments::{Arguments, Reading};
use crate::done::{BlackBox, Done, Note};
use crate::packets::make_line;
use bumpalo::Bump;
use cadence::MetricResult;
use cadence_read::{AnyLine, are_numbers, cut_line, read_packet};
use std::alloc::{AllocError, Allocator, Global};
use std::str;
use std::time::Instant;

// A line with every field.
const FULL: &str =
    "some.prefix.some.counter:2.5|ms|@0.5|#host:web-1,region:eu,canary|c:ci-1234567890|T1234567890";

// Returns a packet of as many of these lines, each with its newline, as fit the capacity.
fn make_packet(alloc: Global, line: &str, capacity: usize) -> Result<String, AllocError> {
    let mut packet = String::new(alloc);
    for _ in 0..capacity / line.len().saturating_add(1) {
        packet.push_str(line)?;
        packet.push('\n')?;
    }
    Ok(packet)
}

// Reads a packet, drops its metrics, and returns how many there were.
fn count_metrics<A: Allocator + Clone>(alloc: A, packet: &str) -> Result<u64, AllocError> {
    // the packet is one of metrics, so reading fails only if memory runs out
    match read_packet(alloc, packet.as_bytes()) {
        Ok(metrics) => Ok(metrics.len() as u64),
        Err(_) => Err(AllocError),
    }
}

// Returns whether a line is that of a metric of any client, and all its values are numbers.
fn has_numbers(line: &[u8]) -> bool {
    match cut_line(line) {
        AnyLine::MetricLine(parts) => match str::from_utf8(parts.values) {
            Ok(values) => are_numbers(values),
            Err(_) => false,
        },
        _ => false,
    }
}

// Cuts the lines of a packet and reads their values, and returns how many there were.
fn count_cut(packet: &str) -> u64 {
    let mut metrics = 0u64;
    for line in packet.as_bytes().split(|byte| *byte == b'\n') {
        if has_numbers(line) {
            metrics = metrics.wrapping_add(1);
        }
    }
    metrics
}

// Cuts the lines of packets. It takes no memory.
fn cut_lines(
    rt: &HostRuntime,
    alloc: Global,
    arguments: &Arguments,
    line: &str,
) -> MetricResult<Done> {
    let packet = make_packet(alloc, line, arguments.capacity)?;
    let hidden = BlackBox::new();
    let mut metrics = 0u64;
    let start = Instant::now(rt)?;
    for _ in 0..arguments.calls {
        metrics = metrics.wrapping_add(count_cut(hidden.text(&packet)));
    }
    Ok(Done {
        time: start.elapsed(rt)?,
        check: metrics,
        note: Note::Packets(arguments.calls),
    })
}

// Reads packets of these lines. The memory for their metrics comes from the heap.
fn read_lines(
    rt: &HostRuntime,
    alloc: Global,
    arguments: &Arguments,
    line: &str,
) -> MetricResult<Done> {
    let packet = make_packet(alloc, line, arguments.capacity)?;
    let hidden = BlackBox::new();
    let mut metrics = 0u64;
    let start = Instant::now(rt)?;
    for _ in 0..arguments.calls {
        metrics = metrics.wrapping_add(count_metrics(alloc, hidden.text(&packet))?);
    }
    Ok(Done {
        time: start.elapsed(rt)?,
        check: metrics,
        note: Note::Packets(arguments.calls),
    })
}

// Reads packets of these lines, each into an arena that is emptied after it.
fn read_in_arena(
    rt: &HostRuntime,
    alloc: Global,
    arguments: &Arguments,
    line: &str,
) -> MetricResult<Done> {
    let packet = make_packet(alloc, line, arguments.capacity)?;
    let hidden = BlackBox::new();
    let mut arena = Bump::new(alloc);
    let mut metrics = 0u64;
    let start = Instant::now(rt)?;
    for _ in 0..arguments.calls {
        metrics = metrics.wrapping_add(count_metrics(&arena, hidden.text(&packet))?);
        let Ok(()) = arena.reset() else {
            return Err(AllocError.into());
        };
    }
    Ok(Done {
        time: start.elapsed(rt)?,
        check: metrics,
        note: Note::Packets(arguments.calls),
    })
}

/// Reads packets of plain counters or of lines with every field, into the heap or into an arena, or cuts their lines as
/// those of any client.
pub fn read_packets(
    rt: &HostRuntime,
    alloc: Global,
    what: Reading,
    arguments: &Arguments,
) -> MetricResult<Done> {
    match what {
        Reading::Counters => read_lines(rt, alloc, arguments, &make_line(alloc, arguments.length)?),
        Reading::CountersInArena => {
            read_in_arena(rt, alloc, arguments, &make_line(alloc, arguments.length)?)
        }
        Reading::Full => read_lines(rt, alloc, arguments, FULL),
        Reading::FullInArena => read_in_arena(rt, alloc, arguments, FULL),
        Reading::CutCounters => cut_lines(
            rt,
            alloc,
            arguments,
            &make_line(alloc, arguments.length)?,
        ),
        Reading::CutFull => cut_lines(rt, alloc, arguments, FULL),
    }
}
