//! Prints the lines of one packet, over any reader and writers.
ghost use Rattle.std.specs.Prelude.{◌≡◌, ◌≤◌, ℕ, List, IfOk, IfSome, map, string_bytes};
ghost use Rattle.std.specs.Io.KnownBytes.{Appends};
ghost use Rattle.cadence_text.specs.Owned.{metric_of_owned};
ghost use Rattle.cadence_listen.specs.Lines.{IsLinesOf, listing_of};

use cadence_cli::{ReportError, print_report, push_text, read_all};
use cadence_errors::MetricResult;
use cadence_read::{ReadFault, read_packet};
use cadence_text::line::OwnedMetric;
use std::alloc::Allocator;
use std::io::{Read, Write};

// Turns an error of reading into an error of the program.
fn report_error(fault: ReadFault) -> ReportError<ReadFault> {
    match fault {
        ReadFault::Unusable(_) => ReportError::Unusable(fault),
        ReadFault::OutOfMemory => ReportError::OutOfMemory,
    }
}

// Returns a line of the report for each metric. The only error is that memory ran out.
fn listing_of<A: Allocator + Clone>(
    alloc: &A,
    metrics: &[OwnedMetric<A>],
) -> MetricResult<String<A>>
    ensures { IfOk result (λ text.
        string_bytes text ≡ listing_of (map metric_of_owned metrics.now)) }
{
    let mut text = String::new(alloc.clone()?);
    for metric in metrics {
        let line = metric.line()?;
        push_text(&mut text, "line", line.as_bytes())?;
    }
    Ok(text)
}

// Reads the packet from the input, and returns the text that lists its metrics.
fn read_listing<A: Allocator + Clone, I: Read>(
    alloc: A,
    input: &mut I,
) -> Result<String<A>, ReportError<ReadFault>>
    ensures { IfOk result (λ text. IfSome (I.remaining input.old) (λ packet.
        IsLinesOf packet (string_bytes text))) }
{
    let packet = read_all(alloc.clone()?, input)?;
    let metrics = read_packet(alloc.clone()?, &packet).map_err(report_error)?;
    let Ok(text) = listing_of(&alloc, &metrics) else {
        return Err(ReportError::OutOfMemory);
    };
    Ok(text)
}

/// Reads the whole input as one packet, and prints a line for each of its metrics: the word `line`, the length of the
/// metric's line in bytes, and the metric's line with the escapes of `cadence_cli::push_bytes`.
///
/// Returns the exit status of the program:
///
/// - 0 if the lines were printed,
/// - 1 if writing to `output` failed; nothing is written to `errors` then,
/// - 2 if the input can't be read, or is not a packet of metrics,
/// - 3 if memory ran out.
///
/// With the status 2 or 3 nothing is printed to `output`, and one line is written to `errors`. An error of `errors` is
/// ignored.
pub fn run_listen<A: Allocator + Clone, I: Read, O: Write, E: Write>(
    alloc: A,
    input: &mut I,
    output: &mut O,
    errors: &mut E,
) -> u8
    ensures status { result ≤ 3 }
    ensures printed { result ≡ 0 → IfSome (I.remaining input.old) (λ packet.
        (text : List ℕ) × IsLinesOf packet text
        × Appends (O.contents output.old) (O.contents output.new) text) }
{
    print_report("statsd_listen", read_listing(alloc, input), output, errors)
}
