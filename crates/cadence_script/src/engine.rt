//! Runs a script, over any reader and writers.
ghost use Rattle.std.specs.Prelude.{◌≤◌};

use crate::print::{Shown, report_text};
use crate::script::{Script, ScriptError, read_script};
use cadence_aggregating::Limits;
use cadence_cli::{ReportError, print_report, read_all};
use cadence_errors::{ErrorKind, MetricError};
use cadence_flow::io::PacketLog;
use cadence_schedule::{run_schedule_aggregated, run_schedule_with};
use cadence_settings::ClientSettings;
use std::alloc::{AllocError, Allocator, Global};
use std::io::{Read, Write};
use std::num::NonZeroUsize;

// The length of the longest line that an aggregator holds, in bytes.
const MOST_BYTES: usize = 512;

// Returns why a script has no settings.
fn settings_error(error: &MetricError) -> ReportError<ScriptError> {
    match error.kind() {
        ErrorKind::InvalidInput => ReportError::Unusable(ScriptError::Separator),
        _ => ReportError::OutOfMemory,
    }
}

// Runs a script without an aggregator, and returns the text of its report.
fn plain_text<A: Allocator + Clone>(
    alloc: A,
    script: &Script<A>,
    settings: &ClientSettings<A>,
) -> Result<String<A>, AllocError> {
    let log = PacketLog::new(alloc.clone()?, script.answers.clone()?);
    let Ok(report) = run_schedule_with(
        alloc.clone()?,
        settings,
        script.capacity,
        &script.ending,
        script.queue,
        script.policy,
        &script.steps,
        log,
    ) else {
        return Err(AllocError);
    };
    let shown = Shown {
        replies: report.replies(),
        log: report.writer(),
        held: report.held(),
        aggregated: &[],
        queue: report.queue(),
        in_hand: report.in_hand(),
        cut: report.cut(),
        stats: report.stats(),
    };
    report_text(alloc, &shown, &script.answers)
}

// Runs a script with an aggregator that holds at most `most_contexts` contexts, and returns the text of its report.
fn aggregated_text<A: Allocator + Clone>(
    global: Global,
    alloc: A,
    script: &Script<A>,
    settings: &ClientSettings<A>,
    most_contexts: NonZeroUsize,
) -> Result<String<A>, AllocError> {
    let log = PacketLog::new(alloc.clone()?, script.answers.clone()?);
    let limits = Limits {
        most_contexts,
        most_bytes: MOST_BYTES,
        packs_values: false,
    };
    let Ok(mut report) = run_schedule_aggregated(
        global,
        alloc.clone()?,
        settings,
        script.capacity,
        &script.ending,
        limits,
        script.queue,
        script.policy,
        &script.steps,
        log,
    ) else {
        return Err(AllocError);
    };
    let aggregated = report.take_lines(global)?;
    let shown = Shown {
        replies: &report.replies,
        log: &report.writer,
        held: &report.held,
        aggregated: &aggregated,
        queue: &report.queue,
        in_hand: report.in_hand.as_ref().map(|line| line.as_str()),
        cut: &report.cut,
        stats: report.stats,
    };
    report_text(alloc, &shown, &script.answers)
}

// Reads a script from the input, runs it, and returns the text of its report.
fn report_of<A: Allocator + Clone, I: Read>(
    global: Global,
    alloc: A,
    input: &mut I,
) -> Result<String<A>, ReportError<ScriptError>> {
    let bytes = read_all(alloc.clone()?, input)?;
    let Ok(text) = str::from_utf8(&bytes) else {
        return Err(ReportError::Unusable(ScriptError::NotUtf8));
    };
    let script = read_script(alloc.clone()?, text)?;
    let settings = match script.settings() {
        Ok(settings) => settings,
        Err(error) => return Err(settings_error(&error)),
    };
    let text = match script.aggregate {
        Some(contexts) => aggregated_text(global, alloc, &script, &settings, contexts)?,
        None => plain_text(alloc, &script, &settings)?,
    };
    Ok(text)
}

/// Reads a script, runs its schedule over a packet log, and prints the report to `output`. An aggregator, if the script
/// asks for one, takes its memory from `global`.
///
/// Returns the exit status of the program:
///
/// - 0 if the report was printed,
/// - 1 if writing to `output` failed; nothing is written to `errors` then,
/// - 2 if the input can't be read, is not UTF-8, or has a line that can't be read, or is strict and has a separator in
///   its prefix, a default tag or the default container,
/// - 3 if memory ran out.
///
/// With the status 2 or 3 nothing is printed to `output`, and one line is written to `errors`. An error of `errors` is
/// ignored.
pub fn run_script<A: Allocator + Clone, I: Read, O: Write, E: Write>(
    global: Global,
    alloc: A,
    input: &mut I,
    output: &mut O,
    errors: &mut E,
) -> u8
    ensures { result ≤ 3 }
{
    print_report(
        "statsd_schedule",
        report_of(global, alloc, input),
        output,
        errors,
    )
}
