//! Runs of a script in which one thing fails in each turn: a request for memory, a read or a write.
//!
//! A turn has to end in one of these ways: as the run without a failure does, if the failure didn't happen or changed
//! nothing; with the status and the message of the failure, and with no output or a first part of the report; or with a
//! report in which the reply of one step says that memory ran out. But for that reply it has to be the report of the
//! script in which that step is a call that is always refused, or in which the writer refuses one packet more. So no
//! step leaves anything else behind if memory runs out. With an aggregator it may also be as the report without a failure
//! up to that reply.
use crate::scripts::{Outcome, outcome_of, outcome_with};
use cadence_script::run_script;
use std::alloc::{AllocError, Global};
use std::fmt;
use test_tools::RefusingAllocator;
use test_tools::reader::{ByteReader, FailingReader};
use test_tools::writer::{ByteWriter, FailingWriter};

// More than the requests, reads or writes of any run.
const MOST_TURNS: u64 = 20_000;

// A call that is always refused, because its value doesn't fit.
const REFUSED_CALL: &str = "call ms k t:18446744073709551615/0";

// The ways in which a turn may end, as places in the counts.

// As the run without a failure ends.
const SAME: usize = 0;

// In a report in which one reply says that memory ran out.
const REPORTED: usize = 1;

// With status 3, because memory ran out, and nothing printed.
const OUT_OF_MEMORY: usize = 2;

// With status 2, because the input can't be read, and nothing printed.
const UNREAD: usize = 3;

// With status 1, and a first part of the report printed.
const UNWRITTEN: usize = 4;

// In any other way.
const WRONG: usize = 5;

// How the counts are printed.
const ENDS: [&str; 6] = [
    "as without",
    "in a reply",
    "for want of memory",
    "unread",
    "unwritten",
    "otherwise",
];

/// How many turns ended in each way.
#[derive(Drop)]
pub struct EndCounts {
    counts: [u64; 6],
}

impl EndCounts {
    /// Returns counts of 0.
    pub fn zero() -> EndCounts {
        EndCounts { counts: [0; 6] }
    }

    // Counts a turn that ended in this way. If `is_right` is false, the turn counts as wrong.
    fn count(&mut self, is_right: bool, end: usize) {
        let place = if is_right { end } else { WRONG };
        if let Some(count) = self.counts.get_mut(place) {
            *count = count.wrapping_add(1);
        }
    }
}

impl fmt::Display for EndCounts {
    fn fmt<W: fmt::Write>(&self, f: &mut fmt::Formatter<W>) -> fmt::Result {
        for (place, (count, end)) in self.counts.iter().zip(&ENDS).enumerate() {
            write!(f, "{}{count} {end}", if place == 0 { "" } else { ", " })?;
        }
        Ok(())
    }
}

// Returns the place of the first reply that says that memory ran out, and whether it is the reply of a call.
fn refused_reply(report: &str) -> Option<(usize, bool)> {
    let mut lines = report.lines().enumerate();
    let (place, line) = lines.find(|(_, line)| line.ends_with(" err out of memory"))?;
    Some((place, line.starts_with("call ")))
}

// Returns the text of these bytes, or no text if they aren't UTF-8.
fn text_of(bytes: &[u8]) -> &str {
    str::from_utf8(bytes).unwrap_or("")
}

// Returns whether two reports have the same lines, but for the one at this place.
fn are_same_but_for(report: &str, other: &str, place: usize) -> bool {
    let mut others = other.lines();
    for (index, line) in report.lines().enumerate() {
        match others.next() {
            Some(other) if index == place || line == other => {}
            _ => return false,
        }
    }
    others.next().is_none()
}

// Returns whether the run of this script has this report, but for the reply at this place.
fn has_report_but_for(alloc: Global, script: &str, report: &str, place: usize) -> bool {
    let other = outcome_of(alloc, script.as_bytes());
    are_same_but_for(report, text_of(&other.output), place)
}

fn is_step(line: &str) -> bool {
    let name = line.split(' ').next().unwrap_or("");
    ["call", "take", "hand", "flush", "stop"].contains(&name)
}

// Returns the script with the call that is always refused in place of its step at this place.
fn with_refused_call(alloc: Global, script: &str, place: usize) -> Result<String, AllocError> {
    let mut text = String::new(alloc);
    let mut steps: usize = 0;
    for line in script.lines() {
        let is_place = is_step(line) && steps == place;
        steps = steps.wrapping_add(usize::from(is_step(line)));
        writeln!(&mut text, "{}", if is_place { REFUSED_CALL } else { line })?;
    }
    Ok(text)
}

// Returns the script with its last `writer` line, but with a refusal at this place.
fn with_refused_packet(alloc: Global, script: &str, place: usize) -> Result<String, AllocError> {
    let answers = script
        .lines()
        .filter_map(|line| line.strip_prefix("writer "))
        .last();
    let mut own = answers.unwrap_or("whole").split(' ');
    let mut text = String::from_str(alloc, "writer")?;
    for _ in 0..place {
        write!(&mut text, " {}", own.next().unwrap_or("whole"))?;
    }
    let refused = own.next();
    text.push_str(" refuse")?;
    for answer in own {
        write!(&mut text, " {answer}")?;
    }
    // a script with a short count has no known cut, so this answer stays, where no packet gets it
    if let Some(answer) = refused {
        for _ in script.lines() {
            text.push_str(" whole whole")?;
        }
        write!(&mut text, " {answer}")?;
    }
    for line in script.lines().filter(|line| !line.starts_with("writer ")) {
        write!(&mut text, "\n{line}")?;
    }
    Ok(text)
}

// Returns whether two reports have the same lines before this place.
fn begin_alike(report: &str, other: &str, place: usize) -> bool {
    let mut lines = report.lines().zip(other.lines()).take(place);
    lines.all(|(line, other)| line == other)
}

// Returns whether the report is the one of this script, if the writer refuses one packet more, but for the reply at this
// place. The report has a line for each packet that was sent, so its lines are enough packets.
fn has_refused_packet(
    alloc: Global,
    script: &str,
    report: &str,
    place: usize,
) -> Result<bool, AllocError> {
    for packet in 0..report.lines().count() {
        let turned = with_refused_packet(alloc, script, packet)?;
        if has_report_but_for(alloc, &turned, report, place) {
            return Ok(true);
        }
    }
    Ok(false)
}

// Returns whether a report has one reply that says that memory ran out, and is else the report of the script in which
// that call, or one packet, is refused for another reason. With an aggregator memory can run out before a line is
// packed, which no script says: then the report has to be as the plain one up to that reply.
fn is_report_without_memory(
    alloc: Global,
    script: &str,
    plain: &str,
    report: &str,
) -> Result<bool, AllocError> {
    let Some((place, is_call)) = refused_reply(report) else {
        return Ok(false);
    };
    if is_call {
        let turned = with_refused_call(alloc, script, place)?;
        return Ok(has_report_but_for(alloc, &turned, report, place));
    }
    let is_alike = script.starts_with("aggregate ") && begin_alike(report, plain, place);
    Ok(is_alike || has_refused_packet(alloc, script, report, place)?)
}

// Counts the end of a run that was refused one request for memory.
fn count_refusal(
    alloc: Global,
    script: &[u8],
    plain: &Outcome,
    outcome: &Outcome,
    ends: &mut EndCounts,
) -> Result<(), AllocError> {
    if outcome.difference(plain).is_none() {
        ends.count(true, SAME);
    } else if outcome.status == 3 {
        let is_reported = outcome.errors.as_slice()
            == b"statsd_schedule: out of memory\n".as_slice();
        ends.count(is_reported && outcome.output.is_empty(), OUT_OF_MEMORY);
    } else {
        let (plain, report) = (text_of(&plain.output), text_of(&outcome.output));
        let is_right = is_report_without_memory(alloc, text_of(script), plain, report)?;
        let is_alone = outcome.status == 0 && outcome.errors.is_empty();
        ends.count(is_alone && is_right, REPORTED);
    }
    Ok(())
}

// Refuses each request for memory in turn, until a run asks for less.
fn refuse_memory(
    alloc: Global,
    script: &[u8],
    plain: &Outcome,
    ends: &mut EndCounts,
) -> Result<(), AllocError> {
    for granted in 0..MOST_TURNS {
        let heap = RefusingAllocator::after(alloc, alloc, granted)?;
        let mut input = script;
        let outcome = outcome_with(alloc, heap.clone()?, &mut input);
        if heap.left() <= granted {
            ends.count(outcome.difference(plain).is_none(), SAME);
            return Ok(());
        }
        count_refusal(alloc, script, plain, &outcome, ends)?;
    }
    ends.count(false, SAME);
    Ok(())
}

// Lets each read fail in turn. A read returns one byte, and the last one finds the end of the script.
fn fail_reads(
    alloc: Global,
    script: &[u8],
    plain: &Outcome,
    ends: &mut EndCounts,
) -> Result<(), AllocError> {
    for passed in 0..MOST_TURNS {
        let mut input = FailingReader::after(ByteReader::new(script), passed);
        let outcome = outcome_with(alloc, alloc, &mut input);
        if passed > script.len() as u64 {
            ends.count(outcome.difference(plain).is_none(), SAME);
            return Ok(());
        }
        let is_reported = outcome.errors.as_slice()
            == b"statsd_schedule: input: cannot read\n".as_slice();
        ends.count(
            outcome.status == 2 && is_reported && outcome.output.is_empty(),
            UNREAD,
        );
    }
    ends.count(false, SAME);
    Ok(())
}

// Returns whether these are the first `passed` bytes of a text, or all of it if it has fewer.
fn is_start(bytes: &[u8], text: &[u8], passed: u64) -> bool {
    text.starts_with(bytes) && bytes.len() as u64 == passed.min(text.len() as u64)
}

// Lets each write of one byte, and the flush, fail in turn, for the output and the errors alike.
fn fail_writes(
    alloc: Global,
    script: &[u8],
    plain: &Outcome,
    ends: &mut EndCounts,
) -> Result<(), AllocError> {
    for passed in 0..MOST_TURNS {
        let mut input = script;
        let mut output = FailingWriter::after(ByteWriter::new(alloc), passed);
        let mut errors = FailingWriter::after(ByteWriter::new(alloc), passed);
        let status = run_script(alloc, alloc, &mut input, &mut output, &mut errors);
        let (printed, reported) = (output.get_ref().taken(), errors.get_ref().taken());
        if status == plain.status && printed == plain.output.as_slice() {
            ends.count(is_start(reported, &plain.errors, passed), SAME);
        } else {
            let is_part = is_start(printed, &plain.output, passed) && reported.is_empty();
            ends.count(status == 1 && is_part, UNWRITTEN);
        }
        if passed > (plain.output.len().max(plain.errors.len())) as u64 {
            return Ok(());
        }
    }
    ends.count(false, SAME);
    Ok(())
}

/// Runs a script, and then lets each request for memory, each read and each write fail in turn. Counts the ends.
pub fn fail_in_turn(alloc: Global, script: &[u8], ends: &mut EndCounts) -> Result<(), AllocError> {
    let plain = outcome_of(alloc, script);
    refuse_memory(alloc, script, &plain, ends)?;
    fail_reads(alloc, script, &plain, ends)?;
    fail_writes(alloc, script, &plain, ends)
}
