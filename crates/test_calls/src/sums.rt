//! Adds up the lines of rows, by each of what adds up lines: a sink, a run of steps, and sums without a sink.
use crate::rows::{is_row, number, text_of, unreadable};
use cadence::sinks::{MetricSink, SpyMetricSink, SpyReceiver};
use cadence::types::MetricError;
use cadence::{MetricResult, Runtime};
use cadence_aggregating::{AggregatingMetricSinkBuilder, Limits, LineKey, Step, SummedLines, run};
use std::alloc::{AllocError, Global};
use std::num::NonZeroUsize;
use std::sync::Wait;

// The most bytes of a line that is held.
const MOST_BYTES: usize = 24;

// A row: how many contexts of each kind are held, how many lines the wrapped sink takes before it refuses each, and the
// steps.
#[derive(Drop)]
struct Row<'a> {
    contexts: usize,
    capacity: usize,
    steps: Vec<Step<'a>>,
}

// Reads a row. Of its steps `!` is a flush, and any other word a line.
fn read_row(alloc: Global, text: &str) -> MetricResult<Row<'_>> {
    let mut words = text.split(' ');
    let (Some(contexts), Some(capacity)) = (words.next(), words.next()) else {
        return Err(unreadable());
    };
    let mut steps = Vec::new(alloc);
    for word in words {
        steps.push(match word {
            "!" => Step::Flush,
            _ => Step::Add(word),
        })?;
    }
    Ok(Row {
        contexts: number(contexts)?,
        capacity: number(capacity)?,
        steps,
    })
}

// Returns what sums hold of rows.
fn limits_of(contexts: usize) -> Limits {
    Limits {
        most_contexts: NonZeroUsize::new(contexts).unwrap_or(NonZeroUsize::MIN),
        most_bytes: MOST_BYTES,
        packs_values: true,
    }
}

// Adds the letter for the reply of a step.
fn add_reply(text: &mut String, is_ok: bool) -> Result<(), AllocError> {
    text.push(if is_ok { 'y' } else { 'n' })
}

// Adds each message of a spy, with a space before it.
fn add_messages<R: Wait + Drop>(
    text: &mut String,
    receiver: &SpyReceiver<R>,
) -> Result<(), AllocError> {
    for _ in 0..u64::MAX {
        let Some(message) = receiver.try_recv() else {
            break;
        };
        text.push(' ')?;
        for byte in &message {
            text.push(char::from(*byte))?;
        }
    }
    Ok(())
}

// Makes the steps by an aggregating sink, and returns the replies, and the lines that the wrapped sink takes of them.
fn by_sink<R: Runtime>(rt: &R, alloc: Global, row: &Row<'_>) -> MetricResult<String> {
    let (receiver, spy) = SpyMetricSink::with_capacity(rt.clone()?, alloc, row.capacity)?;
    let sink = AggregatingMetricSinkBuilder::new()
        .with_max_contexts(row.contexts)
        .with_max_line(MOST_BYTES)
        .with_packed_values()
        .build(rt.clone()?, alloc, spy)?;
    let mut text = String::new(alloc);
    for step in &row.steps {
        let is_ok = match step {
            Step::Add(line) => sink.emit(line).is_ok(),
            Step::Flush => sink.flush().is_ok(),
        };
        add_reply(&mut text, is_ok)?;
    }
    add_messages(&mut text, &receiver)?;
    Ok(text)
}

// Makes the steps by a run of them, and returns the same.
fn by_run<R: Runtime>(rt: &R, alloc: Global, row: &Row<'_>) -> MetricResult<String> {
    let (receiver, spy) = SpyMetricSink::with_capacity(rt.clone()?, alloc, row.capacity)?;
    let outcome = run(alloc, limits_of(row.contexts), spy, &row.steps)?;
    let mut text = String::new(alloc);
    for reply in &outcome.replies {
        add_reply(&mut text, reply.is_ok())?;
    }
    add_messages(&mut text, &receiver)?;
    Ok(text)
}

// Drops the lines that wait, and returns them, each with a space before it.
fn take_all(alloc: Global, sums: &mut SummedLines) -> Result<String, AllocError> {
    let mut text = String::new(alloc);
    for _ in 0..u64::MAX {
        let Some(line) = sums.first() else {
            break;
        };
        text.push(' ')?;
        text.push_str(line)?;
        sums.drop_first();
    }
    Ok(text)
}

// Makes the steps by sums without a sink, and returns the lines that wait after them.
fn by_sums(alloc: Global, row: &Row<'_>) -> Result<String, AllocError> {
    let mut sums = SummedLines::new(alloc, limits_of(row.contexts))?;
    for step in &row.steps {
        match step {
            Step::Add(line) => sums.add(line)?,
            Step::Flush => sums.flush()?,
        }
    }
    take_all(alloc, &mut sums)
}

// Returns whether a row comes out as it says. Nothing refuses a line of sums without a sink.
fn is_right<R: Runtime>(rt: &R, alloc: Global, row: &str, wanted: &str) -> MetricResult<bool> {
    let row = read_row(alloc, row)?;
    let is_refused = wanted
        .split(' ')
        .next()
        .is_some_and(|replies| replies.contains('n'));
    Ok(
        by_sink(rt, alloc, &row)?.as_str() == wanted
            && by_run(rt, alloc, &row)?.as_str() == wanted
            && (is_refused || wanted.ends_with(by_sums(alloc, &row)?.as_str())),
    )
}

// Adds up 5 and 40 by the key of a line, if it has one, and returns the lines that leave at a flush.
fn by_key(alloc: Global, line: &str) -> Result<String, AllocError> {
    let mut sums = SummedLines::new(alloc, limits_of(9))?;
    match LineKey::of_line(alloc, line)? {
        Some(LineKey::Raises(key)) => {
            sums.count(&key, 5)?;
            sums.count(&key, 40)?;
        }
        Some(LineKey::Sets(key)) => {
            sums.gauge(&key, 5)?;
            sums.gauge(&key, 40)?;
        }
        None => {}
    }
    sums.flush()?;
    take_all(alloc, &mut sums)
}

/// Adds up the lines of rows, and returns how many rows there are, and each row that comes out otherwise.
pub fn report<R: Runtime>(rt: &R, alloc: Global, rows: &str) -> MetricResult<String> {
    let (mut text, mut count) = (String::new(alloc), 0u32);
    for row in rows.lines().filter(|line| is_row(line)) {
        let Some((steps, wanted)) = row.split_once(" ->") else {
            return Err(unreadable());
        };
        let (steps, wanted) = (text_of(alloc, steps)?, text_of(alloc, wanted)?);
        let is_right = match steps.strip_prefix("key ") {
            Some(line) => by_key(alloc, line)?.as_str() == wanted.as_str(),
            None => is_right(rt, alloc, &steps, wanted.trim_start())?,
        };
        count = count.wrapping_add(1);
        if !is_right {
            writeln!(&mut text, "  another outcome: {row}")?;
        }
    }
    format!(in alloc; "{count} rows of sums\n{text}").map_err(MetricError::from)
}
