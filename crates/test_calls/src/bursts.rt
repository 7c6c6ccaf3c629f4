//! A queue whose callers emit as fast as they can, and whose wrapped sink takes each line at once.

use crate::callers::{CallerAnswers, Pace, Totals, run_callers};
use crate::queues::{CAPACITY, Queue, QueueKind, make_queue};
use crate::record::{CALLERS, Record, SinkState, is_set};
use crate::turns::{holds_in_time, push_whether};
use cadence::{MetricResult, Runtime};
use std::alloc::Global;
use std::sync::Wait;

/// How many calls all callers make together.
pub const EMITS: u64 = 1_000_000;

// How many calls each caller makes. The last one ends early.
const EMITS_OF_EACH: [u64; CALLERS] = [300_000, 300_000, 300_000, 100_000];

// Returns whether exactly the accepted lines of each caller came, in their order.
fn have_accepted_lines(answers: &[CallerAnswers], record: &Record) -> bool {
    answers.iter().all(|one| {
        record.callers.get(one.caller).is_some_and(|came| (came.lines, came.trace)
            == (one.accepted, one.trace))
    })
}

// The counts of a queue.
#[derive(Clone, Copy, Drop)]
struct Counts {
    submitted: u64,
    drained: u64,
    dropped: u64,
}

// Waits until each accepted line was taken or dropped, and returns the counts of the queue.
fn counts_once_empty<R: Runtime>(rt: &R, queue: &Queue<R>) -> Counts {
    let submitted = queue.submitted();
    holds_in_time(
        rt,
        &|| queue.drained().wrapping_add(queue.dropped()) == submitted,
    );
    Counts {
        submitted: queue.submitted(),
        drained: queue.drained(),
        dropped: queue.dropped(),
    }
}

// Compares the counts of the queue with what the calls returned.
fn report_counts(
    alloc: Global,
    kind: QueueKind,
    totals: &Totals,
    counts: &Counts,
) -> MetricResult<String> {
    let Totals {
        accepted,
        refused,
        most_queued,
        ..
    } = *totals;
    let Counts {
        submitted,
        drained,
        dropped,
    } = *counts;
    let mut text = match kind {
        QueueKind::Unbounded => format!(in alloc; "  accepted {accepted}, dropped {dropped}\n")?,
        QueueKind::Refusing => {
            let answered = accepted.wrapping_add(refused);
            format!(in alloc; "  accepted or refused {answered}, dropped {dropped}\n")?
        }
        QueueKind::Dropping => format!(in alloc; "  accepted {accepted}\n")?,
    };
    let (same, passed) = (
        submitted == accepted,
        drained.wrapping_add(dropped) == submitted,
    );
    push_whether(&mut text, "submitted as accepted", same)?;
    push_whether(&mut text, "drained or dropped as submitted", passed)?;
    if kind != QueueKind::Unbounded {
        let within = most_queued <= CAPACITY as u64;
        push_whether(&mut text, "never more waiting than its capacity", within)?;
    }
    Ok(text)
}

// Returns whether as many lines came as weren't dropped, whether exactly the accepted lines came (if the queue drops
// none), and whether those of each caller came in order.
fn check_record<R: Wait>(
    rt: &R,
    kind: QueueKind,
    answers: &[CallerAnswers],
    counts: &Counts,
    state: &SinkState,
) -> [bool; 3] {
    let record = state.record.lock(rt);
    let all = record.lines() == counts.submitted.wrapping_sub(counts.dropped);
    let accepted = kind == QueueKind::Dropping || have_accepted_lines(answers, &record);
    [all, accepted, record.is_in_order()]
}

// Reports whether the record of the wrapped sink is right.
fn report_record(
    alloc: Global,
    kind: QueueKind,
    right: [bool; 3],
    one: bool,
) -> MetricResult<String> {
    let [all, accepted, order] = right;
    let mut text = String::new(alloc);
    push_whether(&mut text, "each comes that isn't dropped", all)?;
    if kind != QueueKind::Dropping {
        push_whether(&mut text, "just those accepted of each caller", accepted)?;
    }
    push_whether(&mut text, "each caller's in order", order)?;
    push_whether(&mut text, "one at a time", one)?;
    Ok(text)
}

/// Runs the callers over a queue of this kind, and reports which properties hold.
pub fn report<R: Runtime>(rt: &R, alloc: Global, kind: QueueKind) -> MetricResult<String> {
    let (state, queue) = make_queue(rt, alloc, kind)?;
    let answers = run_callers(rt, alloc, &queue, Pace::FullSpeed, EMITS_OF_EACH)?;
    let counts = counts_once_empty(rt, &queue);
    drop(queue);
    let is_gone = holds_in_time(rt, &|| is_set(&state.is_gone));
    let right = check_record(rt, kind, &answers, &counts, &state);
    let mut text = format!(in alloc; "  callers that come to their end {}\n", answers.len())?;
    text.push_str(&report_counts(alloc, kind, &Totals::of(&answers), &counts)?)?;
    text.push_str(&report_record(alloc, kind, right, !is_set(&state.had_two_lines))?)?;
    push_whether(&mut text, "the sink goes after the last handle", is_gone)?;
    Ok(text)
}
