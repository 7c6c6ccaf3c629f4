//! Callers, each in a thread of its own and with handles of its own.

use crate::queues::Queue;
use crate::record::{CALLERS, next_trace};
use crate::turns::holds_in_time;
use cadence::prelude::*;
use cadence::types::{Counter, SinkError};
use cadence::{MetricResult, Runtime, StatsdClient};
use std::alloc::Global;
use std::sync::{Arc, Mutex};
use std::thread;

// After this many emits a caller takes a new handle, and drops its old one.
const EMITS_OF_A_HANDLE: u64 = 100;

/// What the calls of one caller returned.
#[derive(Clone, Copy, Drop)]
pub struct CallerAnswers {
    /// The number of the caller.
    pub caller: usize,
    /// The number of lines that were accepted.
    pub accepted: u64,
    /// The trace of the numbers in these lines.
    pub trace: u64,
    /// The number of lines that a full queue refused.
    pub refused: u64,
    /// The greatest number of waiting lines that the caller saw in the queue.
    pub most_queued: u64,
}

impl CallerAnswers {
    // Returns the answers of a caller before its first call.
    fn none(caller: usize) -> CallerAnswers {
        CallerAnswers {
            caller,
            accepted: 0,
            trace: 0,
            refused: 0,
            most_queued: 0,
        }
    }

    // Notes what the call with this number returned.
    fn note(&mut self, number: u64, answer: MetricResult<Counter>) {
        match answer {
            Ok(_) => {
                self.accepted = self.accepted.wrapping_add(1);
                self.trace = next_trace(self.trace, number);
            }
            Err(error) => {
                if matches!(error.sink_error(), Some(SinkError::ChannelFull)) {
                    self.refused = self.refused.wrapping_add(1);
                }
            }
        }
    }
}

/// The sums over all callers.
#[derive(Clone, Copy, Drop)]
pub struct Totals {
    /// The number of lines that were accepted.
    pub accepted: u64,
    /// The number of lines that a full queue refused.
    pub refused: u64,
    /// The greatest number of waiting lines that a caller saw in the queue.
    pub most_queued: u64,
}

impl Totals {
    /// Returns the sums of these answers.
    pub fn of(answers: &[CallerAnswers]) -> Totals {
        let (mut accepted, mut refused, mut most_queued) = (0u64, 0u64, 0u64);
        for one in answers {
            accepted = accepted.wrapping_add(one.accepted);
            refused = refused.wrapping_add(one.refused);
            most_queued = most_queued.max(one.most_queued);
        }
        Totals {
            accepted,
            refused,
            most_queued,
        }
    }
}

/// When a caller makes its next call.
#[derive(Clone, Copy, PartialEq, Eq)]
pub enum Pace {
    /// At once. Now and then it takes a new handle.
    FullSpeed,
    /// As soon as no line waits in the queue.
    LineByLine,
}

// Sends counters with the numbers from 1 to `emits`, now and then over a new handle.
fn emit_at_full_speed<R: Runtime>(
    alloc: Global,
    handle: Queue<R>,
    caller: usize,
    emits: u64,
) -> MetricResult<CallerAnswers> {
    let key = format!(in alloc; "{caller}")?;
    let mut answers = CallerAnswers::none(caller);
    let mut client = StatsdClient::from_sink(alloc, "load", handle)?;
    for number in 1..=emits {
        answers.note(number, client.count(&key, number));
        if number % EMITS_OF_A_HANDLE == 0 {
            answers.most_queued = answers.most_queued.max(client.sink().queued());
            let handle = client.sink().clone()?;
            client = StatsdClient::from_sink(alloc, "load", handle)?;
        }
    }
    Ok(answers)
}

// Sends counters with the numbers from 1 to `emits` over one handle, each once no line waits. Returns `None` if a line
// waits for too long.
fn emit_line_by_line<R: Runtime>(
    rt: &R,
    alloc: Global,
    handle: Queue<R>,
    caller: usize,
    emits: u64,
) -> MetricResult<Option<CallerAnswers>> {
    let key = format!(in alloc; "{caller}")?;
    let mut answers = CallerAnswers::none(caller);
    let client = StatsdClient::from_sink(alloc, "load", handle)?;
    for number in 1..=emits {
        answers.note(number, client.count(&key, number));
        if !holds_in_time(rt, &|| client.sink().queued() == 0) {
            return Ok(None);
        }
    }
    Ok(Some(answers))
}

// Makes the calls of a caller, given by its number and how many calls it makes.
fn emit_all<R: Runtime>(
    rt: &R,
    alloc: Global,
    handle: Queue<R>,
    pace: Pace,
    (caller, emits): (usize, u64),
) -> MetricResult<Option<CallerAnswers>> {
    match pace {
        Pace::FullSpeed => Ok(Some(emit_at_full_speed(alloc, handle, caller, emits)?)),
        Pace::LineByLine => emit_line_by_line(rt, alloc, handle, caller, emits),
    }
}

/// What the calls of those callers returned that have come to their end.
pub type Answers = Arc<Mutex<Vec<CallerAnswers>>>;

// Starts a caller, which at its end adds what its calls returned to `answers`. `one` is its number and how many calls
// it makes.
fn start_caller<R: Runtime>(
    rt: &R,
    alloc: Global,
    queue: &Queue<R>,
    answers: &Answers,
    pace: Pace,
    one: (usize, u64),
) -> MetricResult<()> {
    let (own, handle, answers) = (rt.clone()?, queue.clone()?, answers.clone()?);
    thread::Builder::new().spawn(rt, move || {
        if let Ok(Some(own_answers)) = emit_all(&own, alloc, handle, pace, one) {
            let _added = answers.lock(&own).push(own_answers);
        }
    })?;
    Ok(())
}

/// Runs the callers, each of which makes this many calls, and returns what their calls returned. At full speed this
/// function too clones and drops handles meanwhile. A caller that doesn't end in time is left out.
pub fn run_callers<R: Runtime>(
    rt: &R,
    alloc: Global,
    queue: &Queue<R>,
    pace: Pace,
    emits: [u64; CALLERS],
) -> MetricResult<Vec<CallerAnswers>> {
    let answers = Arc::new(alloc, Mutex::new(Vec::new(alloc)))?;
    for one in emits.iter().copied().enumerate() {
        start_caller(rt, alloc, queue, &answers, pace, one)?;
    }
    holds_in_time(
        rt,
        &|| {
            if pace == Pace::FullSpeed {
                let _handle: Result<_, _> = queue.clone();
            }
            answers.lock(rt).len() == CALLERS
        },
    );
    let all = answers.lock(rt).clone()?;
    Ok(all)
}
