//! A queue whose worker sleeps before most lines, because each caller waits after a line until none is queued. A
//! wake-up that got lost would leave a line in the queue, and its caller would not end.

use crate::callers::{Pace, Totals, run_callers};
use crate::queues::{QueueKind, make_queue};
use crate::record::CALLERS;
use cadence::{MetricResult, Runtime};
use std::alloc::Global;

// How many calls each caller makes.
const EMITS_OF_EACH: u64 = 250;

/// How many calls all callers make together.
pub const EMITS: u64 = EMITS_OF_EACH * CALLERS as u64;

/// Runs the callers over a queue of this kind. Reports how many came to their end, and how many lines were accepted and
/// drained.
pub fn report<R: Runtime>(rt: &R, alloc: Global, kind: QueueKind) -> MetricResult<String> {
    let (_state, queue) = make_queue(rt, alloc, kind)?;
    let answers = run_callers(
        rt,
        alloc,
        &queue,
        Pace::LineByLine,
        [EMITS_OF_EACH; CALLERS],
    )?;
    let Totals {
        accepted,
        refused: _,
        most_queued: _,
    } = Totals::of(&answers);
    let (ended, drained) = (answers.len(), queue.drained());
    let mut text = format!(in alloc; "  callers that come to their end {ended}\n")?;
    writeln!(&mut text, "  accepted {accepted}, drained {drained}")?;
    Ok(text)
}
