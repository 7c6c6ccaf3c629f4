//! A run of lines and flushes.
ghost use Rattle.std.specs.Prelude.{◌≡◌, ◌-◌, ◌++◌, [], All, IfOk, Ok, OnOk, Some, length, slice_get};
ghost use Rattle.cadence_aggregating.specs.Origins.{ComesFrom};
ghost use Rattle.cadence_aggregating.specs.Past.{Summarizes};
ghost use Rattle.cadence_aggregating.specs.Recorded.{lines_accepted, samples_held, limits_of, lines_taken};
ghost use Rattle.cadence_aggregating.specs.Runs.{accepted_line, accepted_lines};
ghost use Rattle.cadence_aggregating.specs.declared.runs.Step.TheVariants.{Flush};

use crate::limits::Limits;
use crate::recorded::RecordedAggregator;
use cadence_errors::SinkError;
use cadence_flow::MetricSink;
use std::alloc::{AllocError, Global};

/// A step of a run.
#[derive(Clone, Copy)]
pub enum Step<'a> {
    /// A line comes.
    Add(&'a str),
    /// What is held is sent.
    Flush,
}

/// The reply of each step of a run, and the aggregator after it.
#[derive(Drop)]
pub struct Outcome<S: Drop> {
    pub replies: Vec<Result<(), SinkError>>,
    pub aggregator: RecordedAggregator<S>,
}

// Takes a step, and returns its reply.
fn take_step<S: MetricSink>(
    aggregator: &mut RecordedAggregator<S>,
    step: Step<'_>,
) -> Result<(), SinkError>
    ensures accepted { lines_accepted aggregator.new
        ≡ lines_accepted aggregator.old ++ accepted_line step.entry result }
    ensures flushed { step.entry ≡ Flush → OnOk result (samples_held aggregator.new ≡ []) }
    ensures limits { limits_of aggregator.new ≡ limits_of aggregator.old }
{
    let mut fault = SinkError::NothingWritten;
    match step {
        Step::Add(line) => aggregator.add(line, &mut fault).ok_or(fault),
        Step::Flush => aggregator.flush(&mut fault).ok_or(fault),
    }
}

/// Runs lines and flushes, over any sink, which may refuse what it likes, and with any limits. Each step has a reply.
///
/// A server knows the same from the lines that the sink took, and what is still held, as from the accepted lines, and
/// they are no more. After a last step that is a flush which succeeded nothing is held. Each line that the sink took is one
/// of the accepted lines, or was made of some of them. The only error is that memory ran out.
pub fn run<S: MetricSink>(
    alloc: Global,
    limits: Limits,
    sink: S,
    steps: &[Step<'_>],
) -> Result<Outcome<S>, AllocError>
    ensures replies { IfOk result (λ o. length o.replies.items ≡ length steps.now) }
    ensures headline { IfOk result (λ o. ∥ Summarizes
        (accepted_lines steps.now o.replies.items)
        (lines_taken o.aggregator) (samples_held o.aggregator) ∥₁) }
    ensures flushed { IfOk result (λ o.
        slice_get steps.now (length steps.now - 1) ≡ Some Flush →
        slice_get o.replies.items (length steps.now - 1) ≡ Some (Ok tt) →
        samples_held o.aggregator ≡ []) }
    ensures origins { IfOk result (λ o. ∥ All
        (ComesFrom limits.most_bytes (accepted_lines steps.now o.replies.items))
        (lines_taken o.aggregator) ∥₁) }
{
    let mut aggregator = RecordedAggregator::new(alloc, limits, sink)?;
    let mut replies = Vec::with_capacity(alloc, steps.len())?;
    for step in steps {
        let reply = take_step(&mut aggregator, *step);
        replies.push(reply)?;
    }
    aggregator.keeps_the_record();
    Ok(Outcome {
        replies,
        aggregator,
    })
}
