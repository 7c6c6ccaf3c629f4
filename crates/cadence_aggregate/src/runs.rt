//! A run of lines and flushes.
ghost use Rattle.std.specs.Prelude.{◌≡◌, ◌+◌, ◌-◌, ◌++◌, ◌<◌, [], List, Result, length, slice_get, IfOk, Ok, OnOk, Some};
ghost use Rattle.cadence_aggregate.specs.Aggregate.{held, accepted_samples, said_by};
ghost use Rattle.cadence_aggregate.specs.Led.{AllLead};
ghost use Rattle.cadence_aggregate.specs.Server.{IsSummary};
ghost use Rattle.cadence_aggregate.specs.Within.{StayWithin};
ghost use Rattle.cadence_aggregate.specs.declared.runs.Step.TheVariants.{Flush};
ghost use Rattle.cadence_errors.specs.declared.SinkError.{SinkError};

use crate::aggregator::Aggregator;
use crate::line::Line;
use crate::sink::LineSink;
use cadence_errors::SinkError;
use std::alloc::{AllocError, Global};
use std::num::NonZeroUsize;

/// A step of a run.
#[derive(Clone, Copy)]
pub enum Step<'a> {
    /// A line comes.
    Add(Line<'a>),
    /// What is held is sent.
    Flush,
}

/// The reply of each step of a run, and what is still held.
#[derive(Drop)]
pub struct Outcome {
    pub replies: Vec<Result<(), SinkError>>,
    pub aggregator: Aggregator,
}

// Takes a step, and returns its reply.
fn take_step<S: LineSink>(
    aggregator: &mut Aggregator,
    sink: &mut S,
    step: Step<'_>,
) -> Result<(), SinkError>
    ensures said { IsSummary ((S.sent sink.old ++ held aggregator.old) ++ said_by step.entry result)
        (S.sent sink.new ++ held aggregator.new) }
    ensures flushed { step.entry ≡ Flush → OnOk result (held aggregator.new ≡ []) }
    ensures leads { S.leads sink.old result sink.new }
    ensures within { StayWithin aggregator.old.most_bytes
        ((S.sent sink.old ++ held aggregator.old) ++ said_by step.entry result)
        (S.sent sink.new ++ held aggregator.new) }
    ensures limit { aggregator.new.most_bytes ≡ aggregator.old.most_bytes }
{
    let mut fault = SinkError::NothingWritten;
    match step {
        Step::Add(line) => aggregator.add(sink, line, &mut fault).ok_or(fault),
        Step::Flush => aggregator.flush(sink, &mut fault).ok_or(fault),
    }
}

/// Runs a list of lines and flushes with any limits, over any sink, which may refuse any line. Each step has a reply.
///
/// A server learns the same from the lines that were sent, and then the lines of what is still held, as from the
/// accepted lines themselves, and it gets no more lines. After a last step that is a flush which succeeded nothing is held.
/// A reply is the error with which the sink refused a line, if it
/// refused one in this step. The only error of the run is that memory ran out.
pub fn run<S: LineSink>(
    alloc: Global,
    most: NonZeroUsize,
    most_bytes: usize,
    sink: &mut S,
    steps: &[Step<'_>],
) -> Result<Outcome, AllocError>
    ensures replies { IfOk result (λ o. length o.replies.items ≡ length steps.now) }
    ensures headline { IfOk result (λ o. IsSummary
        (S.sent sink.old ++ accepted_samples steps.now o.replies.items)
        (S.sent sink.new ++ held o.aggregator)) }
    ensures flushed { IfOk result (λ o.
        slice_get steps.now (length steps.now - 1) ≡ Some Flush →
        slice_get o.replies.items (length steps.now - 1) ≡ Some (Ok tt) →
        held o.aggregator ≡ []) }
    ensures leads { (replies : List (Result (Unit {0}) SinkError)) ×
        AllLead S.leads sink.old replies sink.new × IfOk result (λ o. o.replies.items ≡ replies) }
    ensures within { IfOk result (λ o. StayWithin most_bytes
        (S.sent sink.old ++ accepted_samples steps.now o.replies.items)
        (S.sent sink.new ++ held o.aggregator)) }
{
    let mut aggregator = Aggregator::new(alloc, most, most_bytes)?;
    let mut replies = Vec::with_capacity(alloc, steps.len())?;
    for step in steps {
        let reply = take_step(&mut aggregator, sink, *step);
        replies.push(reply)?;
    }
    Ok(Outcome {
        replies,
        aggregator,
    })
}
