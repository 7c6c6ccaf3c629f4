//! A queue whose worker feeds an aggregator, with logs that have names.
ghost use Rattle.std.specs.Prelude.{◌≡◌, [], OnOk};
ghost use Rattle.cadence_aggregating.specs.Recorded.{samples_held};
ghost use Rattle.cadence_queuing.specs.Logs.{names_of};
ghost use Rattle.cadence_queuing.specs.Look.{stage_at};

use crate::tests::steps::assert_got;
use cadence::pipeline::{FedLogs, FedSink, Look, Named, Names, WorkerLogs};
use cadence::{QueuingMetricSink, QueuingMetricSinkBuilder, Runtime, SinkError, SpyMetricSink};
use cadence_aggregating::{Limits, RecordedAggregator, holds_nothing, summary};
use std::alloc::Global;
use std::marker::Brand;
use std::num::NonZeroUsize;
use std::sync::Wait;
use std::test::Fail;

// An aggregator over a spy.
type Sums<R> = RecordedAggregator<SpyMetricSink<R>>;

// A queue whose worker feeds an aggregator.
type Queue<R, J> = QueuingMetricSink<FedSink<Sums<R>, R, Global, J>, R, Global, Named<J>>;

const LIMITS: Limits = Limits {
    most_contexts: NonZeroUsize::MIN,
    most_bytes: 100,
    packs_values: true,
};

// Stops the queue and flushes the sums: what was sent, with what is held, is a summary of the lines that they took, and
// nothing is held if the flush succeeded.
fn stop<R: Wait + Drop, J: Names>(
    queue: &Queue<R, J>,
) -> (Look<Sums<R>, Global, J>, Result<(), SinkError>)
    ensures { OnOk result.1 (samples_held (stage_at result.0) ≡ []) }
{
    let mut receipt = queue.accepted();
    let (look, flushed) = queue.stop_and_flush(&mut receipt);
    summary(&look);
    holds_nothing(&look, &flushed);
    (look, flushed)
}

// Counts and sets a gauge over a queue, and asserts what is sent in place of the lines.
fn assert_sums<R: Runtime, J: Names + Send + Sync + 'static>(
    rt: &R,
    alloc: Global,
    logs: WorkerLogs<Global>,
    fed: FedLogs<Global>,
) -> Result<(), Fail>
    requires worker { names_of logs ≡ J.names }
    requires sink { (fed.fed.name ≡ J.names.fed) × (fed.from.name ≡ J.names.taken) }
{
    let (receiver, spy) = SpyMetricSink::new(rt.clone()?, alloc)?;
    let sums = RecordedAggregator::new(alloc, LIMITS, spy)?;
    let sink: FedSink<_, R, Global, J> = FedSink::new(rt.clone()?, sums, fed);
    let queue = QueuingMetricSinkBuilder::new().build_fed(rt.clone()?, alloc, sink, logs)?;
    for line in ["a:1|c", "g:4|g", "a:2|c", "g:5|g"] {
        let _receipt = queue.emit_seen(line)?;
    }
    let (_look, flushed) = stop(&queue);
    flushed?;
    assert_got(&receiver, "a:3|c g:5|g")
}

#[test]
fn a_queue_over_sums_sends_a_summary(rt: HostRuntime) -> Result<(), Fail> {
    let (logs, fed) = WorkerLogs::begin();
    assert_sums::<HostRuntime, Brand>(&rt, rt.alloc(), logs, fed)
}
