//! Queues whose logs have names: a stage that refuses packets in the middle, the drop of the last handle, and the memory
//! that is asked for.
ghost use Rattle.std.specs.Prelude.{◌≡◌};
ghost use Rattle.cadence_queuing.specs.Logs.{names_of};

use super::steps::assert_messages;
use cadence_errors::{MetricResult, SinkError};
use cadence_queuing::{FedLogs, FedSink, QueuingMetricSink, QueuingMetricSinkBuilder, WorkerLogs};
use cadence_resolve::Runtime;
use cadence_sinks::{BufferedSpyMetricSink, SpyLines, SpyReceiver};
use cadence_stage::{Named, Names};
use std::alloc::{Allocator, Global};
use std::marker::Brand;
use std::sync::Arc;
use std::sync::atomic::{AtomicU64, Ordering};
use std::test::Fail;
use test_tools::{RefusingAllocator, each_refused};

// A queue whose worker feeds the packer of a spy.
type FedQueue<R, A, J> = QueuingMetricSink<FedSink<SpyLines<R, A>, R, A, J>, R, A, Named<J>>;

type Heap = RefusingAllocator<Global>;

// How many packets may wait for the receiver; whether the flush at the end succeeds; how many lines are refused; the
// packets that have come by then, and those that come at the drop of the last handle.
type Row = (
    Option<usize>,
    bool,
    u64,
    &'static [&'static str],
    &'static [&'static str],
);

const LINES: &[&str] = &[
    "a:1|c", "b:1|c", "c:1|c", "d:1|c", "e:1|c", "f:1|c", "g:1|c",
];

// A packet has two lines. The packer that is refused still holds a packet, so it refuses each later line.
const ROWS: &[Row] = &[
    (
        None,
        true,
        0,
        &[
            "a:1|c\nb:1|c\n",
            "c:1|c\nd:1|c\n",
            "e:1|c\nf:1|c\n",
            "g:1|c\n",
        ],
        &[],
    ),
    (Some(1), false, 3, &["a:1|c\nb:1|c\n"], &["c:1|c\nd:1|c\n"]),
];

// Makes a queue with this builder, over a spy with room for so many packets, and the receiver of these.
fn make_queue<
    R: Runtime,
    A: Allocator + Clone + Send + Sync + 'static,
    J: Names + Send + Sync + 'static,
>(
    rt: &R,
    made_of: (A, Option<usize>),
    builder: QueuingMetricSinkBuilder<A>,
    logs: WorkerLogs<A>,
    fed: FedLogs<A>,
) -> MetricResult<(SpyReceiver<R, A>, FedQueue<R, A, J>)>
    requires worker { names_of logs ≡ J.names }
    requires sink { (fed.fed.name ≡ J.names.fed) × (fed.from.name ≡ J.names.taken) }
{
    let (alloc, room) = made_of;
    let (receiver, packer) = BufferedSpyMetricSink::stage(rt.clone()?, alloc.clone()?, room, 12)?;
    let sink = FedSink::new(rt.clone()?, packer, fed);
    let queue = builder.build_fed(rt.clone()?, alloc, sink, logs)?;
    Ok((receiver, queue))
}

// Emits the lines, ends the queue and flushes the packer, and asserts what the row says.
fn assert_row<R: Runtime, J: Names + Send + Sync + 'static>(
    rt: &R,
    alloc: Global,
    row: &Row,
    logs: WorkerLogs<Global>,
    fed: FedLogs<Global>,
) -> Result<(), Fail>
    requires worker { names_of logs ≡ J.names }
    requires sink { (fed.fed.name ≡ J.names.fed) × (fed.from.name ≡ J.names.taken) }
{
    let errors = Arc::new(alloc, AtomicU64::new(0))?;
    let counted = errors.clone()?;
    let handler = Box::new(alloc, move |error| {
        if matches!(error, SinkError::ChannelFull) {
            counted.fetch_add(1, Ordering::SeqCst);
        }
    })?;
    let builder = QueuingMetricSinkBuilder::new().with_error_handler(handler);
    let (receiver, queue) = make_queue::<R, Global, J>(rt, (alloc, row.0), builder, logs, fed)?;
    for line in LINES {
        let _receipt = queue.emit_seen(line)?;
    }
    let mut receipt = queue.accepted();
    let (_look, flushed) = queue.stop_and_flush(&mut receipt);
    if flushed.is_ok() != row.1 || errors.load(Ordering::SeqCst) != row.2 {
        return Err(Fail::new("another result of the flush or another number of errors"));
    }
    assert_messages(&receiver, row.3)?;
    drop(queue);
    assert_messages(&receiver, row.4)
}

#[test]
fn a_stage_may_refuse_in_the_middle(rt: HostRuntime) -> Result<(), Fail> {
    for row in ROWS {
        let (logs, fed) = WorkerLogs::begin();
        assert_row::<HostRuntime, Brand>(&rt, rt.alloc(), row, logs, fed)?;
    }
    Ok(())
}

// Makes a queue and emits two lines, of which the second one is copied before the lock is taken. Returns whether there was
// memory for that.
fn emits<R: Runtime, J: Names + Send + Sync + 'static>(
    rt: &R,
    given: (Heap, &str),
    logs: WorkerLogs<Heap>,
    fed: FedLogs<Heap>,
) -> Result<bool, Fail>
    requires worker { names_of logs ≡ J.names }
    requires sink { (fed.fed.name ≡ J.names.fed) × (fed.from.name ≡ J.names.taken) }
{
    let (heap, long) = given;
    let (granted, requests) = (heap.left(), heap.clone()?);
    let builder = QueuingMetricSinkBuilder::new();
    let Ok((receiver, queue)) = make_queue::<R, Heap, J>(rt, (heap, None), builder, logs, fed)
    else {
        return Ok(false);
    };
    let emitted = (queue.emit_seen("a:1|c"), queue.emit_seen(long));
    let mut receipt = queue.accepted();
    let (_look, flushed) = queue.stop_and_flush(&mut receipt);
    if emitted.0.is_err() || emitted.1.is_err() || flushed.is_err() {
        return Ok(false);
    }
    // the countdown wraps below 0 if a request of the spy is refused
    let all = requests.left() <= granted;
    if all {
        assert_messages(&receiver, &["a:1|c\n", long])?;
    }
    Ok(all)
}

// The same with logs of its own.
fn emits_alone<R: Runtime>(rt: &R, heap: Heap, long: &str) -> Result<bool, Fail> {
    let (logs, fed) = WorkerLogs::begin();
    emits::<R, Brand>(rt, (heap, long), logs, fed)
}

#[test]
fn memory_may_be_refused(rt: HostRuntime) -> Result<(), Fail> {
    let long = "b".repeat(rt.alloc(), 600)?;
    let granted: Result<Option<u64>, Fail> = each_refused(
        rt.alloc(),
        |heap| emits_alone(&rt, heap, &long),
    );
    assert!(rt; granted?.is_some());
    Ok(())
}
