//! Lines of more than 512 bytes, which are copied before the lock of the queue is taken: what a queue answers that has
//! room, is full or is stopped, if there is memory for the copy and if there is none.
use super::gate::{GatedQueue, make_gated_sink};
use super::steps::{WantedError, assert_accepts, assert_messages, assert_refuses};
use cadence_errors::SinkError;
use cadence_flow::MetricSink;
use cadence_queue::QueuePolicy;
use cadence_queuing::QueuingMetricSinkBuilder;
use cadence_resolve::Runtime;
use std::alloc::Global;
use std::test::Fail;
use test_tools::{RefusingAllocator, each_refused};

type Heap = RefusingAllocator<Global>;

type Queue<R> = GatedQueue<R, Heap>;

// Three long lines, and one that isn't long.
#[derive(Drop)]
struct Lines {
    first: String,
    second: String,
    third: String,
    short: String,
}

impl Lines {
    fn new(alloc: Global) -> Result<Self, Fail> {
        Ok(Lines {
            first: "a".repeat(alloc, 600)?,
            second: "b".repeat(alloc, 513)?,
            third: "c".repeat(alloc, 1200)?,
            short: "d".repeat(alloc, 512)?,
        })
    }
}

// Makes a queue with room for one line over a gated sink. Returns `None` if there is no memory for it.
fn make_queue<R: Runtime>(
    rt: &R,
    alloc: Global,
    heap: &Heap,
    policy: QueuePolicy,
) -> Result<Option<Queue<R>>, Fail> {
    let (watch, gated) = make_gated_sink(rt, alloc)?;
    let builder = QueuingMetricSinkBuilder::new()
        .with_policy(policy)
        .with_capacity(1);
    Ok(match builder.build(rt.clone()?, heap.clone()?, gated) {
        Ok(sink) => Some(GatedQueue { sink, watch }),
        Err(_) => None,
    })
}

// Emits a line, and again if there was no memory for it. Fails if it is refused for another reason, or twice.
fn emit_in_two_tries<S: MetricSink>(sink: &S, line: &str) -> Result<(), Fail> {
    match sink.emit(line) {
        Ok(length) if length == line.len() => Ok(()),
        Err(SinkError::OutOfMemory) => assert_accepts(sink, &[(line, line.len())]),
        answer => Err(Fail::new(format_args!("emit: {answer:?}"))),
    }
}

// Brings a line to the gate, fills the queue with the first long line, and emits the second one. Whether or not there is
// memory for its copy, a full queue that refuses lines answers that it is full.
fn fill<R: Runtime>(queue: &Queue<R>, lines: &Lines, policy: QueuePolicy) -> Result<(), Fail> {
    emit_in_two_tries(&queue.sink, "gate:1|c")?;
    queue.watch.coming.recv().ok_or("gone")?;
    emit_in_two_tries(&queue.sink, &lines.first)?;
    match policy {
        QueuePolicy::Refuse => assert_refuses(&queue.sink, &lines.second, WantedError::ChannelFull),
        QueuePolicy::DropOldest => emit_in_two_tries(&queue.sink, &lines.second),
    }
}

// How many requests the lines make in `has_all_memory` if each is granted: the line at the gate and the three long ones
// make one each, also those that are refused.
const REQUESTS: u64 = 4;

// Emits the lines into a queue that has room, one that is full and one that is stopped, and asserts the answers. Returns
// whether no request for memory was refused.
fn has_all_memory<R: Runtime>(
    rt: &R,
    alloc: Global,
    heap: Heap,
    policy: QueuePolicy,
) -> Result<bool, Fail> {
    let lines = Lines::new(alloc)?;
    let Some(queue) = make_queue(rt, alloc, &heap, policy)? else {
        return Ok(false);
    };
    let left = heap.left();
    let filled = fill(&queue, &lines, policy);
    queue.open_and_end();
    filled?;
    let drops = matches!(policy, QueuePolicy::DropOldest);
    assert_refuses(&queue.sink, &lines.third, WantedError::ChannelDisconnected)?;
    let requests = left.wrapping_sub(heap.left());
    assert_refuses(&queue.sink, &lines.short, WantedError::ChannelDisconnected)?;
    if heap.left() != left.wrapping_sub(requests) {
        return Err(Fail::new("a line of 512 bytes that is refused requests memory"));
    }
    if drops {
        assert_messages(&queue.watch.passed, &["gate:1|c", &lines.second])?;
    } else {
        assert_messages(&queue.watch.passed, &["gate:1|c", &lines.first])?;
    }
    if queue.sink.dropped() != u64::from(drops) {
        return Err(Fail::new("another number of dropped lines"));
    }
    Ok(requests == REQUESTS && requests <= left)
}

#[test]
fn a_long_line_is_answered_as_the_queue_is(rt: HostRuntime) -> Result<(), Fail> {
    let alloc = rt.alloc();
    for policy in [QueuePolicy::Refuse, QueuePolicy::DropOldest] {
        let granted = each_refused(alloc, |heap| has_all_memory(&rt, alloc, heap, policy))?;
        assert!(rt; granted.is_some());
    }
    Ok(())
}
