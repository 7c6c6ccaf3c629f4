//! Queues with a worker: lines in order, a stop, clones and drops of handles, a bound and its policy, and the handler
//! of errors. Tests wait for a message or for the end of the worker, so no result depends on the threads' turns.
use super::gate::{GatedQueue, make_gated_queue, make_gated_sink};
use super::steps::{
    WantedError, assert_accepts, assert_flushes, assert_last_message, assert_messages,
    assert_next_message, assert_refuses, make_spy,
};
use cadence_errors::SinkError;
use cadence_flow::MetricSink;
use cadence_queue::QueuePolicy;
use cadence_queuing::{QueuingMetricSink, QueuingMetricSinkBuilder};
use cadence_resolve::Runtime;
use cadence_sinks::{BufferedSpyMetricSink, SpyMetricSink, SpyReceiver};
use std::alloc::{Allocator, Global};
use std::sync::atomic::{AtomicU64, Ordering};
use std::sync::{Arc, OnceLock, Wait};
use std::test::Fail;
use std::thread::{self, Threads};
use test_tools::RefusingAllocator;

type SpiedSink<R> = QueuingMetricSink<SpyMetricSink<R>, R>;

// Makes a queue over a spy, and the spy's receiver.
fn make_spied_queue<R: Runtime>(
    rt: &R,
    alloc: Global,
) -> Result<(SpyReceiver<R>, SpiedSink<R>), Fail> {
    let mine = rt.clone()?;
    let (receiver, spy) = make_spy(rt, alloc)?;
    let sink = QueuingMetricSink::from(mine, alloc, spy)?;
    Ok((receiver, sink))
}

#[test]
fn three_texts_in_order(rt: HostRuntime) -> Result<(), Fail> {
    let (receiver, sink) = make_spied_queue(&rt, rt.alloc())?;
    assert_accepts(
        &sink,
        &[
            ("foo.counter:1|c", 15),
            ("bar.counter:2|c", 15),
            ("baz.counter:3|c", 15),
        ],
    )?;
    sink.stop_and_wait();
    assert!(rt; sink.panics() == 0);
    assert_messages(
        &receiver,
        &["foo.counter:1|c", "bar.counter:2|c", "baz.counter:3|c"],
    )
}

// Emits five lines, each after the one before it has arrived, so that a line may use the memory of an earlier one.
// Asserts that each arrives.
fn assert_lines_in_turn<R: Runtime>(
    sink: &SpiedSink<R>,
    receiver: &SpyReceiver<R>,
) -> Result<(), Fail> {
    for line in IN_TURN {
        assert_accepts(sink, &[(*line, 5)])?;
        assert_next_message(receiver, line)?;
    }
    Ok(())
}

const IN_TURN: &[&str] = &["a:1|c", "b:2|c", "c:3|c", "d:4|c", "e:5|c"];

#[test]
fn a_line_in_the_memory_of_another_is_its_own(rt: HostRuntime) -> Result<(), Fail> {
    let (receiver, sink) = make_spied_queue(&rt, rt.alloc())?;
    for _ in 0..4 {
        assert_lines_in_turn(&sink, &receiver)?;
    }
    Ok(())
}

#[test]
fn a_flush_does_not_wait_for_the_queue(rt: HostRuntime) -> Result<(), Fail> {
    let queue = make_gated_queue(&rt, rt.alloc())?;
    queue.bring_one_and_queue_one()?;
    assert_flushes(&queue.sink)?;
    assert!(rt; queue.watch.gate.flushed.load(Ordering::SeqCst));
    assert!(rt; queue.sink.queued() == 1 && queue.sink.stats().packets_dropped == 4);
    queue.assert_passes(&["first:1|c", "second:1|c"])
}

// A queue over a gated sink, whose requests for memory are counted.
type CountedQueue<R> = GatedQueue<R, RefusingAllocator<Global>>;

// The bound of a queue, and what the queue does if it is full.
type Bound = (Option<usize>, QueuePolicy);

// Makes a queue with this bound over a gated sink. Its memory comes from `heap`, and its handler counts the errors.
fn make_counted_queue<R: Runtime>(
    rt: &R,
    alloc: Global,
    (heap, errors): (&RefusingAllocator<Global>, Arc<AtomicU64>),
    (capacity, policy): Bound,
) -> Result<CountedQueue<R>, Fail> {
    let handler = Box::new(heap.clone()?, move |_error| {
        errors.fetch_add(1, Ordering::SeqCst);
    })?;
    let mut builder = QueuingMetricSinkBuilder::new()
        .with_policy(policy)
        .with_error_handler(handler);
    if let Some(capacity) = capacity {
        builder = builder.with_capacity(capacity);
    }
    let (watch, gated) = make_gated_sink(rt, alloc)?;
    let sink = builder.build(rt.clone()?, heap.clone()?, gated)?;
    Ok(GatedQueue { sink, watch })
}

// Emits 500 lines, and returns how many the queue accepts and how many it refuses as full.
fn emit_500<S: MetricSink>(sink: &S) -> [u64; 2] {
    let (mut taken, mut refused) = (0u64, 0u64);
    for _ in 0..500 {
        match sink.emit("a:1|c") {
            Ok(5) => taken = taken.wrapping_add(1),
            Err(SinkError::ChannelFull) => refused = refused.wrapping_add(1),
            _ => {}
        }
    }
    [taken, refused]
}

// Emits 500 lines from each of two threads, and returns how many the queue accepts and how many it refuses as full.
fn emit_from_two_threads<R: Threads + Sync, S: MetricSink + Sync>(rt: &R, sink: &S) -> [u64; 2] {
    let (one, other) = thread::join(rt, || emit_500(sink), || emit_500(sink));
    [one[0].wrapping_add(other[0]), one[1].wrapping_add(other[1])]
}

// Returns how many lines the queue has accepted, dropped and drained, and how many wait.
fn counts_of<S: MetricSink, R: Wait + Drop, A: Allocator>(
    sink: &QueuingMetricSink<S, R, A>,
) -> [u64; 4] {
    let counts = (sink.submitted(), sink.dropped(), sink.drained());
    [counts.0, counts.1, counts.2, sink.queued()]
}

// What a queue does with a thousand lines of two threads while another line is at the gate: how many it accepts and
// refuses; how many it has accepted, dropped and drained, and how many wait.
const OF_TWO_THREADS: &[(Bound, [u64; 2], [u64; 4])] = &[
    ((None, QueuePolicy::Refuse), [1000, 0], [1001, 0, 1, 1000]),
    (
        (Some(300), QueuePolicy::Refuse),
        [300, 700],
        [301, 0, 1, 300],
    ),
    (
        (Some(300), QueuePolicy::DropOldest),
        [1000, 0],
        [1001, 700, 1, 300],
    ),
];

// Emits lines from two threads while another one is at the gate. Returns whether the queue does with them what the row
// says, and whether one with a bound asks for memory once for each line that it accepts, and not for one that it
// refuses. A queue without a bound also asks for memory to grow.
fn is_right_at_the_gate<R: Runtime>(
    rt: &R,
    queue: &CountedQueue<R>,
    heap: &RefusingAllocator<Global>,
    (bound, taken, counts): (Bound, [u64; 2], [u64; 4]),
) -> bool {
    let left = heap.left();
    let found = emit_from_two_threads(rt, &queue.sink);
    let requests = left.wrapping_sub(heap.left());
    found == taken
        && counts_of(&queue.sink) == counts
        && (requests == taken[0] || bound.0.is_none())
}

// Opens the gate, and waits for the worker's end. Returns whether each accepted line was dropped or drained, no line
// waits, and a line that is refused then asks for no memory.
fn has_right_end<R: Runtime>(
    queue: &CountedQueue<R>,
    heap: &RefusingAllocator<Global>,
) -> Result<bool, Fail> {
    queue.open_and_end();
    let left = heap.left();
    assert_refuses(&queue.sink, "late:1|c", WantedError::ChannelDisconnected)?;
    let [submitted, dropped, drained, queued] = counts_of(&queue.sink);
    // the gated sink adds 7
    let adds_up = queue.sink.dropped_lines() == dropped.wrapping_add(7);
    let all = dropped.wrapping_add(drained) == submitted && queued == 0;
    Ok(all && adds_up && heap.left() == left)
}

#[test]
fn two_threads_fill_a_queue_to_its_bound(rt: HostRuntime) -> Result<(), Fail> {
    for row in OF_TWO_THREADS {
        let errors = Arc::new(rt.alloc(), AtomicU64::new(0))?;
        let heap = RefusingAllocator::after(rt.alloc(), rt.alloc(), 9_999)?;
        let queue = make_counted_queue(&rt, rt.alloc(), (&heap, errors.clone()?), row.0)?;
        queue.bring_one_to_the_gate()?;
        assert!(rt; is_right_at_the_gate(&rt, &queue, &heap, *row));
        assert!(rt; has_right_end(&queue, &heap)?);
        assert_eq!(rt; errors.load(Ordering::SeqCst), 0);
    }
    Ok(())
}

#[test]
fn dropped_clone_leaves_the_other_handle(rt: HostRuntime) -> Result<(), Fail> {
    let (receiver, sink) = make_spied_queue(&rt, rt.alloc())?;
    let other = sink.clone()?;
    drop(other);
    assert_accepts(&sink, &[("a:1|c", 5)])?;
    sink.stop_and_wait();
    assert_messages(&receiver, &["a:1|c"])
}

#[test]
fn last_drop_hands_on_and_flushes(rt: HostRuntime) -> Result<(), Fail> {
    let (receiver, spy) = BufferedSpyMetricSink::new(rt.clone()?, rt.alloc())?;
    let sink = QueuingMetricSink::from(rt.clone()?, rt.alloc(), spy)?;
    assert_accepts(&sink, &[("a:1|c", 5), ("b:1|c", 5)])?;
    drop(sink);
    assert_last_message(&receiver, "a:1|c\nb:1|c\n")
}

// Builds a queue over a spy without a receiver, which refuses each line as disconnected.
fn build_over_lonely_spy<R: Runtime>(
    rt: &R,
    alloc: Global,
    builder: QueuingMetricSinkBuilder,
) -> Result<SpiedSink<R>, Fail> {
    let mine = rt.clone()?;
    let (_receiver, spy) = make_spy(rt, alloc)?;
    Ok(builder.build(mine, alloc, spy)?)
}

// Emits a line through the handle in the slot, and sends to a spy whether it was queued.
fn emit_and_note<R: Runtime>(slot: &OnceLock<SpiedSink<R>>, notes: &SpyMetricSink<R>) {
    let queued = match slot.get() {
        Some(sink) => sink.emit("b:1|c").is_ok(),
        None => false,
    };
    let _ = notes.emit(if queued { "queued" } else { "refused" });
}

// Puts a handle of the queue into the slot and emits a line. Asserts that the handler queues a line, and waits for the
// end of the worker.
fn assert_handler_emits<R: Runtime>(
    sink: &SpiedSink<R>,
    slot: &OnceLock<SpiedSink<R>>,
    noted: &SpyReceiver<R>,
) -> Result<(), Fail> {
    if slot.try_set(sink.clone()?).is_err() {
        return Err(Fail::new("set before"));
    }
    assert_accepts(sink, &[("a:1|c", 5)])?;
    assert_next_message(noted, "queued")?;
    sink.stop_and_wait();
    Ok(())
}

// The handler gets the error of each of the two lines once.
#[test]
fn handler_may_emit(rt: HostRuntime) -> Result<(), Fail> {
    let (noted, notes) = make_spy(&rt, rt.alloc())?;
    let calls = Arc::new(rt.alloc(), AtomicU64::new(0))?;
    let slot: Arc<OnceLock<SpiedSink<HostRuntime>>> = Arc::new(rt.alloc(), OnceLock::new())?;
    let (counted, handle) = (calls.clone()?, slot.clone()?);
    let handler = Box::new(rt.alloc(), move |error| {
        let is_its = matches!(error, SinkError::ChannelDisconnected);
        if is_its && counted.fetch_add(1, Ordering::SeqCst) == 0 {
            emit_and_note(&handle, &notes);
        }
    })?;
    let builder = QueuingMetricSinkBuilder::new().with_error_handler(handler);
    let sink = build_over_lonely_spy(&rt, rt.alloc(), builder)?;
    assert_handler_emits(&sink, &slot, &noted)?;
    assert!(rt; calls.load(Ordering::SeqCst) == 2);
    Ok(())
}
