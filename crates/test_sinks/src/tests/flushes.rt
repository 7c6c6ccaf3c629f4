//! Sinks that are flushed by time: the queue with a period, and the flushing sink. Most tests move the clock
//! themselves; a worker with a period of five milliseconds looks at it after as many milliseconds of real time.
use super::noting::{NotingSink, Stage, Watch, make_noting_sink};
use super::steps::{
    WantedError, assert_accepts, assert_counts, assert_flushes, assert_last_message,
    assert_refuses_flush,
};
use cadence_errors::SinkError;
use cadence_flow::MetricSink;
use cadence_queuing::{FlushingMetricSink, QueuingMetricSink, QueuingMetricSinkBuilder};
use cadence_resolve::Runtime;
use cadence_sinks::BufferedSpyMetricSink;
use std::alloc::Global;
use std::sync::Arc;
use std::sync::atomic::Ordering;
use std::test::Fail;
use std::thread;
use std::time::Duration;
use test_tools::moved_clock::MovedClock;

type NotedQueue<R> = QueuingMetricSink<NotingSink<R>, MovedClock<R>>;

type NotedFlushes<R> = FlushingMetricSink<NotingSink<R>, MovedClock<R>>;

// Counts an error, if it is `PacketRefused`.
fn count_refusal(stage: &Stage, error: &SinkError) {
    if matches!(error, SinkError::PacketRefused) {
        stage.errors.fetch_add(1, Ordering::SeqCst);
    }
}

// Makes a queue over a noting sink, whose worker flushes it after this many milliseconds of the moved clock. The worker
// takes one line at a time.
fn make_queue<R: Runtime>(
    rt: &R,
    alloc: Global,
    period: u64,
) -> Result<(Watch<R>, NotedQueue<R>), Fail> {
    let (watch, noting) = make_noting_sink(rt, alloc)?;
    let stage = watch.stage.clone()?;
    let handler = Box::new(alloc, move |error: SinkError| count_refusal(&stage, &error))?;
    let builder = QueuingMetricSinkBuilder::new()
        .with_capacity(3)
        .with_error_handler(handler)
        .with_flush_period(Duration::from_millis(period));
    let sink = builder.build(watch.clock.clone()?, alloc, noting)?;
    Ok((watch, sink))
}

// Emits a line, and asserts that the worker hands it on. Before a test then moves the clock, it has to wait until the
// worker has read it, by `assert_reads`.
fn assert_passes<R: Runtime>(watch: &Watch<R>, sink: &NotedQueue<R>) -> Result<(), Fail> {
    assert_accepts(sink, &[("a:1|c", 5)])?;
    watch.assert_notes(&["a:1|c"])
}

#[test]
fn a_queue_is_flushed_after_the_period(rt: HostRuntime) -> Result<(), Fail> {
    let (watch, sink) = make_queue(&rt, rt.alloc(), 5)?;
    assert_passes(&watch, &sink)?;
    watch.assert_reads(6)?;
    watch.clock.move_to(4);
    watch.assert_reads(6)?;
    watch.clock.move_to(5);
    watch.assert_notes(&["flush"])?;
    watch.assert_rests()
}

#[test]
fn a_late_line_is_flushed_at_once(rt: HostRuntime) -> Result<(), Fail> {
    let (watch, sink) = make_queue(&rt, rt.alloc(), 5)?;
    assert_passes(&watch, &sink)?;
    watch.assert_reads(6)?;
    watch.clock.move_to(5);
    watch.assert_notes(&["flush"])?;
    watch.assert_rests()?;
    watch.clock.move_to(1000);
    assert_passes(&watch, &sink)?;
    watch.assert_notes(&["flush"])?;
    assert_passes(&watch, &sink)?;
    watch.assert_reads(6)
}

const SEVEN: &[&str] = &[
    "a:1|c", "b:1|c", "c:1|c", "d:1|c", "e:1|c", "f:1|c", "g:1|c",
];

// Emits each of seven lines, once the queue has room for it.
fn emit_each<S: MetricSink>(sink: &S) -> Result<(), Fail> {
    for line in SEVEN {
        for _ in 0..1_000_000u32 {
            match sink.emit(line) {
                Ok(_) => break,
                Err(SinkError::ChannelFull) => thread::yield_now(),
                Err(_) => return Err(Fail::new("another error than a full queue")),
            }
        }
    }
    Ok(())
}

#[test]
fn a_busy_worker_flushes_between_lines(rt: HostRuntime) -> Result<(), Fail> {
    let (watch, sink) = make_queue(&rt, rt.alloc(), 3)?;
    watch.stage.step.store(1, Ordering::SeqCst);
    emit_each(&sink)?;
    watch.assert_notes(&["a:1|c", "b:1|c", "c:1|c", "flush"])?;
    watch.assert_notes(&["d:1|c", "e:1|c", "f:1|c", "flush", "g:1|c"])?;
    watch.assert_reads(6)
}

// Asserts that a flush which fails twice is tried again after each `wait` milliseconds and no sooner, though no line
// comes. `errors` is how often it failed before.
fn assert_tries_again<R: Runtime>(watch: &Watch<R>, wait: u64, errors: u64) -> Result<(), Fail> {
    for failed in 1..3 {
        watch
            .clock
            .move_to(wait.wrapping_mul(failed).wrapping_sub(1));
        watch.assert_reads(6)?;
        watch.clock.move_to(wait.wrapping_mul(failed));
        watch.assert_notes(&["flush"])?;
        watch.assert_errors(errors.wrapping_add(failed))?;
        watch.assert_reads(6)?;
    }
    watch.set_refuses(false);
    watch.clock.move_to(wait.wrapping_mul(3));
    watch.assert_notes(&["flush"])?;
    watch.assert_rests()?;
    watch.assert_errors(errors.wrapping_add(2))
}

#[test]
fn a_failed_flush_is_tried_again(rt: HostRuntime) -> Result<(), Fail> {
    let (watch, sink) = make_queue(&rt, rt.alloc(), 5)?;
    watch.set_refuses(true);
    assert_passes(&watch, &sink)?;
    watch.assert_reads(6)?;
    assert_tries_again(&watch, 5, 0)
}

// Asserts that each line is flushed when the worker has no more.
fn assert_flushes_each<R: Runtime>(watch: &Watch<R>, sink: &NotedQueue<R>) -> Result<(), Fail> {
    for _ in 0..2 {
        assert_passes(watch, sink)?;
        watch.assert_notes(&["flush"])?;
        watch.assert_rests()?;
    }
    Ok(())
}

#[test]
fn a_period_of_0_flushes_each_line(rt: HostRuntime) -> Result<(), Fail> {
    let (watch, sink) = make_queue(&rt, rt.alloc(), 0)?;
    assert_flushes_each(&watch, &sink)?;
    watch.set_refuses(true);
    assert_passes(&watch, &sink)?;
    watch.assert_notes(&["flush"])?;
    watch.assert_reads(6)?;
    assert_tries_again(&watch, 1, 1)
}

#[test]
fn without_a_clock_each_line_is_flushed(rt: HostRuntime) -> Result<(), Fail> {
    let (watch, sink) = make_queue(&rt, rt.alloc(), 5)?;
    watch.clock.dial.is_broken.store(true, Ordering::SeqCst);
    assert_flushes_each(&watch, &sink)?;
    watch.set_refuses(true);
    assert_passes(&watch, &sink)?;
    watch.assert_notes(&["flush", "flush", "flush"])?;
    watch.set_refuses(false);
    watch.assert_last_flushes()?;
    watch.assert_rests()
}

// Makes a flushing sink over a noting one, with a period of five milliseconds of the moved clock.
fn make_flushes<R: Runtime>(rt: &R, alloc: Global) -> Result<(Watch<R>, NotedFlushes<R>), Fail> {
    let (watch, noting) = make_noting_sink(rt, alloc)?;
    let stage = watch.stage.clone()?;
    let handler = Box::new(alloc, move |error: SinkError| count_refusal(&stage, &error))?;
    let (clock, period) = (watch.clock.clone()?, Duration::from_millis(5));
    let sink = FlushingMetricSink::with_error_handler(clock, alloc, noting, period, handler)?;
    Ok((watch, sink))
}

#[test]
fn a_sink_is_flushed_after_each_period(rt: HostRuntime) -> Result<(), Fail> {
    let (watch, sink) = make_flushes(&rt, rt.alloc())?;
    assert_accepts(&sink, &[("a:1|c", 5)])?;
    watch.assert_notes(&["a:1|c"])?;
    for flushes in 1..4 {
        watch.assert_reads(6)?;
        watch.set_refuses(flushes == 2);
        watch.clock.move_to(5 * flushes);
        watch.assert_notes(&["flush"])?;
    }
    watch.assert_errors(1)
}

#[test]
fn a_flushing_sink_passes_calls_on(rt: HostRuntime) -> Result<(), Fail> {
    let (watch, sink) = make_flushes(&rt, rt.alloc())?;
    assert_flushes(&sink)?;
    assert_counts(&sink, [1, 2, 3, 4])?;
    assert_eq!(rt; sink.dropped_lines(), 5);
    watch.set_refuses(true);
    assert_refuses_flush(&sink, WantedError::PacketRefused)?;
    watch.assert_notes(&["flush", "flush"])
}

#[test]
fn the_drop_of_a_flushing_sink_flushes_and_ends_its_thread(rt: HostRuntime) -> Result<(), Fail> {
    let (receiver, spy) = BufferedSpyMetricSink::new(rt.clone()?, rt.alloc())?;
    let sink = FlushingMetricSink::new(rt.clone()?, rt.alloc(), spy, Duration::MAX)?;
    assert_accepts(&sink, &[("a:1|c", 5), ("b:1|c", 5)])?;
    thread::sleep(&rt, Duration::from_millis(20));
    assert!(rt; receiver.is_empty());
    drop(sink);
    assert!(rt; !receiver.is_empty());
    assert_last_message(&receiver, "a:1|c\nb:1|c\n")
}
