//! How a queue ends, and that it ends whatever the wrapped sink does: what has left once the last handle is dropped,
//! and periods that are hardly a wait, while each flush fails.
use super::noting::{make_noting_sink, make_refusing_sink};
use super::steps::{assert_accepts, assert_messages, assert_reaches};
use cadence_errors::SinkError;
use cadence_queuing::{FlushingMetricSink, QueuingMetricSinkBuilder};
use cadence_resolve::{Runtime, RuntimeParts};
use cadence_sinks::BufferedSpyMetricSink;
use std::alloc::Global;
use std::sync::Arc;
use std::sync::atomic::{AtomicBool, Ordering};
use std::test::Fail;
use std::thread;
use std::time::{Duration, Instant};

// Sets its flag when it is dropped.
struct DropFlag {
    flag: Arc<AtomicBool>,
}

impl DropFlag {
    fn is_set(&self) -> bool {
        self.flag.load(Ordering::SeqCst)
    }
}

impl Drop for DropFlag {
    fn drop(self) {
        self.flag.store(true, Ordering::SeqCst);
        let DropFlag { flag: _ } = self;
    }
}

// Stops a queue over a buffered spy and drops it. Asserts that its handler is gone after the stop, and that the held
// text is sent when the drop returns. It doesn't wait for either.
fn assert_is_gone<R: Runtime>(rt: &R, alloc: Global) -> Result<(), Fail> {
    let (receiver, spy) = BufferedSpyMetricSink::new(rt.clone()?, alloc)?;
    let flag = Arc::new(alloc, AtomicBool::new(false))?;
    let mine = DropFlag {
        flag: flag.clone()?,
    };
    let handler = Box::new(alloc, move |_error: SinkError| {
        let _ = mine.is_set();
    })?;
    let builder = QueuingMetricSinkBuilder::new().with_error_handler(handler);
    let sink = builder.build(rt.clone()?, alloc, spy)?;
    assert_accepts(&sink, &[("a:1|c", 5), ("b:1|c", 5)])?;
    sink.stop_and_wait();
    if !flag.load(Ordering::SeqCst) {
        return Err(Fail::new("the handler is still there"));
    }
    drop(sink);
    assert_messages(&receiver, &["a:1|c\nb:1|c\n"])
}

#[test]
fn a_stop_and_the_last_drop_leave_nothing(rt: HostRuntime) -> Result<(), Fail> {
    for _ in 0..500 {
        assert_is_gone(&rt, rt.alloc())?;
    }
    Ok(())
}

// Asserts that a queue with this period, whose flushes all fail, tries a flush again though no line comes, at most once
// a millisecond; that it still hands lines on; and that a stop ends its worker.
fn assert_outlives_failures<R: Runtime>(
    rt: &R,
    alloc: Global,
    period: Duration,
) -> Result<(), Fail> {
    let begun = Instant::now(rt)?;
    let (stage, sink) = make_refusing_sink(rt, alloc)?;
    let builder = QueuingMetricSinkBuilder::new().with_flush_period(period);
    let sink = builder.build(rt.clone()?, alloc, sink)?;
    assert_accepts(&sink, &[("a:1|c", 5)])?;
    assert_reaches(rt, &stage.flushes, 5)?;
    for _ in 0..10 {
        assert_accepts(&sink, &[("b:1|c", 5)])?;
    }
    assert_reaches(rt, &stage.lines, 11)?;
    let flushes = stage.flushes.load(Ordering::SeqCst) as u128;
    // a flush for each of the 11 lines, one for each millisecond, and one that begins
    if flushes > begun.elapsed(rt)?.as_millis().saturating_add(12) {
        return Err(Fail::new(format_args!("{flushes} flushes")));
    }
    sink.stop_and_wait();
    Ok(())
}

#[test]
fn a_queue_outlives_failing_flushes(rt: HostRuntime) -> Result<(), Fail> {
    for nanoseconds in [0, 1, 100, 3_000, 999_999, 1_000_000, 2_000_000] {
        assert_outlives_failures(&rt, rt.alloc(), Duration::from_nanos(nanoseconds))?;
    }
    Ok(())
}

#[test]
fn a_queue_may_wait_for_ever(rt: HostRuntime) -> Result<(), Fail> {
    let (stage, sink) = make_refusing_sink(&rt, rt.alloc())?;
    let builder = QueuingMetricSinkBuilder::new().with_flush_period(Duration::MAX);
    let sink = builder.build(rt.clone()?, rt.alloc(), sink)?;
    for lines in 1..4 {
        assert_accepts(&sink, &[("a:1|c", 5)])?;
        assert_reaches(&rt, &stage.lines, lines)?;
    }
    thread::sleep(&rt, Duration::from_millis(20));
    assert_eq!(rt; stage.flushes.load(Ordering::SeqCst), 0);
    sink.stop_and_wait();
    assert_eq!(rt; stage.flushes.load(Ordering::SeqCst), 1);
    Ok(())
}

// Asserts that the thread of a flushing sink over this clock, with a period of so many nanoseconds, flushes again and
// again, but at most once in so many milliseconds of real time.
fn assert_flushes_within<R: RuntimeParts, C: Runtime>(
    rt: &R,
    clock: C,
    alloc: Global,
    (nanoseconds, milliseconds): (u64, u128),
) -> Result<(), Fail> {
    let begun = Instant::now(rt)?;
    let (stage, sink) = make_refusing_sink(rt, alloc)?;
    let period = Duration::from_nanos(nanoseconds);
    let sink = FlushingMetricSink::new(clock, alloc, sink, period)?;
    assert_reaches(rt, &stage.flushes, 5)?;
    drop(sink);
    let flushes = stage.flushes.load(Ordering::SeqCst) as u128;
    // one for each wait, and that of the drop
    let least = flushes.saturating_sub(1).wrapping_mul(milliseconds);
    if least > begun.elapsed(rt)?.as_millis() {
        return Err(Fail::new(format_args!("{flushes} flushes")));
    }
    Ok(())
}

#[test]
fn a_flushing_sink_has_a_shortest_period(rt: HostRuntime) -> Result<(), Fail> {
    for nanoseconds in [0, 1, 3_000, 999_999, 1_000_000] {
        assert_flushes_within(&rt, rt.clone()?, rt.alloc(), (nanoseconds, 1))?;
    }
    Ok(())
}

#[test]
fn a_flushing_sink_sleeps_without_a_clock(rt: HostRuntime) -> Result<(), Fail> {
    let (watch, _noting) = make_noting_sink(&rt, rt.alloc())?;
    watch.clock.dial.is_broken.store(true, Ordering::SeqCst);
    for (nanoseconds, milliseconds) in [(0, 1), (5_000_000, 5)] {
        let clock = watch.clock.clone()?;
        assert_flushes_within(&rt, clock, rt.alloc(), (nanoseconds, milliseconds))?;
    }
    Ok(())
}
