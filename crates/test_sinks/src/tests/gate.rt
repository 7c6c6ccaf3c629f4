//! A sink with a gate. The worker of a queue waits there until the test opens it, so that a test knows which lines are
//! in the queue.
use super::steps::{COUNTS, assert_accepts, assert_messages, make_spy};
use cadence_errors::SinkError;
use cadence_flow::MetricSink;
use cadence_flow::stats::SinkStats;
use cadence_queuing::QueuingMetricSink;
use cadence_resolve::Runtime;
use cadence_sinks::{SpyMetricSink, SpyReceiver};
use std::alloc::{Allocator, Global};
use std::sync::atomic::{AtomicBool, Ordering};
use std::sync::{Arc, Wait};
use std::test::Fail;
use std::thread;

// The worker gives up waiting after this many turns, so that a test that fails ends.
const MOST_TURNS: u32 = 1_000_000;

// Waits until the flag is set, and returns whether it was within `MOST_TURNS` turns.
fn is_set_in_time(flag: &AtomicBool) -> bool {
    for _ in 0..MOST_TURNS {
        if flag.load(Ordering::SeqCst) {
            return true;
        }
        thread::yield_now();
    }
    false
}

/// The gate of a gated sink, and whether the sink was flushed.
#[derive(Drop)]
pub struct Gate {
    pub open: AtomicBool,
    pub flushed: AtomicBool,
}

/// A sink that sends each line to one spy when it comes, and to another spy once the gate is open. It has the counts
/// `COUNTS`, and says that 7 lines were dropped.
#[derive(Drop)]
pub struct GatedSink<R: Wait + Drop> {
    gate: Arc<Gate>,
    comes: SpyMetricSink<R>,
    passes: SpyMetricSink<R>,
}

impl<R: Wait + Drop> MetricSink for GatedSink<R> {
    ghost may_answer = { λ _ _ _. Unit {0} };

    ghost may_flush = { λ _ _. Unit {0} };

    fn emit(&self, line: &str) -> Result<usize, SinkError> {
        self.comes.emit(line)?;
        if !is_set_in_time(&self.gate.open) {
            return Err(SinkError::PacketRefused);
        }
        self.passes.emit(line)
    }

    fn flush(&self) -> Result<(), SinkError> {
        self.gate.flushed.store(true, Ordering::SeqCst);
        Ok(())
    }

    fn stats(&self) -> SinkStats {
        COUNTS
    }

    fn dropped_lines(&self) -> u64 {
        7
    }

    ghost flush_may_succeed = { λ _ _. tt };
}

/// What a test sees of a gated sink: its gate, the lines that come to the gate, and the lines that pass it.
#[derive(Drop)]
pub struct GateWatch<R: Wait + Drop> {
    pub gate: Arc<Gate>,
    pub coming: SpyReceiver<R>,
    pub passed: SpyReceiver<R>,
}

/// Makes a sink whose gate is closed.
pub fn make_gated_sink<R: Wait + Clone + Drop>(
    rt: &R,
    alloc: Global,
) -> Result<(GateWatch<R>, GatedSink<R>), Fail> {
    let (open, flushed) = (AtomicBool::new(false), AtomicBool::new(false));
    let gate = Arc::new(alloc, Gate { open, flushed })?;
    let theirs = gate.clone()?;
    let (coming, comes) = make_spy(rt, alloc)?;
    let (passed, passes) = make_spy(rt, alloc)?;
    let sink = GatedSink {
        gate: theirs,
        comes,
        passes,
    };
    let watch = GateWatch {
        gate,
        coming,
        passed,
    };
    Ok((watch, sink))
}

/// A queue over a gated sink, and what a test sees of the sink.
#[derive(Drop)]
pub struct GatedQueue<R: Runtime, A: Allocator = Global> {
    pub sink: QueuingMetricSink<GatedSink<R>, R, A>,
    pub watch: GateWatch<R>,
}

impl<R: Runtime, A: Allocator + Clone> GatedQueue<R, A> {
    /// Emits the first line, and returns once the worker waits with it at the gate.
    pub fn bring_one_to_the_gate(&self) -> Result<(), Fail> {
        assert_accepts(&self.sink, &[("first:1|c", 9)])?;
        self.watch.coming.recv().ok_or("gone")?;
        Ok(())
    }

    /// Emits two lines. The worker waits at the gate with the first one, and the second one waits in the queue.
    pub fn bring_one_and_queue_one(&self) -> Result<(), Fail> {
        self.bring_one_to_the_gate()?;
        assert_accepts(&self.sink, &[("second:1|c", 10)])
    }

    /// Opens the gate, and waits for the end of the worker.
    pub fn open_and_end(&self) {
        self.watch.gate.open.store(true, Ordering::SeqCst);
        self.sink.stop_and_wait();
    }

    /// Opens the gate and waits for the end of the worker. Asserts that exactly these lines passed.
    pub fn assert_passes(&self, wanted: &[&str]) -> Result<(), Fail> {
        self.open_and_end();
        assert_messages(&self.watch.passed, wanted)
    }
}

/// Makes a queue over a sink whose gate is closed.
pub fn make_gated_queue<R: Runtime>(rt: &R, alloc: Global) -> Result<GatedQueue<R>, Fail> {
    let mine = rt.clone()?;
    let (watch, gated) = make_gated_sink(rt, alloc)?;
    let sink = QueuingMetricSink::from(mine, alloc, gated)?;
    Ok(GatedQueue { sink, watch })
}
