//! A wrapped sink whose `stats` waits while another thread reports and emits over the reporting sink above it.
use crate::tests::steps::assert_got;
use cadence::Runtime;
use cadence::sinks::{MetricSink, SpyMetricSink, SpyReceiver};
use cadence::stats::SinkStats;
use cadence::types::SinkError;
use cadence_agent::ReportingMetricSink;
use std::alloc::Global;
use std::sync::atomic::{AtomicBool, AtomicU64, Ordering};
use std::sync::{Arc, Wait};
use std::test::Fail;
use std::thread::{self, Threads};
use std::time::{Clock, Duration};

// How many milliseconds a thread waits for another one.
const PATIENCE: u32 = 10_000;

// What a test sees of a waiting sink: whether the first reading of its counts has begun, and whether it may end.
#[derive(Drop)]
struct Gate {
    has_begun: AtomicBool,
    may_end: AtomicBool,
}

// A sink whose bytes grow by 10 at each reading of its counts. The second reading waits at the gate.
#[derive(Drop)]
struct WaitingSink<R: Wait + Clock + Drop> {
    rt: R,
    gate: Arc<Gate>,
    readings: AtomicU64,
    notes: SpyMetricSink<R>,
}

// Waits until a flag is set, but not for ever. Returns whether it is set.
fn is_set<R: Clock>(rt: &R, flag: &AtomicBool) -> bool {
    for _ in 0..PATIENCE {
        if flag.load(Ordering::SeqCst) {
            return true;
        }
        thread::sleep(rt, Duration::from_millis(1));
    }
    false
}

impl<R: Wait + Clock + Drop> MetricSink for WaitingSink<R> {
    ghost may_answer = { λ _ _ _. Unit {0} };

    fn emit(&self, line: &str) -> Result<usize, SinkError> {
        self.notes.emit(line)
    }

    fn stats(&self) -> SinkStats {
        let reading = self.readings.fetch_add(1, Ordering::SeqCst);
        if reading == 1 {
            self.gate.has_begun.store(true, Ordering::SeqCst);
            let _ = is_set(&self.rt, &self.gate.may_end);
        }
        SinkStats {
            bytes_sent: reading.wrapping_mul(10),
            packets_sent: 0,
            bytes_dropped: 0,
            packets_dropped: 0,
        }
    }

    ghost flush_may_succeed = { λ _ _. tt };
}

// A reporting sink over a waiting sink, and what a test has of that.
#[derive(Drop)]
struct Made<R: Runtime> {
    sink: ReportingMetricSink<WaitingSink<R>, R>,
    gate: Arc<Gate>,
    notes: SpyReceiver<R>,
}

fn make<R: Runtime>(rt: &R, alloc: Global) -> Result<Made<R>, Fail> {
    let (notes, spy) = SpyMetricSink::new(rt.clone()?, alloc)?;
    let gate = Gate {
        has_begun: AtomicBool::new(false),
        may_end: AtomicBool::new(false),
    };
    let gate = Arc::new(alloc, gate)?;
    let inner = WaitingSink {
        rt: rt.clone()?,
        gate: gate.clone()?,
        readings: AtomicU64::new(0),
        notes: spy,
    };
    let hour = Duration::from_secs(3600);
    let sink = ReportingMetricSink::new(rt.clone()?, alloc, inner, "me", hour)?;
    Ok(Made { sink, gate, notes })
}

// Reports in one thread, and in another one reports and emits while the first reads the counts. Returns whether all of
// that succeeds, and whether the other thread's calls end before the reading does.
fn report_in_a_report<R: Runtime + Threads>(rt: &R, made: &Made<R>) -> bool {
    let Made { sink, gate, .. } = made;
    let (first, second) = thread::join(
        rt,
        || sink.report().is_ok(),
        || {
            let has_begun = is_set(rt, &gate.has_begun);
            let succeeds = sink.report().is_ok() && sink.emit("a:1|c").is_ok();
            let was_first = !gate.may_end.swap(true, Ordering::SeqCst);
            has_begun && succeeds && was_first
        },
    );
    first && second
}

// The report inside reports what two readings add. The outer one had read before, so it has to read again.
#[test]
fn counts_are_read_without_a_lock(rt: HostRuntime) -> Result<(), Fail> {
    let made = make(&rt, rt.alloc())?;
    assert!(rt; report_in_a_report(&rt, &made));
    assert_got(&made.notes, "me.bytes_sent:20|c\na:1|c\nme.bytes_sent:10|c")
}
