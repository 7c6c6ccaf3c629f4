//! A sink whose counts a test sets, and which notes its lines in a spy.
use cadence::Runtime;
use cadence::sinks::{MetricSink, SpyMetricSink, SpyReceiver};
use cadence::stats::SinkStats;
use cadence::types::{MetricResult, SinkError};
use cadence_agent::ReportingMetricSink;
use std::alloc::{Allocator, Global};
use std::sync::atomic::{AtomicBool, AtomicU64, Ordering};
use std::sync::{Arc, Wait};
use std::test::Fail;
use std::thread::Threads;
use std::time::{Clock, Duration};

/// What a test sets of a counted sink.
#[derive(Drop)]
pub struct Stage {
    /// The bytes and packets that the sink says it sent and dropped, and the lines that its queue dropped.
    pub counts: [AtomicU64; 5],
    /// Whether the sink refuses lines.
    pub refuses: AtomicBool,
    /// How often the sink was flushed.
    flushes: AtomicU64,
}

impl Stage {
    /// Sets the five counts.
    pub fn set(&self, counts: [u64; 5]) {
        for (count, number) in self.counts.iter().zip(counts) {
            count.store(number, Ordering::SeqCst);
        }
    }

    /// Returns how often the sink was flushed.
    pub fn flushes(&self) -> u64 {
        self.flushes.load(Ordering::SeqCst)
    }

    fn count(&self, index: usize) -> u64 {
        match self.counts.get(index) {
            Some(count) => count.load(Ordering::SeqCst),
            None => 0,
        }
    }
}

/// A sink whose counts are those of its stage. It notes each line that it takes in a spy. Its flush fails.
#[derive(Drop)]
pub struct CountedSink<R: Wait + Drop> {
    stage: Arc<Stage>,
    notes: SpyMetricSink<R>,
}

impl<R: Wait + Drop> MetricSink for CountedSink<R> {
    ghost may_answer = { λ _ _ _. Unit {0} };

    ghost may_flush = { λ _ _. Unit {0} };

    fn emit(&self, line: &str) -> Result<usize, SinkError> {
        if self.stage.refuses.load(Ordering::SeqCst) {
            return Err(SinkError::PacketRefused);
        }
        self.notes.emit(line)
    }

    fn flush(&self) -> Result<(), SinkError> {
        self.stage.flushes.fetch_add(1, Ordering::SeqCst);
        Err(SinkError::NothingWritten)
    }

    fn stats(&self) -> SinkStats {
        SinkStats {
            bytes_sent: self.stage.count(0),
            packets_sent: self.stage.count(1),
            bytes_dropped: self.stage.count(2),
            packets_dropped: self.stage.count(3),
        }
    }

    fn dropped_lines(&self) -> u64 {
        self.stage.count(4)
    }

    ghost flush_may_succeed = { λ _ _. tt };
}

/// What a test has of a counted sink: its stage, and the lines that it took.
#[derive(Drop)]
pub struct Watch<R: Wait + Drop> {
    pub stage: Arc<Stage>,
    pub notes: SpyReceiver<R>,
}

fn new_stage() -> Stage {
    Stage {
        counts: [
            AtomicU64::new(0),
            AtomicU64::new(0),
            AtomicU64::new(0),
            AtomicU64::new(0),
            AtomicU64::new(0),
        ],
        refuses: AtomicBool::new(false),
        flushes: AtomicU64::new(0),
    }
}

/// Makes a counted sink, whose counts are 0, and what a test has of it.
pub fn make_counted<R: Wait + Clone + Drop>(
    rt: &R,
    alloc: Global,
) -> Result<(Watch<R>, CountedSink<R>), Fail> {
    let (receiver, spy) = SpyMetricSink::new(rt.clone()?, alloc)?;
    let stage = Arc::new(alloc, new_stage())?;
    let sink = CountedSink {
        stage: stage.clone()?,
        notes: spy,
    };
    let watch = Watch {
        stage,
        notes: receiver,
    };
    Ok((watch, sink))
}

impl<R: Wait + Drop> Watch<R> {
    /// Sets whether the sink refuses lines.
    pub fn set_refuses(&self, refuses: bool) {
        self.stage.refuses.store(refuses, Ordering::SeqCst);
    }
}

/// A reporting sink over a counted one.
pub type Reporting<R, A = Global> = ReportingMetricSink<CountedSink<R>, R, A>;

/// Makes a reporting sink with the prefix `me` over a counted one. Its period is an hour, so the test asks for each
/// report. Its memory is that of `heap`.
pub fn report_on<R: Runtime, A: Allocator + Clone + Send + Sync + 'static>(
    rt: &R,
    heap: A,
    counted: CountedSink<R>,
) -> MetricResult<Reporting<R, A>> {
    let hour = Duration::from_secs(3600);
    ReportingMetricSink::new(rt.clone()?, heap, counted, "me", hour)
}

/// A reporting sink over a counted one, and what a test has of that.
#[derive(Drop)]
pub struct Reported<R: Runtime> {
    pub sink: Reporting<R>,
    pub watch: Watch<R>,
}

/// Makes a reporting sink over a counted one, which has these counts before.
pub fn make_reported<R: Runtime>(
    rt: &R,
    alloc: Global,
    counts: [u64; 5],
) -> Result<Reported<R>, Fail> {
    let (watch, counted) = make_counted(rt, alloc)?;
    watch.stage.set(counts);
    let sink = report_on(rt, alloc, counted)?;
    Ok(Reported { sink, watch })
}
