//! A sink that notes and counts its lines and its flushes, and whose lines may move a clock.
use super::steps::{COUNTS, make_spy};
use cadence_errors::SinkError;
use cadence_flow::MetricSink;
use cadence_flow::stats::SinkStats;
use cadence_resolve::RuntimeParts;
use cadence_sinks::{SpyMetricSink, SpyReceiver};
use std::alloc::Global;
use std::sync::atomic::{AtomicBool, AtomicU64, Ordering};
use std::sync::{Arc, Wait};
use std::test::Fail;
use std::thread;
use std::time::Duration;
use test_tools::moved_clock::{MovedClock, PATIENCE};

/// What a test sets and sees of a noting sink.
#[derive(Drop)]
pub struct Stage {
    /// How often the clock had been read when the sink was last flushed.
    pub readings_at_flush: AtomicU64,
    /// By how many milliseconds each line moves the clock.
    pub step: AtomicU64,
    /// Whether the sink refuses flushes.
    pub refuses: AtomicBool,
    /// How many errors the handler got.
    pub errors: AtomicU64,
    /// How many lines the sink got.
    pub lines: AtomicU64,
    /// How often the sink was flushed.
    pub flushes: AtomicU64,
}

/// A sink that notes each line, and each flush as `flush`, in a spy. It has the counts `COUNTS`, and says that 5 lines
/// were dropped.
#[derive(Drop)]
pub struct NotingSink<R: Wait + Drop> {
    clock: MovedClock<R>,
    stage: Arc<Stage>,
    notes: SpyMetricSink<R>,
}

impl<R: Wait + Drop> MetricSink for NotingSink<R> {
    ghost may_answer = { λ _ _ _. Unit {0} };

    ghost may_flush = { λ _ _. Unit {0} };

    fn emit(&self, line: &str) -> Result<usize, SinkError> {
        let step = self.stage.step.load(Ordering::SeqCst);
        self.clock.dial.now.fetch_add(step, Ordering::SeqCst);
        self.stage.lines.fetch_add(1, Ordering::SeqCst);
        let _ = self.notes.emit(line);
        Ok(line.len())
    }

    fn flush(&self) -> Result<(), SinkError> {
        let refuses = self.stage.refuses.load(Ordering::SeqCst);
        let readings = self.clock.dial.readings.load(Ordering::SeqCst);
        self.stage
            .readings_at_flush
            .store(readings, Ordering::SeqCst);
        self.stage.flushes.fetch_add(1, Ordering::SeqCst);
        let _ = self.notes.emit("flush");
        if refuses {
            return Err(SinkError::PacketRefused);
        }
        Ok(())
    }

    fn stats(&self) -> SinkStats {
        COUNTS
    }

    fn dropped_lines(&self) -> u64 {
        5
    }

    ghost flush_may_succeed = { λ _ _. tt };
}

/// A moved clock, and what a test sees of a noting sink.
#[derive(Drop)]
pub struct Watch<R: RuntimeParts> {
    pub clock: MovedClock<R>,
    pub stage: Arc<Stage>,
    pub notes: SpyReceiver<R>,
}

fn new_stage() -> Stage {
    Stage {
        readings_at_flush: AtomicU64::new(0),
        step: AtomicU64::new(0),
        refuses: AtomicBool::new(false),
        errors: AtomicU64::new(0),
        lines: AtomicU64::new(0),
        flushes: AtomicU64::new(0),
    }
}

/// Makes a noting sink, and what a test sees of it.
pub fn make_noting_sink<R: RuntimeParts>(
    rt: &R,
    alloc: Global,
) -> Result<(Watch<R>, NotingSink<R>), Fail> {
    let (notes, spy) = make_spy(rt, alloc)?;
    let stage = Arc::new(alloc, new_stage())?;
    let clock = MovedClock::new(rt.clone()?, alloc, String::new(alloc))?;
    let sink = NotingSink {
        clock: clock.clone()?,
        stage: stage.clone()?,
        notes: spy,
    };
    let watch = Watch {
        clock,
        stage,
        notes,
    };
    Ok((watch, sink))
}

/// Makes a sink that refuses each flush, and what a test sets and sees of it. Nobody receives its notes.
pub fn make_refusing_sink<R: RuntimeParts>(
    rt: &R,
    alloc: Global,
) -> Result<(Arc<Stage>, NotingSink<R>), Fail> {
    let (watch, sink) = make_noting_sink(rt, alloc)?;
    watch.stage.refuses.store(true, Ordering::SeqCst);
    Ok((watch.stage.clone()?, sink))
}

impl<R: RuntimeParts> Watch<R> {
    /// Sets whether the sink refuses flushes.
    pub fn set_refuses(&self, refuses: bool) {
        self.stage.refuses.store(refuses, Ordering::SeqCst);
    }

    fn sleep(&self, milliseconds: u64) {
        thread::sleep(&self.clock.rt, Duration::from_millis(milliseconds));
    }

    // Waits for a note, but not for ever.
    fn next_note(&self) -> Option<Vec<u8>> {
        for _ in 0..PATIENCE {
            if let Some(note) = self.notes.try_recv() {
                return Some(note);
            }
            self.sleep(1);
        }
        None
    }

    /// Waits for these notes, and asserts that they come in this order.
    pub fn assert_notes(&self, wanted: &[&str]) -> Result<(), Fail> {
        for text in wanted {
            let Some(note) = self.next_note() else {
                return Err(Fail::new(format_args!("no note {text}")));
            };
            if note.as_slice() != text.as_bytes() {
                return Err(Fail::new(format_args!("another note than {text}")));
            }
        }
        Ok(())
    }

    /// Waits until the handler has got this many errors, and asserts that it gets no more.
    pub fn assert_errors(&self, wanted: u64) -> Result<(), Fail> {
        let comes = self.clock.reaches(&self.stage.errors, wanted);
        if !comes || self.stage.errors.load(Ordering::SeqCst) != wanted {
            return Err(Fail::new("another number of errors"));
        }
        Ok(())
    }

    /// Waits until the clock was read this often more, and asserts that nothing was noted.
    pub fn assert_reads(&self, more: u64) -> Result<(), Fail> {
        self.clock.assert_reads(more)?;
        if !self.notes.is_empty() {
            return Err(Fail::new("something was noted"));
        }
        Ok(())
    }

    /// Waits for 60 milliseconds, and asserts that nothing but flushes was noted until then.
    pub fn assert_last_flushes(&self) -> Result<(), Fail> {
        self.sleep(60);
        for _ in 0..PATIENCE {
            match self.notes.try_recv() {
                Some(note) if note.as_slice() == "flush".as_bytes() => {}
                Some(_) => return Err(Fail::new("another note than a flush")),
                None => return Ok(()),
            }
        }
        Err(Fail::new("too many flushes"))
    }

    /// Waits until the worker has read the clock after its last flush. Asserts that it doesn't read it again, and that
    /// nothing is noted, for 60 milliseconds.
    pub fn assert_rests(&self) -> Result<(), Fail> {
        let wanted = self
            .stage
            .readings_at_flush
            .load(Ordering::SeqCst)
            .wrapping_add(1);
        if !self.clock.reaches(&self.clock.dial.readings, wanted) {
            return Err(Fail::new("it doesn't read the clock after a flush"));
        }
        self.sleep(60);
        if self.clock.dial.readings.load(Ordering::SeqCst) != wanted || !self.notes.is_empty() {
            return Err(Fail::new("it doesn't rest"));
        }
        Ok(())
    }
}
