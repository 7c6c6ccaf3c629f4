//! What a reporting sink shares with its thread, and one report.
ghost use Rattle.std.specs.Prelude.{◌≡◌, IfErr, IfOk, string_bytes};
ghost use Rattle.cadence_queuing.specs.Queuing.{IsQueuingRefusal};
ghost use Rattle.cadence_settings.specs.Settings.{settings_of};
ghost use Rattle.cadence_agent.specs.Reports.{line_of_growth};

use super::counts::{Growth, SinkCounts, growths_between};
use cadence::value::MetricValue;
use cadence_errors::{MetricResult, SinkError};
use cadence_flow::MetricSink;
use cadence_queuing::PeriodicWork;
use cadence_settings::ClientSettings;
use cadence_text::line::MetricType;
use std::alloc::{AllocError, Allocator};
use std::sync::atomic::{AtomicU64, Ordering};
use std::sync::{Mutex, Wait};

// What was reported so far.
#[derive(Drop)]
struct Reported {
    // The counts of the sink that were reported.
    counts: SinkCounts,
    // How often counts were stored here, modulo 2 to the 64.
    notes: u64,
}

/// A sink, and what was reported of it. No lock is held while the sink works, or returns its counts.
#[derive(Drop)]
pub struct Reports<S: MetricSink, A: Allocator> {
    /// The sink whose counts are reported, and over which they are sent.
    pub sink: S,
    /// The settings with which the lines of the reports are made.
    pub settings: ClientSettings<A>,
    // How many lines the sink refused, modulo 2 to the 64.
    refused: AtomicU64,
    reported: Mutex<Reported>,
    alloc: A,
}

// Returns the counts of a sink that has refused this many lines.
fn counts_of<S: MetricSink>(sink: &S, lines_refused: u64) -> SinkCounts {
    SinkCounts {
        stats: sink.stats(),
        lines_dropped: sink.dropped_lines(),
        lines_refused,
    }
}

impl<S: MetricSink, A: Allocator + Clone> Reports<S, A> {
    /// Makes the reports of a sink. They begin with the counts that the sink has now. The only error is that memory ran out.
    pub fn new(alloc: A, sink: S, prefix: &str) -> MetricResult<Self>
        ensures sink { IfOk result (λ r. r.sink ≡ sink) }
        ensures settings { IfOk result (λ r. r.settings ≡ settings_of prefix.now) }
        ensures refused { IfErr result IsQueuingRefusal }
    {
        let settings = ClientSettings::new(alloc.clone()?, prefix)?;
        let counts = counts_of(&sink, 0);
        Ok(Reports {
            sink,
            settings,
            refused: AtomicU64::new(0),
            reported: Mutex::new(Reported { counts, notes: 0 }),
            alloc,
        })
    }

    /// Emits a line into the sink, and counts it if the sink refuses it.
    pub fn emit(&self, line: &str) -> Result<usize, SinkError>
        ensures { S.may_answer self.now.sink line.now result }
    {
        let answer = self.sink.emit(line);
        if answer.is_err() {
            self.refused.fetch_add(1, Ordering::SeqCst);
        }
        answer
    }

    // Returns by how much the counts grew since the last report, and stores them as reported. It reads the counts
    // without the lock. If another report stored counts meanwhile, it reads them again, because the stored ones may be
    // newer.
    fn take_growths<R: Wait>(&self, rt: &R) -> Result<Vec<Growth, A>, AllocError> {
        for _ in rt.forever() {
            let notes = self.reported.lock(rt).notes;
            let now = counts_of(&self.sink, self.refused.load(Ordering::SeqCst));
            let alloc = self.alloc.clone()?;
            let mut reported = self.reported.lock(rt);
            if reported.notes == notes {
                let growths = growths_between(alloc, &reported.counts, &now)?;
                reported.counts = now;
                reported.notes = notes.wrapping_add(1);
                return Ok(growths);
            }
        }
        unreachable!()
    }

    // Returns the line of the counter that reports a growth.
    fn line(&self, growth: &Growth) -> Result<String<A>, SinkError>
        ensures { IfOk result (λ line.
            string_bytes line ≡ line_of_growth self.now.settings growth.now) }
    {
        let value = MetricValue::Unsigned(growth.number);
        match self
            .settings
            .line(growth.count.name(), MetricType::Counter, value)
        {
            Ok(line) => Ok(line),
            // settings that aren't strict refuse no text
            Err(_) => Err(SinkError::OutOfMemory),
        }
    }

    // Sends the counter that reports a growth.
    fn send(&self, growth: &Growth) -> Result<(), SinkError> {
        let line = self.line(growth)?;
        self.sink.emit(&line)?;
        Ok(())
    }
}

impl<S: MetricSink, A: Allocator + Clone> PeriodicWork for Reports<S, A> {
    /// Sends a counter for each count that grew since the last report. If a counter isn't sent, the next report adds
    /// its number. The error is that of the last counter that failed, or that memory ran out for the list of counters.
    fn do_once<R: Wait>(&self, rt: &R) -> Result<(), SinkError> {
        let growths = self.take_growths(rt)?;
        let mut answer = Ok(());
        for growth in growths {
            if let Err(fault) = self.send(&growth) {
                self.reported.lock(rt).counts.take_back(growth);
                answer = Err(fault);
            }
        }
        answer
    }
}
