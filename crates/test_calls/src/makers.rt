//! Makes each sink that has a thread, and says whether it was made.
use cadence::client::ClientSettings;
use cadence::sinks::FlushingMetricSink;
use cadence::types::{MetricError, MetricResult, SinkError};
use cadence::{MetricSink, QueuingMetricSink, Runtime};
use cadence_agent::ReportingMetricSink;
use cadence_aggregating::AggregatingMetricSinkBuilder;
use std::alloc::{AllocError, Global};
use std::sync::Arc;
use std::sync::atomic::{AtomicU64, Ordering};
use std::time::Duration;

// A sink that takes each line, and counts its drop.
struct WrappedSink {
    drops: Arc<AtomicU64>,
}

impl MetricSink for WrappedSink {
    ghost may_answer = { λ _ _ _. Unit {0} };

    fn emit(&self, line: &str) -> Result<usize, SinkError> {
        Ok(line.len())
    }

    ghost flush_may_succeed = { λ _ _. tt };
}

impl Drop for WrappedSink {
    fn drop(self) {
        self.drops.fetch_add(1, Ordering::SeqCst);
        let WrappedSink { drops: _ } = self;
    }
}

// Which sink is made.
#[derive(Clone, Copy)]
enum Maker {
    Queuing,
    Flushing,
    Reporting,
    Aggregating,
    Aggregated,
}

// All of them.
const MAKERS: [Maker; 5] = [
    Maker::Queuing,
    Maker::Flushing,
    Maker::Reporting,
    Maker::Aggregating,
    Maker::Aggregated,
];

impl Maker {
    // Returns the name of the sink.
    fn name(self) -> &'static str {
        match self {
            Maker::Queuing => "QueuingMetricSink",
            Maker::Flushing => "FlushingMetricSink",
            Maker::Reporting => "ReportingMetricSink",
            Maker::Aggregating => "AggregatingMetricSink",
            Maker::Aggregated => "AggregatedClient",
        }
    }

    // Makes the sink over another one, and drops it. Its period is an hour, if it has one.
    fn make<R: Runtime>(self, rt: &R, alloc: Global, sink: WrappedSink) -> MetricResult<()> {
        let (own, hour) = (rt.clone()?, Duration::from_secs(3600));
        match self {
            Maker::Queuing => drop(QueuingMetricSink::from(own, alloc, sink)?),
            Maker::Flushing => drop(FlushingMetricSink::new(own, alloc, sink, hour)?),
            Maker::Reporting => drop(ReportingMetricSink::new(own, alloc, sink, "me", hour)?),
            Maker::Aggregating => {
                let sums = AggregatingMetricSinkBuilder::new().with_flush_period(hour);
                drop(sums.build(own, alloc, sink)?);
            }
            Maker::Aggregated => {
                let sums = AggregatingMetricSinkBuilder::new().with_flush_period(hour);
                let settings = ClientSettings::new(alloc, "p")?;
                drop(sums.build_client(own, alloc, settings, sink)?);
            }
        }
        Ok(())
    }
}

// Returns whether the error is one of the system.
fn is_io(error: &MetricError) -> bool {
    matches!(error.sink_error(), Some(SinkError::Io(_)))
}

// Makes a sink, and returns the line that says how that ended.
fn line_of<R: Runtime>(rt: &R, alloc: Global, maker: Maker) -> Result<String, AllocError> {
    let name = maker.name();
    let drops = Arc::new(alloc, AtomicU64::new(0))?;
    let sink = WrappedSink {
        drops: drops.clone()?,
    };
    match maker.make(rt, alloc, sink) {
        Ok(()) => format!(in alloc; "{name}: made\n"),
        Err(error) => {
            let (is_io, drops) = (is_io(&error), drops.load(Ordering::SeqCst));
            format!(in alloc; "{name}: Io {is_io}, {drops} dropped\n")
        }
    }
}

/// Returns the lines of all sinks.
pub fn report<R: Runtime>(rt: &R, alloc: Global) -> Result<String, AllocError> {
    let mut text = String::new(alloc);
    for maker in MAKERS {
        text.push_str(&line_of(rt, alloc, maker)?)?;
    }
    Ok(text)
}
