//! Sinks, a value and a metric of a caller's own types.
ghost use Rattle.cadence.specs.Own.{natural};
ghost use Rattle.std.specs.Prelude.{◌≡◌, [], ◌∷◌, Ok, Some, length, string_bytes};

use cadence::ext::{MetricBackend, MetricValue, ToCounterValue};
use cadence::prelude::*;
use cadence::types::SinkError;
use cadence::{Metric, MetricResult, MetricSink, StatsdClient};
use std::alloc::{Allocator, Global};

/// Takes every line.
#[derive(Drop)]
pub struct MySink;

impl MetricSink for MySink {
    ghost may_answer = { λ _ line answer. answer ≡ Ok (length line) };

    fn emit(&self, line: &str) -> Result<usize, SinkError> {
        Ok(line.len())
    }

    ghost flush_may_succeed = { λ _ _. tt };
}

/// Takes lines, but promises nothing about its answers.
#[derive(Drop)]
pub struct AnySink;

impl MetricSink for AnySink {
    ghost may_answer = { λ _ _ _. Unit {0} };

    ghost may_flush = { λ _ _. Unit {0} };

    fn emit(&self, line: &str) -> Result<usize, SinkError> {
        if line.len() > 1000 {
            return Err(SinkError::PacketRefused);
        }
        Ok(line.len())
    }

    fn flush(&self) -> Result<(), SinkError> {
        Err(SinkError::PacketRefused)
    }

    ghost flush_may_succeed = { λ _ _. tt };
}

/// How many calls a minute had.
#[derive(Drop)]
pub struct Calls {
    pub number: u32,
}

impl<A: Allocator> ToCounterValue<A> for Calls {
    ghost numbers = { λ calls. Some (natural calls.number ∷ []) };

    fn try_to_value(self) -> MetricResult<MetricValue<A>> {
        Ok(MetricValue::Unsigned(u64::from(self.number)))
    }
}

/// An event, which has no kind of its own.
#[derive(Drop)]
pub struct Event {
    pub line: String,
}

impl Metric for Event {
    ghost metric_text = { λ event. string_bytes event.line };

    fn as_metric_str(&self) -> &str {
        self.line.as_str()
    }
}

/// Sends a value and a metric of such types.
pub fn send_own<S: MetricSink>(
    client: &StatsdClient<Global, S>,
    event: &Event,
) -> MetricResult<()> {
    client.count("calls", Calls { number: 7 })?;
    client.send_metric(event)?;
    Ok(())
}
