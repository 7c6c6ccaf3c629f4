//! A sink that several owners share.
ghost use Rattle.std.specs.Prelude.{◌≡◌, IfOk};
ghost use Rattle.cadence_aggregating.specs.Shared.{shared_sink};

use cadence_errors::SinkError;
use cadence_flow::MetricSink;
use cadence_flow::stats::SinkStats;
use std::alloc::{AllocError, Global};
use std::sync::Arc;

/// A handle of a sink. Its clones are handles of the same sink, and the last drop drops it.
#[derive(Drop)]
pub struct SharedSink<S: MetricSink> {
    shared: Arc<S>,
}

impl<S: MetricSink> SharedSink<S> {
    /// Makes the first handle of a sink. The only error is that memory ran out.
    pub(crate) fn new(alloc: Global, sink: S) -> Result<Self, AllocError>
        ensures { IfOk result (λ made. shared_sink made ≡ sink) }
    {
        Ok(SharedSink {
            shared: Arc::new(alloc, sink)?,
        })
    }

    /// Returns one more handle.
    pub(crate) fn clone(&self) -> Result<Self, AllocError>
        ensures { IfOk result (λ made. shared_sink made ≡ shared_sink self.now) }
    {
        Ok(SharedSink {
            shared: self.shared.clone()?,
        })
    }

    /// Returns the sink.
    pub(crate) fn get(&self) -> &S
        ensures { result.now ≡ shared_sink self.now }
    {
        &self.shared
    }
}

impl<S: MetricSink> MetricSink for SharedSink<S> {
    ghost may_answer = { λ s. S.may_answer (shared_sink s) };

    ghost may_flush = { λ s. S.may_flush (shared_sink s) };

    ghost flush_may_succeed = { λ s. S.flush_may_succeed (shared_sink s) };

    fn emit(&self, line: &str) -> Result<usize, SinkError> {
        self.shared.emit(line)
    }

    fn flush(&self) -> Result<(), SinkError> {
        self.shared.flush()
    }

    fn stats(&self) -> SinkStats {
        self.shared.stats()
    }

    fn dropped_lines(&self) -> u64 {
        self.shared.dropped_lines()
    }
}
