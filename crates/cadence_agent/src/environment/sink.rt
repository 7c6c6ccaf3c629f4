//! A sink to the place that the environment says.
ghost use Rattle.cadence_agent.specs.Shown.{MayAnswer, MayFlush, flush_may_succeed};

use crate::unix::BufferedUnixSink;
use cadence_errors::SinkError;
use cadence_flow::stats::SinkStats;
use cadence_flow::{MetricSink, NopMetricSink};
use cadence_sinks::BufferedUdpMetricSink;
use std::alloc::{Allocator, Global};
use std::sync::Wait;

/// A buffered sink over UDP or over a Unix socket, or one that sends nothing. A queue or a period can be put over it, as
/// over any sink.
#[derive(Drop)]
pub enum EnvironmentSink<R: Wait + Drop, A: Allocator = Global> {
    /// A sink that packs lines into UDP datagrams.
    Udp(BufferedUdpMetricSink<R, A>),
    /// A sink that packs lines into datagrams to the path of a Unix socket.
    Unix(BufferedUnixSink<R, A>),
    /// A sink that takes each line and sends nothing.
    Nowhere(NopMetricSink),
}

/// Passes each call on to the sink that it has.
impl<R: Wait + Drop, A: Allocator> MetricSink for EnvironmentSink<R, A> {
    ghost may_answer = { λ s line answer. MayAnswer s line answer };

    ghost may_flush = { λ s answer. MayFlush s answer };

    fn emit(&self, line: &str) -> Result<usize, SinkError> {
        match self {
            EnvironmentSink::Udp(sink) => sink.emit(line),
            EnvironmentSink::Unix(sink) => sink.emit(line),
            EnvironmentSink::Nowhere(sink) => sink.emit(line),
        }
    }

    fn flush(&self) -> Result<(), SinkError> {
        match self {
            EnvironmentSink::Udp(sink) => sink.flush(),
            EnvironmentSink::Unix(sink) => sink.flush(),
            EnvironmentSink::Nowhere(sink) => sink.flush(),
        }
    }

    fn stats(&self) -> SinkStats {
        match self {
            EnvironmentSink::Udp(sink) => sink.stats(),
            EnvironmentSink::Unix(sink) => sink.stats(),
            EnvironmentSink::Nowhere(sink) => sink.stats(),
        }
    }

    ghost flush_may_succeed = { λ s held. flush_may_succeed s held };
}
