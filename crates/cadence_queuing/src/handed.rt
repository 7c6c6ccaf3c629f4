//! A line that a worker handed to its sink, as proofs see it.
ghost use Rattle.std.specs.Prelude.{string_bytes};

use cadence_errors::SinkError;
use cadence_flow::MetricSink;
use std::alloc::Allocator;
use std::snapshot::Snapshot;

/// A line that was handed to a sink, and what the sink answered. It exists in proofs only.
///
/// What a sink may answer is stated by its `impl`, and for a sink of any type only a call of its `emit` shows that it
/// answered so. So whoever makes a `Handed` has given this line to a sink.
#[derive(Drop)]
pub struct Handed<S: MetricSink, A: Allocator> {
    pub(crate) sink: Snapshot<S>,
    pub(crate) line: Snapshot<String<A>>,
    pub(crate) answer: Snapshot<Result<usize, SinkError>>,
    pub ghost answered: { ∥ S.may_answer sink.value (string_bytes line.value) answer.value ∥₁ },
}
