//! Whether a sink that was made has memory for a line and a flush.
use cadence::types::SinkError;
use cadence::{MetricError, MetricResult, MetricSink};
use std::alloc::Global;
use test_tools::RefusingAllocator;

/// An allocator that refuses one request.
pub type Heap = RefusingAllocator<Global>;

// The line that each sink is given once it is made.
const LINE: &str = "buz:1|m";

/// Returns whether a sink had memory for a line and for a flush. Only one request is refused, so a sink that had none
/// for a line has to take the next one.
///
/// # Errors
/// `PacketRefused` for any other answer of `emit`, and any other error of the flush.
pub fn has_memory_for_a_line<S: MetricSink>(sink: &S) -> MetricResult<bool> {
    match sink.emit(LINE) {
        Ok(length) if length == LINE.len() => has_memory_for_a_flush(sink),
        Err(SinkError::OutOfMemory) if sink.emit(LINE).is_ok() => Ok(false),
        _ => Err(MetricError::from(SinkError::PacketRefused)),
    }
}

// Returns whether a sink had memory for its flush, or any other error of the flush.
fn has_memory_for_a_flush<S: MetricSink>(sink: &S) -> MetricResult<bool> {
    match sink.flush() {
        Ok(()) => Ok(true),
        Err(SinkError::OutOfMemory) => Ok(false),
        Err(fault) => Err(MetricError::from(fault)),
    }
}
