//! What a look at a queue says whose worker feeds an aggregator of lines. These functions do nothing when they are called.
ghost use Rattle.std.specs.Prelude.{◌≡◌, [], OnOk};
ghost use Rattle.cadence_aggregating.specs.Past.{Summarizes};
ghost use Rattle.cadence_aggregating.specs.Recorded.{lines_in_calls, lines_taken, samples_held};
ghost use Rattle.cadence_aggregating.specs.Shown.{IsSumsStep};
ghost use Rattle.cadence_queuing.specs.Look.{calls_at, stage_at};
ghost use Rattle.cadence_stage.specs.Call.{Flush};

use crate::recorded::RecordedAggregator;
use cadence_errors::SinkError;
use cadence_flow::MetricSink;
use cadence_queuing::Look;
use cadence_stage::Names;
use std::alloc::Allocator;

/// States that the lines that the sink below took, with what is held, are a summary of the lines that the aggregator
/// took: a server knows the same after both.
pub fn summary<S: MetricSink, A: Allocator, J: Names>(look: &Look<RecordedAggregator<S>, A, J>)
    ensures { ∥ Summarizes (lines_in_calls (calls_at look.now))
        (lines_taken (stage_at look.now)) (samples_held (stage_at look.now)) ∥₁ }
{
    look.took();
}

/// States that nothing is held, if the flush that came last succeeded.
pub fn holds_nothing<S: MetricSink, A: Allocator, J: Names>(
    look: &Look<RecordedAggregator<S>, A, J>,
    flushed: &Result<(), SinkError>,
)
    requires { (before : RecordedAggregator S)
        × IsSumsStep before (stage_at look.now) S.may_flush (Flush flushed.now) }
    ensures { OnOk flushed.now (samples_held (stage_at look.now) ≡ []) }
{}
