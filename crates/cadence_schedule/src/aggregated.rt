//! The run of a schedule with an aggregator between the worker's hand and the packer.
ghost use Rattle.std.specs.Prelude.{◌≡◌, ◌<◌, ◌≤◌, ◌^◌, IfErr, IfOk, List, length};
ghost use Rattle.cadence_schedule.specs.Aggregated.{HasAggregated, held_in_report, outcome_shown};
ghost use Rattle.cadence_schedule.specs.Headline.{given_of};
ghost use Rattle.cadence_schedule.specs.RunOutcome.{outcome_after};
ghost use Rattle.cadence_stage.specs.Call.{Call};

use super::aggregated_report::AggregatedReport;
use super::laws::tight_is_fewest;
use super::make_steps::{lists_of_run, make_steps};
use super::packed_sums::PackedSums;
use super::packing::Packing;
use super::running::Running;
use super::steps::{Reply, Step};
use cadence_aggregating::{Limits, Sums};
use cadence_flow::io::{CountingWriter, PacketWriter};
use cadence_queue::QueuePolicy;
use cadence_settings::ClientSettings;
use cadence_text::laws::no_line_is_empty;
use std::alloc::{Allocator, Global};

// Makes the report of a run after its last step.
fn report_of<W: PacketWriter, A: Allocator>(
    running: Running<PackedSums<CountingWriter<W>, A>, A>,
    replies: Vec<Reply, A>,
) -> AggregatedReport<W, A>
    ensures outcome { outcome_shown result
        ≡ outcome_after running running.stage.sink.packing replies }
    ensures aggregator { result.aggregator ≡ running.stage.lines.aggregator }
    ensures held { length (outcome_shown result).held
        ≤ running.stage.sink.packing.packer.format.capacity }
    ensures bytes_sent { (outcome_shown result).stats.bytes_sent < 2 ^ 64 }
    ensures packets_sent { (outcome_shown result).stats.packets_sent < 2 ^ 64 }
{
    let Running {
        queue,
        in_hand,
        stage,
    } = running;
    let (aggregator, packing) = stage.into_parts();
    let Packing { packer, cut, .. } = packing;
    let (counting, held) = packer.into_parts();
    let (writer, stats) = counting.into_parts();
    AggregatedReport {
        replies,
        cut,
        held,
        queue,
        in_hand,
        stats,
        writer,
        aggregator,
    }
}

/// Runs a schedule as [`run_schedule_with`](crate::run_schedule_with) does, but with an aggregator between
/// the worker's hand and the packer, as an `AggregatingMetricSink` is between a queue and a buffered sink.
///
/// - `Hand` gives the line in hand to the aggregator, which adds it to what it holds, within `limits`, or hands it on
///   to the packer. The reply is the length of the line, or the error with which the packer refused a line that had
///   to be sent, or `OutOfMemory`. After an error the line is not added.
/// - `Flush` makes the aggregator send one line for each context that it holds, and then the packer its held text. If
///   the packer refuses a line, the flush ends there, and the aggregator still holds what was not sent.
///
/// The other steps are those of `run_schedule_with`. The report has also what the aggregator holds in the end. The
/// aggregator takes its memory from `global`. The Rust crate has no such function.
///
/// # Errors
/// The writer is returned if memory for the lists of the run, for the aggregator or for the buffer of the packer runs
/// out. No step was made then. If memory runs out in a step, the reply to that step says so.
pub fn run_schedule_aggregated<W: PacketWriter, A: Allocator + Clone>(
    global: Global,
    alloc: A,
    settings: &ClientSettings<A>,
    capacity: usize,
    ending: &str,
    limits: Limits,
    queue: Option<usize>,
    policy: QueuePolicy,
    steps: &[Step<A>],
    writer: W,
) -> Result<AggregatedReport<W, A>, W>
    ensures headline { let given =
        given_of W.kind W.history settings.now capacity ending.now queue policy steps.now writer in
        IfOk result (λ report. (all : List Call)
        × HasAggregated W.history given (outcome_shown report) (held_in_report report) all) }
    ensures returned { IfErr result (λ back. back ≡ writer) }
{
    // Laws, which only the proof needs. The calls compile to no code.
    no_line_is_empty();
    tight_is_fewest();
    let Ok((replies, queue)) = lists_of_run(&alloc, steps.len(), queue, policy) else {
        return Err(writer);
    };
    let Ok(lines) = Sums::new(global, limits) else {
        return Err(writer);
    };
    let counting = CountingWriter::new(writer);
    match Packing::new(&alloc, capacity, ending, steps.len(), counting) {
        Ok(packing) => {
            let sums = PackedSums::new(global, lines, packing);
            let (running, replies) = make_steps(settings, steps, queue, sums, replies);
            Ok(report_of(running, replies))
        }
        Err(counting) => Err(counting.into_inner()),
    }
}
