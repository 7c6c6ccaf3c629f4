//! Runs a schedule over a packet log, and reads the packets back.
ghost use Rattle.std.specs.Prelude.{◌≡◌, All, Err, IfOk};
ghost use Rattle.cadence_text.specs.OneReading.{IsFreeOfSeparators};
ghost use Rattle.cadence_text.specs.Owned.{metrics_of};
ghost use Rattle.cadence_schedule.specs.Report.{outcome_of};
ghost use Rattle.cadence_read.specs.Listed.{AreListed};
ghost use Rattle.cadence_read.specs.Faults.{not_metrics};
ghost use Rattle.cadence_listen.specs.RunRead.{IsBare, IsNewWhole, IsRun, given_to, kept_metrics, IsUnreadable, texts_of_run};

use cadence_flow::io::PacketLog;
use cadence_read::{ReadFault, read_run};
use cadence_schedule::{Report, Step, run_schedule};
use cadence_settings::ClientSettings;
use cadence_text::line::OwnedMetric;
use std::alloc::Allocator;

/// Runs the steps with `run_schedule`, over a packet log and with a newline after each line. Then it reads the metrics
/// of the log's packets and of the held text.
///
/// A call is kept if it was accepted, and its line was handed on and not refused. If the log is new, none of its
/// answers is short, and the metrics of the kept calls have no separators, no external data and no cardinality, then
/// exactly these metrics are read, in order.
///
/// # Errors
/// `Unusable(NotMetrics)` if a packet or the held text is not the packet of any metrics, and `OutOfMemory`.
pub fn run_and_read<A: Allocator + Clone>(
    alloc: A,
    settings: &ClientSettings<A>,
    capacity: usize,
    queue: Option<usize>,
    steps: &[Step<A>],
    log: PacketLog<A>,
) -> Result<(Report<PacketLog<A>, A>, Vec<OwnedMetric<A>, A>), ReadFault>
    ensures run { IfOk result (λ both.
        IsRun (given_to settings.now capacity queue steps.now log) (outcome_of both.0)) }
    ensures read { IfOk result (λ both.
        AreListed (texts_of_run (outcome_of both.0)) (metrics_of both.1)) }
    ensures kept { let given = given_to settings.now capacity queue steps.now log in
        IsNewWhole log → IfOk result (λ both.
        All IsFreeOfSeparators (kept_metrics given (outcome_of both.0)) →
        All IsBare (kept_metrics given (outcome_of both.0)) →
        metrics_of both.1 ≡ kept_metrics given (outcome_of both.0)) }
    ensures refused { result ≡ Err not_metrics →
        IsUnreadable log (given_to settings.now capacity queue steps.now log) }
{
    let Ok(report) = run_schedule(alloc.clone()?, settings, capacity, "\n", queue, steps, log)
    else {
        return Err(ReadFault::OutOfMemory);
    };
    let metrics = read_run(alloc, report.writer().packets(), report.held())?;
    Ok((report, metrics))
}
