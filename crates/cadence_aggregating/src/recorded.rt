//! An aggregator of lines, over a sink of metrics, with a record of its past that only proofs read. `called` has the
//! calls that make no line, `stage` the aggregator as a stage.
mod called;
mod stage;

ghost use Rattle.std.specs.NonZero.{non_zero_usize_get};
ghost use Rattle.std.specs.Option.{ok_or};
ghost use Rattle.std.specs.Prelude.{◌≡◌, ◌++◌, ◌∷◌, [], IfOk, OnErr, OnOk, length, map};
ghost use Rattle.cadence_aggregate.specs.Aggregate.{HasRoomForEach};
ghost use Rattle.cadence_aggregating.specs.Notes.{sample_of_note};
ghost use Rattle.cadence_aggregating.specs.Sums.{HasSummary};
ghost use Rattle.cadence_stage.specs.OwnLog.{items_of};

use crate::limits::Limits;
use crate::printer::Printer;
use crate::sums::Sums;
use cadence_errors::SinkError;
use cadence_flow::MetricSink;
use std::alloc::{AllocError, Global};

// For a line that is sent no more bytes are reserved, however long a line may be.
const MOST_RESERVED: usize = 65_536;

/// An aggregator of lines over a sink of metrics. The fact `past` is true of every `RecordedAggregator`: what the sink
/// took, with what is still held, is a summary of what the accepted lines say, and packed values make no line longer than
/// the limit.
#[derive(Drop)]
pub struct RecordedAggregator<S: Drop> {
    sums: Sums,
    printer: Printer<S>,
    pub ghost past: { HasSummary sums (map sample_of_note (items_of printer.notes)) },
}

impl<S: MetricSink> RecordedAggregator<S> {
    ghost use Rattle.cadence_aggregating.specs.Recorded.{lines_accepted, aggregator_of, samples_held, limits_of, refusals_by, sink_of, lines_taken};
    ghost use Rattle.cadence_aggregating.specs.Causes.{HasCause};
    ghost use Rattle.cadence_aggregating.specs.Quiet.{IsQuiet};
    ghost use Rattle.std.specs.Prelude.{All};
    ghost use Rattle.cadence_aggregating.specs.Origins.{ComesFrom};
    ghost use Rattle.cadence_aggregating.specs.Past.{Summarizes};
    ghost use Rattle.cadence_aggregating.specs.Printed.{line_saying};

    /// Makes an aggregator that accepted no line yet. The only error is that memory ran out.
    pub fn new(alloc: Global, limits: Limits, sink: S) -> Result<Self, AllocError>
        ensures accepted { IfOk result (λ a. lines_accepted a ≡ []) }
        ensures taken { IfOk result (λ a. lines_taken a ≡ []) }
        ensures held { IfOk result (λ a. samples_held a ≡ []) }
        ensures refused { IfOk result (λ a. refusals_by a ≡ []) }
        ensures limits { IfOk result (λ a. limits_of a ≡ limits) }
        ensures caps { IfOk result (λ a.
            HasRoomForEach (non_zero_usize_get limits.most_contexts) (aggregator_of a)) }
    {
        let sums = Sums::new(alloc, limits)?;
        let text = String::with_capacity(alloc, limits.most_bytes.min(MOST_RESERVED))?;
        Ok(RecordedAggregator {
            sums,
            printer: Printer::new(sink, text),
        })
    }

    /// Adds what a line says to what is held of its context, or hands the line on. A line that can't be added is handed
    /// on, and so is one that is longer than the limit.
    ///
    /// # Errors
    /// The error of the sink, if it refused a line that had to be sent, and `OutOfMemory`. After an error the result is
    /// `None` and `fault` has the error. The line is not added then, and what was held is sent or still held.
    pub fn add(&mut self, line: &str, fault: &mut SinkError) -> Option<()>
        ensures ok { OnOk (ok_or result fault.new) (lines_accepted self.new
            ≡ lines_accepted self.old ++ line.now ∷ []) }
        ensures err { OnErr (ok_or result fault.new)
            (lines_accepted self.new ≡ lines_accepted self.old) }
        ensures quiet { OnOk (ok_or result fault.new) (∥ IsQuiet (limits_of self.old)
            (aggregator_of self.old) line.now
            (lines_taken self.old) (lines_taken self.new) ∥₁) }
        ensures refused { HasCause (refusals_by self.old) (ok_or result fault.new)
            (refusals_by self.new) }
        ensures limits { limits_of self.new ≡ limits_of self.old }
    {
        self.sums.add(&mut self.printer, line, fault)
    }

    /// Sends one line for each context that is held, and forgets it.
    ///
    /// # Errors
    /// The error of the sink, if it refused a line, and `OutOfMemory`. The result is `None` then, and `fault` has the
    /// error. What was not sent is still held.
    pub fn flush(&mut self, fault: &mut SinkError) -> Option<()>
        ensures ok { OnOk (ok_or result fault.new) (samples_held self.new ≡ []) }
        ensures accepted { lines_accepted self.new ≡ lines_accepted self.old }
        ensures lines { OnOk (ok_or result fault.new) (lines_taken self.new
            ≡ lines_taken self.old ++ map line_saying (samples_held self.old)) }
        ensures refused { HasCause (refusals_by self.old) (ok_or result fault.new)
            (refusals_by self.new) }
        ensures limits { limits_of self.new ≡ limits_of self.old }
    {
        self.sums.flush(&mut self.printer, fault)
    }

    /// Returns how many contexts are held.
    pub(crate) fn count_held(&self) -> u128
        ensures { result ≡ length (samples_held self.now) }
    {
        self.sums.count_held()
    }

    /// Returns the sink.
    pub fn sink(&self) -> &S
        ensures { result.now ≡ sink_of self.now }
    {
        self.printer.sink()
    }

    /// States that the lines that the sink took, with what is held, are a summary of the accepted lines: a server knows
    /// the same after both. States also where each line comes from that the sink took, and how long it may be. Does
    /// nothing when it is called.
    pub fn keeps_the_record(&self)
        ensures summary { ∥ Summarizes (lines_accepted self.now)
            (lines_taken self.now) (samples_held self.now) ∥₁ }
        ensures origins { ∥ All (ComesFrom (limits_of self.now).most_bytes
            (lines_accepted self.now))
            (lines_taken self.now) ∥₁ }
    {}
}
