//! Calls by keys, which make no line.
ghost use Rattle.std.specs.Option.{ok_or};
ghost use Rattle.std.specs.Prelude.{◌≡◌, ◌++◌, ◌∷◌, [], OnErr, OnOk};

use super::RecordedAggregator;
use crate::call::KeyedCall;
use cadence_errors::SinkError;
use cadence_flow::MetricSink;
use cadence_stage::LinelessCall;

impl<S: MetricSink> RecordedAggregator<S> {
    ghost use Rattle.cadence_aggregating.specs.Calls.{line_of_keyed};
    ghost use Rattle.cadence_aggregating.specs.Causes.{HasCause};
    ghost use Rattle.cadence_aggregating.specs.Quiet.{IsQuiet};
    ghost use Rattle.cadence_aggregating.specs.Recorded.{lines_accepted, aggregator_of, limits_of, refusals_by, lines_taken};

    /// Makes a call by a key, as `add` does with the call's line, but doesn't make the line, unless it has to be handed
    /// on at once.
    ///
    /// # Errors
    /// The error of the sink, if it refused a line that had to be sent, and `OutOfMemory`. After an error the result is
    /// `None` and `fault` has the error. The call did nothing then, and what was held is sent or still held.
    fn call(&mut self, call: KeyedCall<'_>, fault: &mut SinkError) -> Option<()>
        ensures ok { OnOk (ok_or result fault.new) (lines_accepted self.new
            ≡ lines_accepted self.old ++ line_of_keyed call.entry ∷ []) }
        ensures err { OnErr (ok_or result fault.new)
            (lines_accepted self.new ≡ lines_accepted self.old) }
        ensures quiet { OnOk (ok_or result fault.new)
            (∥ IsQuiet (limits_of self.old) (aggregator_of self.old)
            (line_of_keyed call.entry) (lines_taken self.old) (lines_taken self.new) ∥₁) }
        ensures refused { HasCause (refusals_by self.old) (ok_or result fault.new)
            (refusals_by self.new) }
    {
        self.sums.call(&mut self.printer, call, fault)
    }
}

/// The number that the call returns means nothing.
impl<'a, S: MetricSink> LinelessCall<RecordedAggregator<S>> for KeyedCall<'a> {
    ghost use Rattle.cadence_aggregating.specs.Calls.{line_of_keyed};

    ghost counts_as = { λ call. line_of_keyed call };

    fn make(self, stage: &mut RecordedAggregator<S>, fault: &mut SinkError) -> Option<usize> {
        stage.call(self, fault)?;
        Some(0)
    }
}
