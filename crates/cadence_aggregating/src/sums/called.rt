//! Calls by keys, which make no line. A call is held if the context of its key fits the limit of a line.
ghost use Rattle.std.specs.Option.{ok_or};
ghost use Rattle.std.specs.Prelude.{◌≡◌, ◌++◌, ◌∷◌, [], OnErr, OnOk};

use super::{Sums, add_or_pass};
use crate::accepted::Accepted;
use crate::call::{KeyedCall, context_of, said_by};
use cadence_aggregate::{LineSink, out_of_memory};
use cadence_errors::SinkError;

impl Sums {
    ghost use Rattle.cadence_aggregating.specs.Calls.{line_of_keyed};
    ghost use Rattle.cadence_aggregating.specs.Quiet.{IsQuiet};
    ghost use Rattle.cadence_aggregating.specs.Sums.{KeepsSummary, accepted_by, aggregator_of, limits_of};

    /// Makes a call by a key, as `add` does with the call's line, but doesn't make the line, unless it has to be handed
    /// on at once.
    ///
    /// # Errors
    /// As of `add`. After an error the call did nothing, and what was held is sent or still held.
    pub(crate) fn call<S: LineSink>(
        &mut self,
        sink: &mut S,
        call: KeyedCall<'_>,
        fault: &mut SinkError,
    ) -> Option<()>
        ensures ok { OnOk (ok_or result fault.new) (accepted_by self.new
            ≡ accepted_by self.old ++ line_of_keyed call.entry ∷ []) }
        ensures err { OnErr (ok_or result fault.new) (accepted_by self.new ≡ accepted_by self.old) }
        ensures summary { KeepsSummary self.old self.new (S.sent sink.old) (S.sent sink.new) }
        ensures quiet { OnOk (ok_or result fault.new)
            (∥ IsQuiet (limits_of self.old) (aggregator_of self.old)
            (line_of_keyed call.entry) (S.sent sink.old) (S.sent sink.new) ∥₁) }
        ensures leads { S.leads sink.old (ok_or result fault.new) sink.new }
        ensures limits { limits_of self.new ≡ limits_of self.old }
    {
        let context = context_of(call);
        let Ok(said) = said_by(call, &mut self.context) else {
            return out_of_memory(fault);
        };
        let is_held = self.limits.holds(&said, context.len());
        add_or_pass(&mut self.aggregator, sink, said, is_held, fault)?;
        self.accepted.note(&Accepted::of(said));
        Some(())
    }
}
