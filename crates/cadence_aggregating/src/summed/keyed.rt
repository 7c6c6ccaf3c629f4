//! Calls by keys, which make no line unless it has to wait at once.
ghost use Rattle.std.specs.Prelude.{◌≡◌, ◌++◌, ◌∷◌, [], OnErr, OnOk};

use super::SummedLines;
use crate::call::KeyedCall;
use crate::keys::{CounterKey, GaugeKey};
use cadence_errors::SinkError;
use std::alloc::AllocError;

impl SummedLines {
    ghost use Rattle.cadence_aggregating.specs.Calls.{line_of_keyed};
    ghost use Rattle.cadence_aggregating.specs.Keys.{line_of_counter, line_of_gauge};
    ghost use Rattle.cadence_aggregating.specs.Summed.{AddsQuietly, accepted_in, gone_in, limits_in, waiting_in};

    // Adds what the line of a call says.
    fn call(&mut self, call: KeyedCall<'_>) -> Result<(), AllocError>
        ensures ok { OnOk result (accepted_in self.new
            ≡ accepted_in self.old ++ line_of_keyed call.entry ∷ []) }
        ensures err { OnErr result (accepted_in self.new ≡ accepted_in self.old) }
        ensures gone { gone_in self.new ≡ gone_in self.old }
        ensures limits { limits_in self.new ≡ limits_in self.old }
        ensures quiet { OnOk result (AddsQuietly self.old (line_of_keyed call.entry)
            (waiting_in self.old) (waiting_in self.new)) }
    {
        let mut fault = SinkError::NothingWritten;
        match self.sums.call(&mut self.waiting, call, &mut fault) {
            Some(()) => Ok(()),
            None => Err(AllocError),
        }
    }

    /// Raises a counter, as `add` does with the counter's line, and lowers it by a negative number.
    ///
    /// # Errors
    /// Memory ran out. Then the counter is not raised, and what was held waits or is still held.
    pub fn count(&mut self, key: &CounterKey, by: i64) -> Result<(), AllocError>
        ensures ok { OnOk result (accepted_in self.new
            ≡ accepted_in self.old ++ line_of_counter key.now by ∷ []) }
        ensures err { OnErr result (accepted_in self.new ≡ accepted_in self.old) }
        ensures gone { gone_in self.new ≡ gone_in self.old }
        ensures limits { limits_in self.new ≡ limits_in self.old }
        ensures quiet { OnOk result (AddsQuietly self.old (line_of_counter key.now by)
            (waiting_in self.old) (waiting_in self.new)) }
    {
        self.call(KeyedCall::Raise(key, by))
    }

    /// Sets a gauge, as `add` does with the gauge's line.
    ///
    /// # Errors
    /// Memory ran out. Then the gauge is not set, and what was held waits or is still held.
    pub fn gauge(&mut self, key: &GaugeKey, value: u64) -> Result<(), AllocError>
        ensures ok { OnOk result (accepted_in self.new
            ≡ accepted_in self.old ++ line_of_gauge key.now value ∷ []) }
        ensures err { OnErr result (accepted_in self.new ≡ accepted_in self.old) }
        ensures gone { gone_in self.new ≡ gone_in self.old }
        ensures limits { limits_in self.new ≡ limits_in self.old }
        ensures quiet { OnOk result (AddsQuietly self.old (line_of_gauge key.now value)
            (waiting_in self.old) (waiting_in self.new)) }
    {
        self.call(KeyedCall::Set(key, value))
    }
}
