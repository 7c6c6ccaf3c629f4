//! Calls by keys, under the lock. Each call is made as an `AnsweringSink` of its own, because only `emit_by` can let go
//! of the receipt of a step under a lock. `emit_by` passes a text to its sink. A call by a key has no line, so it
//! passes an empty text, which the sink doesn't read.
ghost use Rattle.std.specs.Prelude.{ℕ, List, Result};
ghost use Rattle.cadence_aggregating.specs.Calls.{line_of_keyed};
ghost use Rattle.cadence_aggregating.specs.Results.{IsResultOf};
ghost use Rattle.cadence_aggregating.specs.Shown.{ShowsAdded};
ghost use Rattle.cadence_errors.specs.declared.SinkError.{SinkError};

use super::SharedSums;
use crate::call::KeyedCall;
use cadence_errors::SinkError;
use cadence_flow::MetricSink;
use cadence_stage::{AnsweringSink, Locked, Receipt};
use std::sync::Wait;

/// A call of an aggregator by a key.
#[derive(Drop)]
pub(super) struct LockedCall<'a, S: MetricSink, R: Wait + Drop> {
    pub(super) to: &'a Locked<SharedSums<S>, R>,
    pub(super) call: KeyedCall<'a>,
}

// The receipt shows the aggregator before and after it accepted the line of the call. After an error it accepted none.
// The number that it returns means nothing.
impl<'a, S: MetricSink, R: Wait + Drop> AnsweringSink for LockedCall<'a, S, R> {
    type Receipt = Receipt<SharedSums<S>>;

    ghost may_answer = { λ made _ answer. IsResultOf (line_of_keyed made.call) answer };

    ghost shows = { λ made receipt _ answer.
        ShowsAdded receipt (line_of_keyed made.call) answer };

    fn emit_line(&self, _none: &str, fault: &mut SinkError) -> (Option<usize>, Self::Receipt) {
        steps();
        self.to.call(self.call, fault)
    }
}

// Lets the proof of `emit_line` count what the call under the lock answers as an `IsResultOf`. That definition can't be
// unfolded outside its own module, so a call that makes no step can't claim it. This compiles to no code.
#[inline(always)]
fn steps()
    ensures { (line : List ℕ) → (r : Result ℕ SinkError) → IsResultOf line r }
{}
