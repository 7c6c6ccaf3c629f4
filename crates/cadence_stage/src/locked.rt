//! A stage under a lock, which threads share.
ghost use Rattle.std.specs.Option.{ok_or};
ghost use Rattle.cadence_stage.specs.Call.{Flush, Line};
ghost use Rattle.cadence_stage.specs.Kept.{IsStep, Shows};

use crate::answering_sink::AnsweringSink;
use crate::kept::{Kept, Receipt};
use crate::lock::acquire;
use crate::stage::{LinelessCall, Stage};
use cadence_errors::SinkError;
use std::sync::{Mutex, Wait};

/// A stage under a lock. It stores the runtime `R`, which taking the lock needs. Its drop flushes the stage, and drops
/// the error.
pub struct Locked<S: Stage, R: Wait + Drop> {
    rt: R,
    stage: Mutex<Kept<S>>,
}

impl<S: Stage, R: Wait + Drop> Locked<S, R> {
    /// Puts a stage under a lock.
    pub fn new(rt: R, stage: S) -> Self {
        Locked {
            rt,
            stage: Mutex::new(Kept::new(stage)),
        }
    }

    /// Flushes the stage, and ends it, as its drop does. After an error, the rest is lost.
    pub fn finish(self) -> Result<(), SinkError>
        ensures { IsStep S.step (Flush result) }
    {
        let Locked { rt: _rt, stage } = self;
        stage.into_inner().finish()
    }

    /// Makes a call of the stage that counts as a line, under the lock.
    pub fn call<C: LinelessCall<S>>(
        &self,
        call: C,
        fault: &mut SinkError,
    ) -> (Option<usize>, Receipt<S>)
        ensures { Shows S.step result.1 (Line (C.counts_as call) (ok_or result.0 fault.new)) }
    {
        acquire(&self.stage, &self.rt).call(call, fault)
    }

    /// Flushes the stage, under the lock.
    pub(crate) fn empty(&self, fault: &mut SinkError) -> (Option<()>, Receipt<S>)
        ensures { Shows S.step result.1 (Flush (ok_or result.0 fault.new)) }
    {
        self.stage.lock(&self.rt).empty(fault)
    }
}

/// Gives the stage a line, under the lock.
impl<S: Stage, R: Wait + Drop> AnsweringSink for Locked<S, R> {
    type Receipt = Receipt<S>;

    ghost may_answer = { λ _ line answer. IsStep S.step (Line line answer) };

    ghost shows = { λ _ receipt line answer. Shows S.step receipt (Line line answer) };

    #[inline(always)]
    fn emit_line(&self, line: &str, fault: &mut SinkError) -> (Option<usize>, Self::Receipt) {
        acquire(&self.stage, &self.rt).take_line(line, fault)
    }
}

impl<S: Stage, R: Wait + Drop> Drop for Locked<S, R> {
    fn drop(self) {
        let _ = self.finish();
    }
}
