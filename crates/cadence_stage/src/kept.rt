//! A stage whose calls leave receipts.
ghost use Rattle.std.specs.Option.{ok_or};
ghost use Rattle.cadence_stage.specs.Call.{Flush, Line};
ghost use Rattle.cadence_stage.specs.Kept.{IsBetween, IsStep, Shows, stage_of};

use crate::emit::closed::{Closed, Opener};
use crate::stage::{LinelessCall, Stage};
use cadence_errors::SinkError;
use std::snapshot::Snapshot;

/// A stage whose calls leave receipts. Nobody reaches the stage but by these calls. It has no `Drop`, so that its owner has
/// to flush it in the end, by `finish`.
pub(crate) struct Kept<S> {
    stage: S,
}

/// Shows that a stage was called: its state before the call, and its state after it, which exist in proofs only. Only
/// the call makes a receipt. It can't be let go, because its type has no `Drop`: it has to reach `emit_by` or
/// `flush_by`.
pub struct Receipt<S> {
    before: Snapshot<S>,
    after: Snapshot<S>,
}

impl<S: Stage> Kept<S> {
    /// Keeps a stage.
    pub(crate) fn new(stage: S) -> Kept<S> {
        Kept { stage }
    }

    /// Gives the stage a line.
    #[inline(always)]
    pub(crate) fn take_line(
        &mut self,
        line: &str,
        fault: &mut SinkError,
    ) -> (Option<usize>, Receipt<S>)
        ensures between { IsBetween (stage_of self.old) (stage_of self.new) result.1 }
        ensures shows { Shows S.step result.1 (Line line.now (ok_or result.0 fault.new)) }
    {
        let before = Snapshot::of(&self.stage);
        let taken = self.stage.take_line(line, fault);
        let after = Snapshot::of(&self.stage);
        (taken, Receipt { before, after })
    }

    /// Makes a call of the stage that counts as a line.
    pub(crate) fn call<C: LinelessCall<S>>(
        &mut self,
        call: C,
        fault: &mut SinkError,
    ) -> (Option<usize>, Receipt<S>)
        ensures between { IsBetween (stage_of self.old) (stage_of self.new) result.1 }
        ensures shows { Shows S.step result.1 (Line (C.counts_as call) (ok_or result.0 fault.new)) }
    {
        let before = Snapshot::of(&self.stage);
        let taken = call.make(&mut self.stage, fault);
        let after = Snapshot::of(&self.stage);
        (taken, Receipt { before, after })
    }

    /// Flushes the stage.
    #[inline(always)]
    pub(crate) fn empty(&mut self, fault: &mut SinkError) -> (Option<()>, Receipt<S>)
        ensures between { IsBetween (stage_of self.old) (stage_of self.new) result.1 }
        ensures shows { Shows S.step result.1 (Flush (ok_or result.0 fault.new)) }
    {
        let before = Snapshot::of(&self.stage);
        let done = self.stage.empty(fault);
        let after = Snapshot::of(&self.stage);
        (done, Receipt { before, after })
    }

    /// Flushes the stage, and ends it. After an error, the rest is lost.
    pub(crate) fn finish(self) -> Result<(), SinkError>
        ensures { IsStep S.step (Flush result) }
    {
        let Kept { mut stage } = self;
        stage.send_rest()
    }
}

impl<S> Closed for Receipt<S> {
    fn close(self, _by: Opener) {
        let Receipt {
            before: _,
            after: _,
        } = self;
    }
}
