//! What is known of the lines of a queuing sink whose logs have names: at any moment, and after a stop. What these calls
//! return exists in proofs only.
ghost use Rattle.std.proofs.Common.{inr};
ghost use Rattle.std.specs.Prelude.{◌≡◌, ◌∷◌, [], ◌++◌, ◌⊎◌, IfOk, List, String, map, string_bytes};
ghost use mathlib.Core.List.{IsPrefix};
ghost use Rattle.cadence_queuing.specs.Delivered.{AreDelivered};
ghost use Rattle.cadence_queuing.specs.Queuing.{IsQueuingAnswer, queue_capacity};
ghost use Rattle.cadence_queuing.specs.Look.{calls_at, policy_at, stage_at, texts_accepted, texts_taken};
ghost use Rattle.cadence_stage.specs.Answered.{IsAnswered};
ghost use Rattle.cadence_stage.specs.Call.{Flush};
ghost use Rattle.cadence_stage.specs.Held.{NothingIsHeld};
ghost use Rattle.cadence_stage.specs.Kept.{IsStep};
ghost use Rattle.cadence_stage.specs.Past.{lines_in, taken_in};

use super::look_of::Look;
use super::sink::QueuingMetricSink;
use super::worker::Passed;
use crate::fed_sink::FedSink;
use cadence_errors::SinkError;
use cadence_flow::MetricSink;
use cadence_flow::stats::SinkStats;
use cadence_stage::{Named, Names, OneCall, Seen, Stage, emit_by};
use std::alloc::Allocator;
use std::sync::Wait;

impl<S: Stage, R: Wait + Drop, A: Allocator, J: Names> QueuingMetricSink<
    FedSink<S, R, A, J>,
    R,
    A,
    Named<J>,
> {
    /// Returns a receipt of all lines that the queue has accepted so far.
    pub fn accepted(&self) -> Seen<String<A>>
        ensures { result.name ≡ J.names.accepted }
    {
        self.shared.queue.accepted(&self.rt)
    }

    /// Looks at the stage and then at the queue, at any moment. The lines that the stage was given by then are the first
    /// ones that were taken from the queue, in order, and it took just those of them that it answered with a number. The
    /// lines of the receipt were accepted first.
    pub fn look(&self, receipt: &mut Seen<String<A>>) -> Look<S, A, J>
        requires { receipt.old.name ≡ J.names.accepted }
        ensures begins { ∥ IsPrefix (lines_in (calls_at result))
            (map string_bytes (texts_taken result)) ∥₁ }
        ensures took { S.taken (stage_at result) ≡ taken_in (calls_at result) }
        ensures found { IsPrefix receipt.old.items (texts_accepted result) }
        ensures same { receipt.new ≡ receipt.old }
    {
        let (stage, mut seen) = self.shared.sink.look();
        let queue = self.shared.queue.look_again(&self.rt, &mut seen, receipt);
        Look::new(queue, stage)
    }

    /// Stops the queue for all handles, waits for the worker, as `stop_and_wait` does, and flushes the stage. Then each
    /// line that the queue accepted and didn't drop was handed to the stage once, in the order of acceptance, and nobody
    /// else gave it a line (`delivered`, `given`). It took just those of them that it answered with a number. The lines
    /// of the receipt were accepted first. The result of the flush comes with the look.
    pub fn stop_and_flush(
        &self,
        receipt: &mut Seen<String<A>>,
    ) -> (Look<S, A, J>, Result<(), SinkError>)
        requires { receipt.old.name ≡ J.names.accepted }
        ensures delivered { ∥ AreDelivered (policy_at result.0)
            (texts_accepted result.0) (texts_taken result.0) ∥₁ }
        ensures given { lines_in (calls_at result.0) ≡ map string_bytes (texts_taken result.0) }
        ensures took { S.taken (stage_at result.0) ≡ taken_in (calls_at result.0) }
        ensures flushed { (before : S) × S.step before (stage_at result.0) (Flush result.1) }
        ensures found { IsPrefix receipt.old.items (texts_accepted result.0) }
        ensures same { receipt.new ≡ receipt.old }
    {
        drop(self.shared.queue.stop(&self.rt));
        let mut left = self.end.wait(&self.rt);
        match &mut *left {
            Some(passed) => self.flush_at_end(passed, receipt),
            None => unreachable!(),
        }
    }

    // Looks at the queue of a worker that has ended, and flushes the stage.
    fn flush_at_end(
        &self,
        passed: &mut Passed<A, Named<J>>,
        receipt: &mut Seen<String<A>>,
    ) -> (Look<S, A, J>, Result<(), SinkError>)
        requires { receipt.old.name ≡ J.names.accepted }
        ensures delivered { ∥ AreDelivered (policy_at result.0)
            (texts_accepted result.0) (texts_taken result.0) ∥₁ }
        ensures given { lines_in (calls_at result.0) ≡ map string_bytes (texts_taken result.0) }
        ensures took { S.taken (stage_at result.0) ≡ taken_in (calls_at result.0) }
        ensures flushed { (before : S) × S.step before (stage_at result.0) (Flush result.1) }
        ensures found { IsPrefix receipt.old.items (texts_accepted result.0) }
        ensures same { receipt.new ≡ receipt.old }
    {
        let queue = self
            .shared
            .queue
            .look_at_end(&self.rt, &mut passed.taken, receipt);
        let (stage, flushed) = self.shared.sink.flush_by(&mut passed.feed);
        (Look::new(queue, stage), flushed)
    }
}

impl<S: Stage, R: Wait + Drop, A: Allocator + Clone, J: Names> QueuingMetricSink<
    FedSink<S, R, A, J>,
    R,
    A,
    Named<J>,
> {
    /// Queues a line, as `emit` does, and returns its receipt: what the queue had accepted by then, which ends with this
    /// line. After an error nothing is queued.
    pub fn emit_seen(&self, line: &str) -> Result<Seen<String<A>>, SinkError>
        ensures { IfOk result (λ receipt. (receipt.name ≡ J.names.accepted)
            × ((before : List (String A)) × (text : String A)
            × (receipt.items ≡ before ++ text ∷ []) × (string_bytes text ≡ line.now))) }
    {
        let (answer, step) = self.queue_copy(line);
        match answer {
            Ok(_copy) => Ok(step.into_accepted()),
            Err(error) => Err(self.shared.queue.why(error).into()),
        }
    }
}

/// The same calls of a queue whose worker feeds a stage.
impl<S: Stage, R: Wait + Drop, A: Allocator + Clone, J: Names> MetricSink
    for QueuingMetricSink<FedSink<S, R, A, J>, R, A, Named<J>> {
    ghost may_answer = { λ q line answer.
        IsQueuingAnswer (queue_capacity q) line answer × IsAnswered line answer };

    ghost may_flush = { λ _ answer. IsStep S.step (Flush answer) ⊎ NothingIsHeld };

    #[inline(always)]
    fn emit(&self, line: &str) -> Result<usize, SinkError> {
        let mut fault = SinkError::NothingWritten;
        emit_by(OneCall::of(self), line, &mut fault).ok_or(fault)
    }

    fn flush(&self) -> Result<(), SinkError> {
        self.shared.sink.flush()
    }

    fn stats(&self) -> SinkStats {
        self.shared.sink.stats()
    }

    fn dropped_lines(&self) -> u64 {
        self.dropped()
    }

    ghost flush_may_succeed = { λ _ held. inr held };
}
