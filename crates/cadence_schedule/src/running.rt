//! The state of a run between two steps, and what each step does to it.
use super::steps::{Reply, Step};
use cadence_errors::{MetricError, SinkError};
use cadence_queue::{QueueCore, Taken};
use cadence_settings::{Call, ClientSettings};
use cadence_stage::Stage;
use std::alloc::{Allocator, Global};

// The queue, the line in the worker's hand, and the stage to which the worker hands lines.
#[derive(Drop)]
pub(crate) struct Running<S, A: Allocator = Global> {
    pub(crate) queue: QueueCore<String<A>, A>,
    pub(crate) in_hand: Option<String<A>>,
    pub(crate) stage: S,
}

impl<S: Stage, A: Allocator + Clone> Running<S, A> {
    ghost use Rattle.std.specs.Prelude.{◌≡◌, All};
    ghost use Rattle.cadence_text.specs.Representable.{IsRepresentable};
    ghost use Rattle.cadence_settings.specs.CallData.{line_of_data, metric_of_data};
    ghost use Rattle.cadence_schedule.specs.RunHistory.{accepted_by_turn};
    ghost use Rattle.cadence_schedule.specs.Running.{AllCalled, MovesQueue, given_by};
    ghost use Rattle.cadence_schedule.specs.declared.steps.Step.TheVariants as step;

    // Formats the line of a call and puts it into the queue.
    fn call(&mut self, settings: &ClientSettings<A>, call: &Call<A>) -> Reply
        ensures queue { MovesQueue (line_of_data settings.now)
            self.old (step.Call call.now, result) self.new }
        ensures same { self.new.stage ≡ self.old.stage }
        ensures representable { All IsRepresentable (accepted_by_turn (metric_of_data settings.now)
            (step.Call call.now, result)) }
    {
        let line = match settings.line_of(call) {
            Ok(line) => line,
            Err(error) => return Reply::Called(Err(error)),
        };
        let length = line.len();
        match self.queue.submit(line) {
            Ok(None) => Reply::Called(Ok(length)),
            Ok(Some(oldest)) => Reply::CallDropped(length, oldest.len()),
            Err((error, _line)) => Reply::Called(Err(MetricError::Sink(error))),
        }
    }

    // Takes the oldest line of the queue into the hand, if the hand is empty.
    fn take(&mut self) -> Reply
        ensures queue { (line_of : _) → MovesQueue line_of self.old (step.Take, result) self.new }
        ensures same { self.new.stage ≡ self.old.stage }
    {
        if self.in_hand.is_some() {
            return Reply::Busy;
        }
        match self.queue.take() {
            Taken::Text(line) => {
                let length = line.len();
                self.in_hand = Some(line);
                Reply::Text(length)
            }
            Taken::Empty => Reply::Empty,
            Taken::Ended => Reply::Ended,
        }
    }

    // Hands the line in hand on.
    fn hand(&mut self) -> Reply
        ensures queue { (line_of : _) → MovesQueue line_of self.old (step.Hand, result) self.new }
        ensures leads { AllCalled S.step self.old.stage
            (given_by self.old (step.Hand, result)) self.new.stage }
    {
        let Some(line) = self.in_hand.take() else {
            return Reply::Nothing;
        };
        let mut fault = SinkError::NothingWritten;
        let taken = self.stage.take_line(line.as_str(), &mut fault);
        Reply::Handed(taken.ok_or(fault))
    }

    // Sends what is held.
    fn flush(&mut self) -> Reply
        ensures queue { (line_of : _) → MovesQueue line_of self.old (step.Flush, result) self.new }
        ensures leads { AllCalled S.step self.old.stage
            (given_by self.old (step.Flush, result)) self.new.stage }
    {
        let mut fault = SinkError::NothingWritten;
        let done = self.stage.empty(&mut fault);
        Reply::Flushed(done.ok_or(fault))
    }

    // Stops the queue.
    fn stop(&mut self) -> Reply
        ensures queue { (line_of : _) → MovesQueue line_of self.old (step.Stop, result) self.new }
        ensures same { self.new.stage ≡ self.old.stage }
    {
        self.queue.stop();
        Reply::Stopped
    }

    // Makes one step and returns the reply to it.
    pub(crate) fn step(&mut self, settings: &ClientSettings<A>, step: &Step<A>) -> Reply
        ensures queue { MovesQueue (line_of_data settings.now)
            self.old (step.now, result) self.new }
        ensures leads { AllCalled S.step self.old.stage
            (given_by self.old (step.now, result)) self.new.stage }
        ensures representable { All IsRepresentable
            (accepted_by_turn (metric_of_data settings.now) (step.now, result)) }
    {
        match step {
            Step::Call(call) => self.call(settings, call),
            Step::Take => self.take(),
            Step::Hand => self.hand(),
            Step::Flush => self.flush(),
            Step::Stop => self.stop(),
        }
    }
}
