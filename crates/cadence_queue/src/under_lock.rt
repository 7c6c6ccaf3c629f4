//! What lies under the lock of a shared queue; and what a call shows of the step that it made there: the state of the
//! queue before the step, and the state after it.
//!
//! A contract can't name what lies under a lock. So such a call returns, beside its answer, the states between which the
//! queue made its step. They exist in proofs only: they take no bytes, and a `Snapshot` can only be made of a queue that
//! is there.
ghost use Rattle.std.specs.Option.{ForSome};
ghost use Rattle.std.specs.Prelude.{◌≡◌, ◌≢◌, IfSome, false};
ghost use Rattle.cadence_queue.specs.Queue.{IsTaken, is_idle, is_open};
ghost use Rattle.cadence_queue.specs.declared.queue_core.Taken.TheVariants.{Empty};
ghost use Rattle.cadence_queue.specs.declared.queue_error.QueueError.TheVariants.{Full};
ghost use Rattle.cadence_queue.specs.RecordedQueue.{core_of};
ghost use Rattle.cadence_queue.specs.Shown.{IsRefused, accepted_after, after_of, before_of, log_after};

use super::recorded_queue::RecordedQueue;
use super::taking::hand::Hand;
use crate::{QueueCore, Taken, TextRing};
use cadence_stage::{Closed, Logs, Opener, Seen, Unnamed};
use std::alloc::{Allocator, Global};
use std::mem;
use std::snapshot::Snapshot;

/// What lies under the lock of a shared queue: the queue with its record, and the spares. A spare is a text that the
/// worker has handed on already. A caller makes its next text in the memory of one, which saves a request for memory. It
/// has a type of its own, so that a text that waits can't become a spare.
#[derive(Drop)]
pub struct UnderLock<T, A: Allocator, M, N: Logs = Unnamed> {
    pub(super) queue: RecordedQueue<T, A, N>,
    // `None` until the queue has a taker
    pub(super) spares: Option<TextRing<M, A>>,
    // how many callers found the queue full since texts were last taken, modulo 2^32
    pub(super) late: u32,
}

impl<T, A: Allocator, M, N: Logs> UnderLock<T, A, M, N> {
    /// Shows how the queue refuses a text, if it is full and drops no text for another: a step that changes nothing. Returns
    /// `None` if it is stopped, or if it accepts a text.
    pub(super) fn refusal(&mut self) -> Option<QueueStep<T, A>>
        ensures refused { IfSome result (λ step.
            IsRefused step Full × (is_open (before_of step) ≡ false)) }
        ensures named { IfSome result (λ step.
            ForSome N.logs (λ names. log_after step ≡ names.accepted)) }
        ensures found { IfSome result (λ step. before_of step ≡ core_of self.old.queue) }
        ensures same { core_of self.new.queue ≡ core_of self.old.queue }
    {
        if self.queue.core().is_stopped() || !self.queue.core().lacks_room() {
            return None;
        }
        let before = Snapshot::of(self.queue.core());
        let accepted = self.queue.accepted();
        let after = Snapshot::of(self.queue.core());
        Some(QueueStep {
            before,
            after,
            accepted,
        })
    }
}

impl<T, A: Allocator, M: Drop, N: Logs> UnderLock<T, A, M, N> {
    /// Exchanges the spares for the texts that a taker is done with, if those are more. It takes no memory.
    pub(super) fn take_back(&mut self, done: &mut TextRing<M, A>)
        ensures { self.new.queue ≡ self.old.queue }
    {
        if let Some(spares) = &mut self.spares {
            if done.len() > spares.len() {
                mem::swap(done, spares);
            }
        }
    }

    /// Takes a spare, if there is one and the queue accepts one more text without a drop.
    pub(super) fn spare(&mut self) -> Option<M>
        ensures { self.new.queue ≡ self.old.queue }
    {
        let core = self.queue.core();
        if core.is_stopped() || core.is_full() {
            return None;
        }
        match &mut self.spares {
            Some(spares) => spares.pop_front(),
            None => None,
        }
    }

    /// Takes the oldest text, and shows the step.
    pub(super) fn take(&mut self, hand: &mut Hand<T, N>) -> (Taken<T>, QueueStep<T, A>)
        ensures taken { IsTaken (before_of result.1) result.0 (after_of result.1) }
        ensures text { is_idle (core_of self.old.queue) ≡ false → result.0 ≢ Empty }
    {
        let before = Snapshot::of(self.queue.core());
        let taken = self.queue.take(hand);
        let after = Snapshot::of(self.queue.core());
        let step = QueueStep {
            before,
            after,
            accepted: self.queue.accepted(),
        };
        (taken, step)
    }
}

/// Shows a step that a queue made under its lock: the state of the queue before the step, the state after it, and what the
/// queue had accepted by then. All three exist in proofs only. Only the calls of a shared queue make one.
pub struct QueueStep<T, A: Allocator = Global> {
    pub(super) before: Snapshot<QueueCore<T, A>>,
    pub(super) after: Snapshot<QueueCore<T, A>>,
    pub(super) accepted: Seen<T>,
}

impl<T, A: Allocator> QueueStep<T, A> {
    /// Returns what the queue had accepted by the end of this step.
    pub fn into_accepted(self) -> Seen<T>
        ensures name { result.name ≡ log_after self }
        ensures items { result.items ≡ accepted_after self }
    {
        let QueueStep {
            before: _,
            after: _,
            accepted,
        } = self;
        accepted
    }
}

impl<T, A: Allocator> Drop for QueueStep<T, A> {
    fn drop(self) {
        let QueueStep {
            before: _,
            after: _,
            accepted: _,
        } = self;
    }
}

impl<T, A: Allocator> Closed for QueueStep<T, A> {
    fn close(self, _by: Opener) {}
}
