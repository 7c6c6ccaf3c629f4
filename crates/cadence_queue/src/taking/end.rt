//! What a taker shows of the end of its queue. It exists in proofs only.
ghost use Rattle.std.specs.Option.{ForSome};
ghost use Rattle.std.specs.Prelude.{◌≡◌, ◌≢◌, []};
ghost use Rattle.cadence_queue.specs.Hand.{texts_by};
ghost use Rattle.cadence_queue.specs.Queue.{IsEnd};
ghost use Rattle.cadence_queue.specs.Shown.{after_of};

use super::hand::Hand;
use crate::recorded_queue::RecordedQueue;
use crate::under_lock::QueueStep;
use cadence_stage::{Logs, Named, Names, Seen, Unnamed};
use std::alloc::{Allocator, Global};
use std::marker::PhantomData;

/// Shows that a queue came to its end: the step that found it there, and that its end was noted.
pub struct SeenEnd<T, A: Allocator = Global, N: Logs = Unnamed> {
    step: QueueStep<T, A>,
    noted: Seen<()>,
    of: PhantomData<N>,
    pub ghost end: { IsEnd (after_of step) },
    pub ghost some: { noted.items ≢ [] },
    pub ghost named: { ForSome N.logs (λ names. noted.name ≡ names.ended) },
}

impl<T, A: Allocator, N: Logs> SeenEnd<T, A, N> {
    ghost use Rattle.cadence_queue.specs.End.{texts_of};

    // Keeps the step that found the queue at its end, and that this was noted.
    pub(super) fn new(step: QueueStep<T, A>, noted: Seen<()>) -> Self
        requires end { IsEnd (after_of step) }
        requires some { noted.items ≢ [] }
        requires named { ForSome N.logs (λ names. noted.name ≡ names.ended) }
    {
        SeenEnd {
            step,
            noted,
            of: PhantomData,
        }
    }

    // Keeps the right of the taker, and that the end of its queue was noted.
    pub(super) fn with_hand(self, hand: Hand<T, N>) -> TakerEnd<T, N>
        ensures { texts_of result ≡ texts_by hand }
    {
        let SeenEnd {
            step: _,
            noted,
            of: _,
        } = self;
        TakerEnd { hand, noted }
    }
}

/// What a taker leaves at the end of its queue: its right, with the texts that it took, and that the end was noted. So
/// nobody takes another text by this right.
pub struct TakerEnd<T, N: Logs = Unnamed> {
    hand: Hand<T, N>,
    noted: Seen<()>,
    pub ghost some: { noted.items ≢ [] },
    pub ghost named: { ForSome N.logs (λ names. noted.name ≡ names.ended) },
}

impl<T, J: Names> TakerEnd<T, Named<J>> {
    ghost use Rattle.cadence_queue.specs.End.{texts_of};
    ghost use Rattle.cadence_queue.specs.RecordedQueue.{accepted_by, core_of, taken_from};

    /// The queue is at its end, and what was taken from it is what this taker took. The call changes nothing.
    pub fn meets<A: Allocator>(&mut self, queue: &mut RecordedQueue<T, A, Named<J>>)
        ensures taken { taken_from queue.new ≡ texts_of self.old }
        ensures end { IsEnd (core_of queue.new) }
        ensures same { (core_of queue.new ≡ core_of queue.old)
            × (accepted_by queue.new ≡ accepted_by queue.old)
            × (texts_of self.new ≡ texts_of self.old) }
    {
        queue.meets(&mut self.hand);
        queue.has_ended(&mut self.noted);
    }
}

// Derived drops would want texts that can be dropped.
impl<T, A: Allocator, N: Logs> Drop for SeenEnd<T, A, N> {
    fn drop(self) {
        let SeenEnd {
            step: _,
            noted: _,
            of: _,
        } = self;
    }
}

impl<T, N: Logs> Drop for TakerEnd<T, N> {
    fn drop(self) {
        let TakerEnd { hand: _, noted: _ } = self;
    }
}
