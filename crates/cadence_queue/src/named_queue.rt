//! What is known of a shared queue whose logs have names. The states that these calls return exist in proofs only.
ghost use Rattle.std.specs.Option.{ForSome};
ghost use Rattle.std.specs.Prelude.{◌≡◌};
ghost use mathlib.Core.List.{IsPrefix};
ghost use Rattle.cadence_queue.specs.End.{texts_of};
ghost use Rattle.cadence_queue.specs.Queue.{IsEnd};
ghost use Rattle.cadence_queue.specs.RecordedQueue.{accepted_by, core_of, taken_from};

use crate::recorded_queue::RecordedQueue;
use crate::shared_queue::SharedQueue;
use crate::taking::end::TakerEnd;
use cadence_stage::{Named, Names, Seen};
use std::alloc::Allocator;
use std::snapshot::Snapshot;
use std::sync::Wait;

impl<T, A: Allocator, M, J: Names> SharedQueue<T, A, M, Named<J>> {
    /// Returns which texts the queue has accepted so far.
    pub fn accepted(&self, rt: &impl Wait) -> Seen<T>
        ensures { result.name ≡ J.names.accepted }
    {
        self.state.lock(rt).queue.accepted()
    }

    /// Looks at the queue at any moment. What was seen before as taken was taken first, and what was seen as accepted was
    /// accepted first.
    pub fn look_again(
        &self,
        rt: &impl Wait,
        taken: &mut Seen<T>,
        accepted: &mut Seen<T>,
    ) -> Snapshot<RecordedQueue<T, A, Named<J>>>
        requires names { (taken.old.name ≡ J.names.taken)
            × (accepted.old.name ≡ J.names.accepted) }
        ensures taken { IsPrefix taken.old.items (taken_from result.value) }
        ensures accepted { IsPrefix accepted.old.items (accepted_by result.value) }
        ensures same { (taken.new ≡ taken.old) × (accepted.new ≡ accepted.old) }
    {
        let mut state = self.state.lock(rt);
        state.queue.has_taken(taken);
        state.queue.has_accepted(accepted);
        Snapshot::of(&state.queue)
    }

    /// Looks at the queue with what its taker left. The queue is at its end, and what was taken from it is what this
    /// taker took. What was seen as accepted was accepted first.
    pub fn look_at_end(
        &self,
        rt: &impl Wait,
        end: &mut TakerEnd<T, Named<J>>,
        accepted: &mut Seen<T>,
    ) -> Snapshot<RecordedQueue<T, A, Named<J>>>
        requires { accepted.old.name ≡ J.names.accepted }
        ensures taken { taken_from result.value ≡ texts_of end.old }
        ensures end { IsEnd (core_of result.value) }
        ensures accepted { IsPrefix accepted.old.items (accepted_by result.value) }
        ensures same { (texts_of end.new ≡ texts_of end.old) × (accepted.new ≡ accepted.old) }
    {
        let mut state = self.state.lock(rt);
        end.meets(&mut state.queue);
        state.queue.has_accepted(accepted);
        Snapshot::of(&state.queue)
    }
}
