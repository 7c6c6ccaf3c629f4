//! A queue with a record of its past that only proofs read.
ghost use Rattle.std.specs.Option.{ForSome};
ghost use Rattle.std.specs.Prelude.{◌≡◌, ◌≢◌, ◌-◌, [], ◌∷◌, ◌++◌, None, Some, false, length, slice_get};
ghost use Rattle.cadence_stage.specs.OwnLog.{items_of, name_of};
ghost use Rattle.cadence_queue.specs.Queue.{IsEnd};
ghost use Rattle.cadence_queue.specs.QueuePast.{IsPast};
ghost use Rattle.cadence_queue.specs.QueueState.{drops};

use super::taking::hand::Hand;
use crate::{QueueCore, QueueError, QueuePolicy, Taken, TextRing};
use cadence_errors::MetricResult;
use cadence_stage::{Log, Logs, Named, Names, OwnLog, Right, Seen, Unnamed, twins};
use std::alloc::{AllocError, Allocator, Global};
use std::marker::PhantomData;
use std::snapshot::Snapshot;

/// The logs of a queue that has not begun, and the right that lies beside the log of what is taken. They exist in proofs
/// only.
pub struct QueueLogs<T> {
    pub accepted: OwnLog<T>,
    pub taken: Log<T>,
    pub own: Right<T>,
    pub ended: OwnLog<()>,
    pub ghost none: { (items_of accepted ≡ []) × (taken.items ≡ []) × (items_of ended ≡ []) },
}

/// A `QueueCore` with a record of the texts that it accepted and of those that were taken from it, each in order. The
/// record exists in proofs only. Three facts are true of every `RecordedQueue`: each accepted text was taken or dropped,
/// or it waits in the queue, as the queue's model says (`past`); in a queue that drops no text, each was taken or waits
/// (`whole`); and once the end of the queue was noted, the queue is at its end for good (`over`). Its calls never let a
/// text go.
///
/// The logs have the names that `N` says, or none.
#[derive(Drop)]
pub struct RecordedQueue<T, A: Allocator = Global, N: Logs = Unnamed> {
    core: QueueCore<T, A>,
    accepted: OwnLog<T>,
    taken: Log<T>,
    own: Right<T>,
    ended: OwnLog<()>,
    of: PhantomData<N>,
    pub ghost past: { ∥ IsPast (items_of accepted) taken.items core ∥₁ },
    pub ghost whole: { drops core.policy ≡ false →
        items_of accepted ≡ taken.items ++ core.waiting },
    pub ghost over: { items_of ended ≢ [] → IsEnd core },
    pub ghost unnamed: { N.logs ≡ None → own.name ≡ taken.name },
    pub ghost named: { ForSome N.logs (λ names. (name_of accepted ≡ names.accepted)
        × (taken.name ≡ names.taken) × (name_of ended ≡ names.ended)) },
}

impl<T> QueueLogs<T> {
    ghost use Rattle.cadence_queue.specs.QueueModel.{IsQueueOf};
    ghost use Rattle.cadence_queue.specs.RecordedQueue.{accepted_by, core_of, taken_from};

    // Puts the logs beside a queue that has accepted no text yet.
    fn beside<A: Allocator, N: Logs>(self, core: QueueCore<T, A>) -> RecordedQueue<T, A, N>
        requires unnamed { N.logs ≡ None → self.own.name ≡ self.taken.name }
        requires named { ForSome N.logs (λ names. (name_of self.accepted ≡ names.accepted)
            × (self.taken.name ≡ names.taken) × (name_of self.ended ≡ names.ended)) }
        requires new { IsQueueOf [] [] core × (core.waiting ≡ []) }
        ensures queue { core_of result ≡ core }
        ensures none { (accepted_by result ≡ []) × (taken_from result ≡ []) }
    {
        let QueueLogs {
            accepted,
            taken,
            own,
            ended,
        } = self;
        RecordedQueue {
            core,
            accepted,
            taken,
            own,
            ended,
            of: PhantomData,
        }
    }
}

// Adds the newest text that waits to the log of accepted texts, and returns it for proofs alone.
fn note_newest<T, A: Allocator>(core: &QueueCore<T, A>, accepted: &mut OwnLog<T>) -> Snapshot<T>
    requires { core.now.waiting ≢ [] }
    ensures newest { slice_get core.now.waiting (length core.now.waiting - 1) ≡ Some result.value }
    ensures items { items_of accepted.new ≡ items_of accepted.old ++ result.value ∷ [] }
    ensures name { name_of accepted.new ≡ name_of accepted.old }
{
    let newest = core.waiting() - 1;
    match core.get(newest) {
        Some(text) => {
            accepted.note(text);
            Snapshot::of(text)
        }
        None => unreachable!(),
    }
}

impl<T, A: Allocator + Clone> RecordedQueue<T, A> {
    ghost use Rattle.std.specs.Prelude.{IfOk};
    ghost use Rattle.cadence_queue.specs.QueueRoom.{OnlyWantsRoom};
    ghost use Rattle.cadence_queue.specs.Queue.{new_queue};
    ghost use Rattle.cadence_queue.specs.RecordedQueue.{accepted_by, core_of, taken_from};

    /// Makes an empty queue that has accepted no text yet, as `QueueCore::with_policy` does. Its logs have no names.
    pub fn new(alloc: A, capacity: Option<usize>, policy: QueuePolicy) -> MetricResult<Self>
        ensures made { IfOk result (λ q. core_of q ≡ new_queue capacity policy) }
        ensures none { IfOk result (λ q. (accepted_by q ≡ []) × (taken_from q ≡ [])) }
        ensures refused { OnlyWantsRoom capacity result }
    {
        let (taken, own) = twins();
        let logs = QueueLogs {
            accepted: OwnLog::new(),
            taken,
            own,
            ended: OwnLog::new(),
        };
        RecordedQueue::with_logs(alloc, capacity, policy, logs)
    }
}

impl<T, A: Allocator + Clone, N: Logs> RecordedQueue<T, A, N> {
    ghost use Rattle.std.specs.Prelude.{IfOk, IfErr, OnOk, OnErr, Ok, Err, IsOk, IsTrue};
    ghost use Rattle.std.specs.declared.alloc.AllocError.{AllocError};
    ghost use Rattle.cadence_queue.specs.QueueRoom.{IsBounded, OnlyWantsRoom};
    ghost use Rattle.cadence_queue.specs.Queue.{Accepts, IsRefusal, error_of, is_open, new_queue};
    ghost use Rattle.cadence_queue.specs.RecordedQueue.{accepted_by, core_of, taken_from};

    /// Makes an empty queue that has accepted no text yet, as `QueueCore::with_policy` does, with these logs.
    pub fn with_logs(
        alloc: A,
        capacity: Option<usize>,
        policy: QueuePolicy,
        logs: QueueLogs<T>,
    ) -> MetricResult<Self>
        requires unnamed { N.logs ≡ None → logs.own.name ≡ logs.taken.name }
        requires named { ForSome N.logs (λ names. (name_of logs.accepted ≡ names.accepted)
            × (logs.taken.name ≡ names.taken) × (name_of logs.ended ≡ names.ended)) }
        ensures made { IfOk result (λ q. core_of q ≡ new_queue capacity policy) }
        ensures none { IfOk result (λ q. (accepted_by q ≡ []) × (taken_from q ≡ [])) }
        ensures refused { OnlyWantsRoom capacity result }
    {
        let core = QueueCore::with_policy(alloc, capacity, policy)?;
        Ok(logs.beside(core))
    }

    /// Adds a text at the end, as `QueueCore::add` does, and to the record if it was accepted.
    pub fn add(&mut self, text: T) -> Result<Option<T>, (QueueError, T)>
        ensures accepted { OnOk result
            (accepted_by self.new ≡ accepted_by self.old ++ text ∷ []) }
        ensures refused { OnErr result (accepted_by self.new ≡ accepted_by self.old) }
        ensures same { taken_from self.new ≡ taken_from self.old }
        ensures accepts { IfOk result (λ dropped.
            Accepts (core_of self.old) text dropped (core_of self.new)) }
        ensures refuses { IfErr result (λ e. IsRefusal (core_of self.old) (error_of e.0)
            × (e.1 ≡ text) × (core_of self.new ≡ core_of self.old)) }
        ensures bounded { IsBounded (core_of self.old).capacity →
            IsTrue (is_open (core_of self.old)) → IsOk result }
    {
        let answer = self.core.add(text);
        if let Ok(_) = &answer {
            let _newest = note_newest(&self.core, &mut self.accepted);
        }
        answer
    }

    /// Adds the text that `make` makes at the end, as `QueueCore::offer` does, and adds it to the record. Returns the
    /// text that a full queue dropped for it, if it dropped one, and in proofs the text itself.
    pub fn offer<F: FnOnce() -> Result<T, AllocError>>(
        &mut self,
        make: F,
    ) -> Result<(Option<T>, Snapshot<T>), QueueError>
        requires { F.IsAlwaysCallable make }
        ensures made { IfOk result (λ a. F.post make (Ok a.1.value)) }
        ensures accepted { IfOk result (λ a.
            accepted_by self.new ≡ accepted_by self.old ++ a.1.value ∷ []) }
        ensures refused { OnErr result (accepted_by self.new ≡ accepted_by self.old) }
        ensures same { taken_from self.new ≡ taken_from self.old }
        ensures accepts { IfOk result (λ a.
            Accepts (core_of self.old) a.1.value a.0 (core_of self.new)) }
        ensures refuses { IfErr result (λ e. IsRefusal (core_of self.old) (error_of e)
            × (core_of self.new ≡ core_of self.old)) }
        ensures bounded { IsBounded (core_of self.old).capacity →
            IsTrue (is_open (core_of self.old)) →
            OnErr result ((error : AllocError) × F.post make (Err error)) }
    {
        let dropped = self.core.offer(make)?;
        // the text of `make` went into the queue, so for the record it is read back, as the newest one that waits
        Ok((dropped, note_newest(&self.core, &mut self.accepted)))
    }
}

impl<T, A: Allocator, N: Logs> RecordedQueue<T, A, N> {
    ghost use Rattle.std.specs.Prelude.{◌⊎◌};
    ghost use Rattle.cadence_queue.specs.Hand.{texts_by};
    ghost use Rattle.cadence_queue.specs.Queue.{IsTaken, with_handle, without_handle, after_stop};
    ghost use Rattle.cadence_queue.specs.RecordedQueue.{accepted_by, core_of, taken_from};
    ghost use Rattle.cadence_queue.specs.QueueTaken.{AreTaken, text_if_taken};

    /// Moves the oldest texts into an empty ring, in order: as many as the ring has room for, or all if there are
    /// fewer. It takes no memory. In proofs the texts are added to those of the hand too.
    pub fn take_some(&mut self, hand: &mut Hand<T, N>, texts: &mut TextRing<T, A>)
        requires { texts.old.items ≡ [] }
        ensures told { texts_by hand.new ≡ texts_by hand.old ++ texts.new.items }
        ensures noted { taken_from self.new ≡ taken_from self.old ++ texts.new.items }
        ensures same { accepted_by self.new ≡ accepted_by self.old }
        ensures taken { AreTaken (core_of self.old) texts.new.items (core_of self.new) }
        ensures room { texts.new.capacity ≡ texts.old.capacity }
        ensures most { (length texts.new.items ≡ texts.old.capacity)
            ⊎ ((core_of self.new).waiting ≡ []) }
    {
        // this says, for the proof of a ring without room, that the number of taken texts is below 2^64
        let _drained = self.core.drained();
        for _ in 0..texts.room() {
            match self.take(hand) {
                Taken::Text(text) => texts.push(text),
                Taken::Empty | Taken::Ended => return,
            }
        }
    }

    /// Takes the oldest text, as `QueueCore::take` does, and adds it to the record and to the texts of the hand.
    pub fn take(&mut self, hand: &mut Hand<T, N>) -> Taken<T>
        ensures told { texts_by hand.new ≡ texts_by hand.old ++ text_if_taken result }
        ensures noted { taken_from self.new ≡ taken_from self.old ++ text_if_taken result }
        ensures same { accepted_by self.new ≡ accepted_by self.old }
        ensures taken { IsTaken (core_of self.old) result (core_of self.new) }
    {
        let answer = self.core.take();
        if let Taken::Text(text) = &answer {
            hand.note(&mut self.taken, &mut self.own, text);
        }
        answer
    }

    /// Notes that the queue is at its end, and returns, for proofs alone, that this was noted.
    pub fn note_end(&mut self) -> Seen<()>
        requires { IsEnd (core_of self.old) }
        ensures noted { result.items ≢ [] }
        ensures name { ForSome N.logs (λ names. result.name ≡ names.ended) }
        ensures same { (core_of self.new ≡ core_of self.old)
            × (accepted_by self.new ≡ accepted_by self.old)
            × (taken_from self.new ≡ taken_from self.old) }
    {
        self.ended.note(&());
        self.ended.seen()
    }

    /// Returns, for proofs alone, which texts the queue has accepted so far.
    pub fn accepted(&mut self) -> Seen<T>
        ensures items { result.items ≡ accepted_by self.old }
        ensures name { ForSome N.logs (λ names. result.name ≡ names.accepted) }
        ensures same { (core_of self.new ≡ core_of self.old)
            × (accepted_by self.new ≡ accepted_by self.old)
            × (taken_from self.new ≡ taken_from self.old) }
    {
        self.accepted.seen()
    }

    /// Returns, for proofs alone, which texts were taken so far.
    pub fn taken(&mut self) -> Seen<T>
        ensures items { result.items ≡ taken_from self.old }
        ensures name { ForSome N.logs (λ names. result.name ≡ names.taken) }
        ensures same { (core_of self.new ≡ core_of self.old)
            × (accepted_by self.new ≡ accepted_by self.old)
            × (taken_from self.new ≡ taken_from self.old) }
    {
        self.taken.seen()
    }

    /// Stops the queue, as `QueueCore::stop` does. The record doesn't change.
    pub fn stop(&mut self)
        ensures queue { core_of self.new ≡ after_stop (core_of self.old) }
        ensures same { (accepted_by self.new ≡ accepted_by self.old)
            × (taken_from self.new ≡ taken_from self.old) }
    {
        self.core.stop();
    }

    /// Counts one more handle, as `QueueCore::add_handle` does. The record doesn't change.
    pub fn add_handle(&mut self)
        ensures queue { core_of self.new ≡ with_handle (core_of self.old) }
        ensures same { (accepted_by self.new ≡ accepted_by self.old)
            × (taken_from self.new ≡ taken_from self.old) }
    {
        self.core.add_handle();
    }

    /// Counts one handle less, as `QueueCore::drop_handle` does. The record doesn't change.
    pub fn drop_handle(&mut self)
        ensures queue { core_of self.new ≡ without_handle (core_of self.old) }
        ensures same { (accepted_by self.new ≡ accepted_by self.old)
            × (taken_from self.new ≡ taken_from self.old) }
    {
        self.core.drop_handle();
    }

    /// Returns the queue without its record. The record is its past.
    pub fn core(&self) -> &QueueCore<T, A>
        ensures queue { result.now ≡ core_of self.now }
        ensures past { ∥ IsPast (accepted_by self.now) (taken_from self.now) result.now ∥₁ }
    {
        &self.core
    }
}

impl<T, A: Allocator, J: Names> RecordedQueue<T, A, Named<J>> {
    ghost use mathlib.Core.List.{IsPrefix};
    ghost use Rattle.cadence_queue.specs.Hand.{texts_by};
    ghost use Rattle.cadence_queue.specs.RecordedQueue.{accepted_by, core_of, taken_from};

    /// What was taken from the queue is what this hand took. The call changes nothing.
    pub fn meets(&mut self, hand: &mut Hand<T, Named<J>>)
        ensures taken { taken_from self.new ≡ texts_by hand.old }
        ensures hand { texts_by hand.new ≡ texts_by hand.old }
        ensures same { (core_of self.new ≡ core_of self.old)
            × (accepted_by self.new ≡ accepted_by self.old) }
    {
        hand.meets(&mut self.taken);
    }

    /// If the end of the queue was seen, the queue is at its end. The call changes nothing.
    pub fn has_ended(&mut self, seen: &mut Seen<()>)
        requires name { seen.old.name ≡ J.names.ended }
        requires noted { seen.old.items ≢ [] }
        ensures end { IsEnd (core_of self.new) }
        ensures same { (core_of self.new ≡ core_of self.old) × (seen.new ≡ seen.old)
            × (accepted_by self.new ≡ accepted_by self.old)
            × (taken_from self.new ≡ taken_from self.old) }
    {
        self.ended.began(seen);
    }

    /// What was seen as accepted was accepted first. The call changes nothing.
    pub fn has_accepted(&mut self, seen: &mut Seen<T>)
        requires { seen.old.name ≡ J.names.accepted }
        ensures begins { IsPrefix seen.old.items (accepted_by self.new) }
        ensures same { (core_of self.new ≡ core_of self.old) × (seen.new ≡ seen.old)
            × (taken_from self.new ≡ taken_from self.old) }
    {
        self.accepted.began(seen);
    }

    /// What was seen as taken was taken first. The call changes nothing.
    pub fn has_taken(&mut self, seen: &mut Seen<T>)
        requires { seen.old.name ≡ J.names.taken }
        ensures begins { IsPrefix seen.old.items (taken_from self.new) }
        ensures same { (core_of self.new ≡ core_of self.old) × (seen.new ≡ seen.old)
            × (accepted_by self.new ≡ accepted_by self.old) }
    {
        self.taken.began(seen);
    }
}

// A derived drop would want texts that can be dropped.
impl<T> Drop for QueueLogs<T> {
    fn drop(self) {
        let QueueLogs {
            accepted: _,
            taken: _,
            own: _,
            ended: _,
        } = self;
    }
}
