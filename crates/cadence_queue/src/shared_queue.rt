//! A queue of texts that threads share, with a record of its past that only proofs read.
ghost use Rattle.std.specs.Option.{ForSome};
ghost use Rattle.std.specs.Prelude.{◌≡◌, ◌≢◌, ◌∷◌, [], ◌++◌, IfErr, IfOk, OnErr, None, Ok, Err, List, Option, IsTrue};
ghost use Rattle.std.specs.declared.alloc.AllocError.{AllocError};
ghost use Rattle.cadence_errors.specs.declared.SinkError.TheVariants.{ChannelFull};
ghost use Rattle.cadence_queue.specs.Queue.{Accepts, IsQueueRefusal, after_stop, error_of, is_open, without_handle};
ghost use Rattle.cadence_queue.specs.QueueRoom.{IsBounded, OnlyWantsRoom};
ghost use Rattle.cadence_queue.specs.declared.policy.QueuePolicy.TheVariants.{Refuse};
ghost use Rattle.cadence_queue.specs.declared.queue_error.QueueError.TheVariants.{Full};
ghost use Rattle.cadence_queue.specs.RecordedQueue.{core_of};
ghost use Rattle.cadence_queue.specs.SharedQueue.{bound_of, rule_of};
ghost use Rattle.cadence_queue.specs.Shown.{IsRefused, accepted_after, after_of, before_of, log_after};
ghost use Rattle.cadence_stage.specs.OwnLog.{name_of};

use super::entering::FullMark;
use super::recorded_queue::{QueueLogs, RecordedQueue};
use super::under_lock::{QueueStep, UnderLock};
use crate::{QueueError, QueuePolicy};
use cadence_errors::{MetricResult, SinkError};
use cadence_stage::{Logs, Seen, Unnamed};
use std::alloc::{AllocError, Allocator, Global};
use std::snapshot::Snapshot;
use std::sync::{Condvar, Mutex, Wait};

/// A queue of texts under a lock, which threads share by reference. Each call takes the lock and does one step of a
/// `QueueCore`; a `Taker` does several takes in a row. What lies under the lock is a `RecordedQueue`, so whenever the
/// lock is free, each text that the queue accepted so far was taken or dropped, or it waits.
///
/// `submit_shown`, `offer`, `try_take`, `take_wait`, `stop` and `drop_handle` also show, in proofs, the states of the queue
/// between which they made their step. No call lets a text go, so none loses one under the lock: a text may be of a type
/// that can't be dropped. `M` is the type of a text that the worker is done with: `offer` reuses its memory for a later
/// text.
#[derive(Drop)]
pub struct SharedQueue<T, A: Allocator = Global, M = T, N: Logs = Unnamed> {
    pub(super) state: Mutex<UnderLock<T, A, M, N>>,
    // a text came to an idle queue, or the queue was stopped
    pub(super) changed: Condvar,
    capacity: Option<usize>,
    policy: QueuePolicy,
    // whether a caller has found the queue full since texts were last taken
    pub(super) full: FullMark,
}

impl<T, A: Allocator + Clone> SharedQueue<T, A> {
    /// Makes an empty queue with one handle. At most `capacity` texts wait in it, and a full queue refuses more; `None`
    /// means that any number may wait. A queue with a capacity takes the memory for all its texts now. The only error
    /// is `OutOfMemory`.
    pub fn new(alloc: A, capacity: Option<usize>) -> MetricResult<Self>
        ensures capacity { IfOk result (λ q. bound_of q ≡ capacity) }
        ensures policy { IfOk result (λ q. rule_of q ≡ Refuse) }
        ensures refused { OnlyWantsRoom capacity result }
    {
        SharedQueue::with_policy(alloc, capacity, QueuePolicy::Refuse)
    }

    /// Makes an empty queue with one handle, as `new` does, and with this policy for a full queue.
    pub fn with_policy(alloc: A, capacity: Option<usize>, policy: QueuePolicy) -> MetricResult<Self>
        ensures capacity { IfOk result (λ q. bound_of q ≡ capacity) }
        ensures policy { IfOk result (λ q. rule_of q ≡ policy) }
        ensures refused { OnlyWantsRoom capacity result }
    {
        Ok(SharedQueue::of(RecordedQueue::new(alloc, capacity, policy)?))
    }
}

impl<T, A: Allocator + Clone, N: Logs> SharedQueue<T, A, T, N> {
    /// Makes an empty queue with one handle, as `with_policy` does, with these logs.
    pub fn with_logs(
        alloc: A,
        capacity: Option<usize>,
        policy: QueuePolicy,
        logs: QueueLogs<T>,
    ) -> MetricResult<Self>
        requires unnamed { N.logs ≡ None → logs.own.name ≡ logs.taken.name }
        requires named { ForSome N.logs (λ names. (name_of logs.accepted ≡ names.accepted)
            × (logs.taken.name ≡ names.taken) × (name_of logs.ended ≡ names.ended)) }
        ensures capacity { IfOk result (λ q. bound_of q ≡ capacity) }
        ensures policy { IfOk result (λ q. rule_of q ≡ policy) }
        ensures refused { OnlyWantsRoom capacity result }
    {
        let queue = RecordedQueue::with_logs(alloc, capacity, policy, logs)?;
        Ok(SharedQueue::of(queue))
    }
}

impl<T, A: Allocator, M, N: Logs> SharedQueue<T, A, M, N> {
    // Puts a queue under a lock. Its capacity and its policy can be read outside the lock.
    fn of(queue: RecordedQueue<T, A, N>) -> Self
        ensures capacity { bound_of result ≡ (core_of queue).capacity }
        ensures policy { rule_of result ≡ (core_of queue).policy }
    {
        let (capacity, policy) = (queue.core().capacity(), queue.core().policy());
        SharedQueue {
            state: Mutex::new(UnderLock {
                queue,
                spares: None,
                late: 0,
            }),
            changed: Condvar::new(),
            capacity,
            policy,
            full: FullMark::new(),
        }
    }

    /// Returns how many texts may wait, or `None` if any number may. It takes no lock.
    pub fn capacity(&self) -> Option<usize>
        ensures { result ≡ bound_of self.now }
    {
        self.capacity
    }

    /// Returns why this queue refused a text with this error.
    // A queue without a capacity is never full. But a contract can't state that the capacity under the lock is the one
    // outside it, so for the checker such a queue may be full. Therefore a queue without a capacity returns `Full` as
    // `OutOfMemory`, which no run does, and the contracts can promise that it is never full.
    pub fn why(&self, error: QueueError) -> QueueError
        ensures reason { bound_of self.now ≢ None → result ≡ error }
        ensures refusal { IsQueueRefusal (error_of result) }
        ensures unbounded { bound_of self.now ≡ None → result ≢ Full }
    {
        match error {
            QueueError::Full if self.capacity.is_none() => QueueError::OutOfMemory,
            why => why,
        }
    }
}

impl<T, A: Allocator + Clone, M: Drop, N: Logs> SharedQueue<T, A, M, N> {
    /// Adds a text at the end, and wakes the threads that wait for one. It doesn't wait for room: if the queue is full, the
    /// caller gives way to the worker once, for a moment, and then tries again if texts were taken or one can be dropped.
    ///
    /// Returns the text that a full queue dropped for the new one, if it dropped one. The errors are
    /// `ChannelDisconnected` if the queue is stopped, `ChannelFull` if it is full and drops no text, and `OutOfMemory`.
    /// After an error the text comes back, and the queue has not changed.
    pub fn submit(&self, rt: &impl Wait, text: T) -> Result<Option<T>, (SinkError, T)>
        ensures refused { IfErr result (λ e. IsQueueRefusal e.0 × (e.1 ≡ text)) }
        ensures unbounded { bound_of self.now ≡ None → IfErr result (λ e. e.0 ≢ ChannelFull) }
    {
        let (answer, _step) = self.submit_shown(rt, text);
        match answer {
            Ok(dropped) => Ok(dropped),
            Err((error, text)) => Err((self.why(error).into(), text)),
        }
    }

    /// Adds a text at the end, as `submit` does, and shows the step.
    pub fn submit_shown(
        &self,
        rt: &impl Wait,
        text: T,
    ) -> (Result<Option<T>, (QueueError, T)>, QueueStep<T, A>)
        ensures accepts { IfOk result.0 (λ dropped.
            Accepts (before_of result.1) text dropped (after_of result.1)) }
        ensures refuses { IfErr result.0 (λ e. IsRefused result.1 e.0 × (e.1 ≡ text)) }
        ensures last { IfOk result.0 (λ _. (earlier : List T)
            × (accepted_after result.1 ≡ earlier ++ text ∷ [])) }
        ensures named { ForSome N.logs (λ names. log_after result.1 ≡ names.accepted) }
        ensures bounded { IfErr result.0 (λ _. IsBounded (before_of result.1).capacity →
            IsTrue (is_open (before_of result.1)) → ⊥) }
    {
        let mut state = match self.enter(rt) {
            Ok(state) => state,
            Err(step) => return (Err((QueueError::Full, text)), step),
        };
        let idle = state.queue.core().is_idle();
        let before = Snapshot::of(state.queue.core());
        let answer = state.queue.add(text);
        let after = Snapshot::of(state.queue.core());
        let accepted = state.queue.accepted();
        drop(state);
        self.wake(idle && answer.is_ok());
        let step = QueueStep {
            before,
            after,
            accepted,
        };
        (answer, step)
    }

    /// Adds the text that `make` makes at the end, as `submit` does, and shows the step. Returns the text that a full
    /// queue dropped for it, if it dropped one, and in proofs the text itself.
    ///
    /// `make` is called only if the queue would accept a text and has room for it. It is called under the lock, so it must
    /// not call the queue. It gets a text that the worker has handed on already, if there is one, and may make the new
    /// text in the memory of that one.
    pub fn offer<F: FnOnce(Option<M>) -> Result<T, AllocError>>(
        &self,
        rt: &impl Wait,
        make: F,
    ) -> (
        Result<(Option<T>, Snapshot<T>), QueueError>,
        QueueStep<T, A>,
    )
        requires { F.IsAlwaysCallable make }
        ensures made { IfOk result.0 (λ a. (older : Option M) × F.post make older (Ok a.1.value)) }
        ensures accepts { IfOk result.0 (λ a.
            Accepts (before_of result.1) a.1.value a.0 (after_of result.1)) }
        ensures refuses { IfErr result.0 (λ e. IsRefused result.1 e) }
        ensures last { IfOk result.0 (λ a. (earlier : List T)
            × (accepted_after result.1 ≡ earlier ++ a.1.value ∷ [])) }
        ensures named { ForSome N.logs (λ names. log_after result.1 ≡ names.accepted) }
        ensures bounded { IsBounded (before_of result.1).capacity →
            IsTrue (is_open (before_of result.1)) →
            OnErr result.0 ((older : Option M) × (error : AllocError)
            × F.post make older (Err error)) }
    {
        let mut state = match self.enter(rt) {
            Ok(state) => state,
            Err(step) => return (Err(QueueError::Full), step),
        };
        let idle = state.queue.core().is_idle();
        let spare = state.spare();
        let before = Snapshot::of(state.queue.core());
        let answer = state.queue.offer(|| make(spare));
        let after = Snapshot::of(state.queue.core());
        let accepted = state.queue.accepted();
        drop(state);
        self.wake(idle && answer.is_ok());
        let step = QueueStep {
            before,
            after,
            accepted,
        };
        (answer, step)
    }
}

impl<T, A: Allocator, M, N: Logs> SharedQueue<T, A, M, N> {
    // Wakes the threads that wait for a text, if one came to an idle queue. While a queue isn't idle, no thread waits.
    fn wake(&self, has_come: bool) {
        if has_come {
            self.changed.notify_all();
        }
    }

    /// Stops the queue: it refuses texts from now on. Texts that wait can still be taken. Wakes the threads that wait, and
    /// shows the step.
    pub fn stop(&self, rt: &impl Wait) -> QueueStep<T, A>
        ensures { after_of result ≡ after_stop (before_of result) }
    {
        let mut state = self.state.lock(rt);
        let before = Snapshot::of(state.queue.core());
        state.queue.stop();
        let after = Snapshot::of(state.queue.core());
        let accepted = state.queue.accepted();
        drop(state);
        self.changed.notify_all();
        QueueStep {
            before,
            after,
            accepted,
        }
    }

    /// Counts one more handle.
    pub fn add_handle(&self, rt: &impl Wait) {
        self.state.lock(rt).queue.add_handle();
    }

    /// Counts one handle less. If it was the last one, stops the queue. Wakes the threads that wait, and shows the step.
    pub fn drop_handle(&self, rt: &impl Wait) -> QueueStep<T, A>
        ensures { after_of result ≡ without_handle (before_of result) }
    {
        let mut state = self.state.lock(rt);
        let before = Snapshot::of(state.queue.core());
        state.queue.drop_handle();
        let after = Snapshot::of(state.queue.core());
        let accepted = state.queue.accepted();
        drop(state);
        self.changed.notify_all();
        QueueStep {
            before,
            after,
            accepted,
        }
    }

    /// Returns how many texts wait.
    pub fn waiting(&self, rt: &impl Wait) -> usize {
        self.state.lock(rt).queue.core().waiting()
    }

    /// Returns how many texts the queue has accepted so far, modulo 2^64.
    pub fn submitted(&self, rt: &impl Wait) -> u64 {
        self.state.lock(rt).queue.core().submitted()
    }

    /// Returns how many texts were taken so far, modulo 2^64.
    pub fn drained(&self, rt: &impl Wait) -> u64 {
        self.state.lock(rt).queue.core().drained()
    }

    /// Returns how many texts a full queue has dropped so far to make room, modulo 2^64.
    pub fn dropped(&self, rt: &impl Wait) -> u64 {
        self.state.lock(rt).queue.core().dropped()
    }
}
