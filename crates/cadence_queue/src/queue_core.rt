//! A queue of texts for one thread. It has a stop mark, a capacity or none, a count of handles, and counts of the texts
//! that it accepted, that were taken, and that it dropped.
ghost use Rattle.std.specs.Prelude.{◌≡◌, [], length, slice_get, option_copied, IfOk, IfErr, OnErr, IsOk, IsTrue, Ok, Err, true, false};
ghost use Rattle.std.specs.declared.alloc.AllocError.{AllocError};
ghost use Rattle.cadence_queue.specs.QueueRoom.{IsBounded, OnlyWantsRoom};
ghost use Rattle.cadence_queue.specs.QueueState.{IsWithin, IsCounted, HasDropped};
ghost use Rattle.cadence_queue.specs.Queue.{Accepts, IsRefusal, error_of, is_open, lacks_room, IsTaken, after_stop, with_handle, without_handle, new_queue, is_full, is_idle};
ghost use Rattle.cadence_queue.specs.QueueModel.{IsQueueOf, IsAccepted, IsNext};
ghost use Rattle.cadence_queue.specs.declared.policy.QueuePolicy.TheVariants.{Refuse};

use super::policy::QueuePolicy;
use super::queue_error::QueueError;
use super::text_ring::TextRing;
use cadence_errors::{MetricResult, SinkError};
use std::alloc::{AllocError, Allocator, Global};
use std::marker::Model;

/// What a take from a queue returns.
#[derive(Clone, Drop, PartialEq, Eq)]
pub enum Taken<T> {
    /// The oldest text.
    Text(T),
    /// No text waits, but more may come.
    Empty,
    /// No text waits, and the queue is stopped.
    Ended,
}

/// A queue of texts. A submit adds a text at the end, and a take returns the oldest one. Its calls never let a text go, so
/// a text may be of a type that can't be dropped.
#[derive(Drop)]
pub struct QueueCore<T, A: Allocator = Global> {
    texts: TextRing<T, A>,
    capacity: Option<usize>,
    policy: QueuePolicy,
    stopped: bool,
    handles: u64,
    submitted: u64,
    drained: u64,
    dropped: u64,
}

impl<T, A: Allocator> Model for QueueCore<T, A> {
    ghost use Rattle.cadence_queue.specs.QueueState.{Queue, queue_code, IsWithin, IsCounted, HasDropped};
    ghost use Rattle.cadence_queue.specs.QueueRoom.{HasRoom};

    ghost Value = { Queue T };

    ghost coded = { queue_code T.code };

    ghost view = { λ q. record {
      waiting = q.texts.items;
      capacity = q.capacity;
      policy = q.policy;
      stopped = q.stopped;
      handles = q.handles;
      submitted = q.submitted;
      drained = q.drained;
      dropped = q.dropped;
    } };

    ghost invariant = { λ q. IsWithin q.capacity q.texts.items
        × IsCounted q.texts.items q.submitted q.drained q.dropped
        × HasRoom q.capacity q.texts.capacity
        × HasDropped q.policy q.capacity q.dropped };
}

impl<T, A: Allocator + Clone> QueueCore<T, A> {
    /// Makes an empty queue with one handle. At most `capacity` texts wait in it, and a full queue refuses more; `None`
    /// means that any number may wait. A queue with a capacity takes the memory for all its texts now. The only error
    /// is `OutOfMemory`.
    pub fn new(alloc: A, capacity: Option<usize>) -> MetricResult<Self>
        ensures made { IfOk result (λ q. q ≡ new_queue capacity Refuse) }
        ensures past { IfOk result (IsQueueOf [] []) }
        ensures refused { OnlyWantsRoom capacity result }
    {
        QueueCore::with_policy(alloc, capacity, QueuePolicy::Refuse)
    }

    /// Makes an empty queue with one handle, as `new` does, and with this policy for a full queue.
    pub fn with_policy(alloc: A, capacity: Option<usize>, policy: QueuePolicy) -> MetricResult<Self>
        ensures made { IfOk result (λ q. q ≡ new_queue capacity policy) }
        ensures past { IfOk result (IsQueueOf [] []) }
        ensures refused { OnlyWantsRoom capacity result }
    {
        let texts = TextRing::with_room(alloc, capacity.unwrap_or(0))?;
        Ok(QueueCore {
            texts,
            capacity,
            policy,
            stopped: false,
            handles: 1,
            submitted: 0,
            drained: 0,
            dropped: 0,
        })
    }

    /// Adds a text at the end. Returns the text that a full queue dropped for it, if it dropped one. A queue with a
    /// capacity takes no memory here.
    ///
    /// The errors are `ChannelDisconnected` if the queue is stopped, `ChannelFull` if it is full and has no text to
    /// drop, and `OutOfMemory`. After an error the text comes back, and the queue has not changed.
    pub fn submit(&mut self, text: T) -> Result<Option<T>, (SinkError, T)>
        ensures accepted { IfOk result (λ dropped. Accepts self.old text dropped self.new) }
        ensures refused { IfErr result (λ e.
            IsRefusal self.old e.0 × (e.1 ≡ text) × (self.new ≡ self.old)) }
        ensures bounded { IsBounded self.old.capacity → IsTrue (is_open self.old) → IsOk result }
        ensures past { IfOk result (λ dropped. IsAccepted self.old text dropped self.new) }
    {
        match self.add(text) {
            Ok(dropped) => Ok(dropped),
            Err((refusal, text)) => Err((refusal.into(), text)),
        }
    }

    /// Adds a text at the end, as `submit` does, but returns a small error.
    pub fn add(&mut self, text: T) -> Result<Option<T>, (QueueError, T)>
        ensures accepted { IfOk result (λ dropped. Accepts self.old text dropped self.new) }
        ensures refused { IfErr result (λ e.
            IsRefusal self.old (error_of e.0) × (e.1 ≡ text) × (self.new ≡ self.old)) }
        ensures bounded { IsBounded self.old.capacity → IsTrue (is_open self.old) → IsOk result }
    {
        if !self.is_open() {
            return Err((self.why_closed(), text));
        }
        if self.is_full() {
            return Ok(self.replace_oldest(text));
        }
        if self.texts.reserve().is_err() {
            return Err((QueueError::OutOfMemory, text));
        }
        self.submitted = self.submitted.wrapping_add(1);
        self.texts.push(text);
        Ok(None)
    }

    /// Adds the text that `make` makes at the end. Returns the text that a full queue dropped for it, if it dropped one.
    /// `make` is called only if the queue would accept a text and has room for it, so a queue that is stopped or full
    /// refuses without taking memory.
    ///
    /// The errors are `Stopped` if the queue is stopped, `Full` if it is full and has no text to drop, and `OutOfMemory`
    /// if memory ran out for `make` or for the queue. The queue has not changed after an error.
    pub fn offer<F: FnOnce() -> Result<T, AllocError>>(
        &mut self,
        make: F,
    ) -> Result<Option<T>, QueueError>
        requires { F.IsAlwaysCallable make }
        ensures accepted { IfOk result (λ dropped. (text : T)
            × F.post make (Ok text) × Accepts self.old text dropped self.new) }
        ensures refused { IfErr result (λ e.
            IsRefusal self.old (error_of e) × (self.new ≡ self.old)) }
        ensures bounded { IsBounded self.old.capacity → IsTrue (is_open self.old) →
            OnErr result ((error : AllocError) × F.post make (Err error)) }
    {
        if !self.is_open() {
            return Err(self.why_closed());
        }
        let is_full = self.is_full();
        if !is_full && self.texts.reserve().is_err() {
            return Err(QueueError::OutOfMemory);
        }
        let Ok(text) = make() else {
            return Err(QueueError::OutOfMemory);
        };
        if is_full {
            return Ok(self.replace_oldest(text));
        }
        self.submitted = self.submitted.wrapping_add(1);
        self.texts.push(text);
        Ok(None)
    }
}

impl<T, A: Allocator> QueueCore<T, A> {
    /// Returns whether the queue is full: the number of waiting texts has reached the capacity.
    pub fn is_full(&self) -> bool
        ensures { result ≡ is_full self.now }
    {
        match self.capacity {
            Some(capacity) => self.texts.len() >= capacity,
            None => false,
        }
    }

    /// Returns whether the queue is full and has no text to drop for another.
    pub(super) fn lacks_room(&self) -> bool
        ensures { result ≡ lacks_room self.now }
    {
        self.is_full() && (self.policy == QueuePolicy::Refuse || self.texts.len() == 0)
    }

    // Returns whether the queue accepts a text if memory doesn't run out.
    fn is_open(&self) -> bool
        ensures { result ≡ is_open self.now }
    {
        !self.stopped && !self.lacks_room()
    }

    // Adds a text at the end of a full queue, and returns the oldest text, which it drops for it. It is a function of its
    // own, because a function clears all its local variables when it starts, and `offer` is faster without the variables
    // of this case.
    fn replace_oldest(&mut self, text: T) -> Option<T>
        requires full { is_full self.old ≡ true }
        requires open { IsTrue (is_open self.old) }
        ensures { Accepts self.old text result self.new }
    {
        self.submitted = self.submitted.wrapping_add(1);
        self.dropped = self.dropped.wrapping_add(1);
        let oldest = self.texts.pop_front();
        self.texts.push(text);
        oldest
    }

    // Returns why a queue that isn't open refuses a text.
    fn why_closed(&self) -> QueueError
        requires { is_open self.now ≡ false }
        ensures { IsRefusal self.now (error_of result) }
    {
        if self.stopped {
            QueueError::Stopped
        } else {
            QueueError::Full
        }
    }

    /// Takes the oldest text. It takes no memory.
    pub fn take(&mut self) -> Taken<T>
        ensures taken { IsTaken self.old result self.new }
        ensures past { IsNext self.old result self.new }
    {
        match self.texts.pop_front() {
            Some(text) => {
                self.drained = self.drained.wrapping_add(1);
                Taken::Text(text)
            }
            None if self.stopped => Taken::Ended,
            None => Taken::Empty,
        }
    }

    /// Stops the queue: it refuses texts from now on. Texts that wait can still be taken. A second stop changes
    /// nothing.
    pub fn stop(&mut self)
        ensures { self.new ≡ after_stop self.old }
    {
        self.stopped = true;
    }

    /// Counts one more handle. A count that reached `u64::MAX` stays there, so such a queue is never stopped by its
    /// handles.
    pub fn add_handle(&mut self)
        ensures { self.new ≡ with_handle self.old }
    {
        self.handles = self.handles.saturating_add(1);
    }

    /// Counts one handle less. If it was the last one, stops the queue. A queue without handles doesn't change.
    pub fn drop_handle(&mut self)
        ensures { self.new ≡ without_handle self.old }
    {
        if self.handles == 0 || self.handles == u64::MAX {
            return;
        }
        self.handles -= 1;
        if self.handles == 0 {
            self.stop();
        }
    }

    /// Returns how many texts may wait, or `None` if any number may.
    pub fn capacity(&self) -> Option<usize>
        ensures { result ≡ self.now.capacity }
    {
        self.capacity
    }

    /// Returns what the queue does with one more text when it is full.
    pub fn policy(&self) -> QueuePolicy
        ensures { result ≡ self.now.policy }
    {
        self.policy
    }

    /// Returns whether the queue is stopped.
    pub fn is_stopped(&self) -> bool
        ensures { result ≡ self.now.stopped }
    {
        self.stopped
    }

    /// Returns whether no text waits, but more may come.
    pub fn is_idle(&self) -> bool
        ensures { result ≡ is_idle self.now }
    {
        !self.stopped && self.texts.len() == 0
    }

    /// Returns how many texts wait. That is at most the capacity, and it is the number of accepted texts minus those
    /// that were taken or dropped, modulo 2^64.
    pub fn waiting(&self) -> usize
        ensures waiting { result ≡ length self.now.waiting }
        ensures within { IsWithin self.now.capacity self.now.waiting }
        ensures counted { let q = self.now in
            IsCounted q.waiting q.submitted q.drained q.dropped }
    {
        self.texts.len()
    }

    /// Returns the text at this place, counted from 0, the oldest.
    pub fn get(&self, index: usize) -> Option<&T>
        ensures { option_copied result ≡ slice_get self.now.waiting index }
    {
        self.texts.get(index)
    }

    /// Returns how many texts the queue has accepted so far, modulo 2^64.
    pub fn submitted(&self) -> u64
        ensures { result ≡ self.now.submitted }
    {
        self.submitted
    }

    /// Returns how many texts were taken so far, modulo 2^64.
    pub fn drained(&self) -> u64
        ensures { result ≡ self.now.drained }
    {
        self.drained
    }

    /// Returns how many texts a full queue has dropped so far to make room, modulo 2^64. It is 0 for a queue that
    /// refuses, or that has no capacity.
    pub fn dropped(&self) -> u64
        ensures dropped { result ≡ self.now.dropped }
        ensures none { HasDropped self.now.policy self.now.capacity result }
    {
        self.dropped
    }
}
