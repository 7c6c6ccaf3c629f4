//! A taker, which moves texts out of its queue, several at a time.
ghost use Rattle.std.specs.Option.{ForSome};
ghost use Rattle.std.specs.Prelude.{◌≡◌, ◌<◌, [], ◌++◌, is_some, true};
ghost use Rattle.cadence_queue.specs.Hand.{texts_by};
ghost use Rattle.cadence_stage.specs.OwnLog.{items_of};

use super::end::{SeenEnd, TakerEnd};
use super::hand::Hand;
use crate::TextRing;
use crate::shared_queue::SharedQueue;
use crate::under_lock::{QueueStep, UnderLock};
use cadence_stage::{Logs, OwnLog, Right, Seen, Unnamed};
use std::alloc::{AllocError, Allocator, Global};
use std::snapshot::Snapshot;
use std::sync::Wait;
use std::time::{Clock, Duration};

/// How many texts a taker moves out of the queue at once, at most, and how many used ones it keeps for reuse. The
/// number was chosen by measurement, and no contract speaks of it.
const MOST_AT_ONCE: usize = 32;

impl<T, A: Allocator, M: Drop> SharedQueue<T, A, M> {
    ghost use Rattle.std.specs.Prelude.{false};
    ghost use Rattle.cadence_queue.specs.Taker.{given_by, has_ended};

    /// Makes a taker of this queue, which moves at most as many texts at once as `room` has room for.
    pub fn taker(&self, rt: &impl Wait, room: TakerRoom<T, A, M>) -> Taker<'_, T, A, M>
        ensures none { (given_by result ≡ []) × (has_ended result ≡ false) }
    {
        self.taker_with(rt, room, Hand::new())
    }
}

impl<T, A: Allocator, M: Drop, N: Logs> SharedQueue<T, A, M, N> {
    ghost use Rattle.std.specs.Prelude.{false};
    ghost use Rattle.cadence_queue.specs.Taker.{given_by, has_ended};

    /// Makes a taker of this queue, as `taker` does. If the logs of the queue have names, this is its only taker, because
    /// there is one right for each log.
    pub fn taker_by(
        &self,
        rt: &impl Wait,
        room: TakerRoom<T, A, M>,
        right: Right<T>,
        seen: Seen<T>,
    ) -> Taker<'_, T, A, M, N>
        requires named { ForSome N.logs (λ names. (right.name ≡ names.taken)
            × (seen.name ≡ names.taken)) }
        requires none { (right.items ≡ []) × (seen.items ≡ []) }
        ensures none { (given_by result ≡ []) × (has_ended result ≡ false) }
    {
        self.taker_with(rt, room, Hand::by(right, seen))
    }

    // Makes a taker that takes texts by this right.
    fn taker_with(
        &self,
        rt: &impl Wait,
        room: TakerRoom<T, A, M>,
        hand: Hand<T, N>,
    ) -> Taker<'_, T, A, M, N>
        requires { texts_by hand ≡ [] }
        ensures none { (given_by result ≡ []) × (has_ended result ≡ false) }
    {
        let (texts, done, spares) = room.into_rings();
        self.state.lock(rt).spares = Some(spares);
        Taker {
            queue: self,
            texts,
            done,
            hand,
            given: OwnLog::new(),
            end: None,
        }
    }
}

impl<T, A: Allocator + Clone, M: Drop, N: Logs> SharedQueue<T, A, M, N> {
    /// Makes the room that a taker of this queue needs: for 32 texts, or for half of the capacity if that is less, but at
    /// least for one text.
    pub fn room_of_taker(&self, alloc: A) -> Result<TakerRoom<T, A, M>, AllocError> {
        let room = match self.capacity() {
            Some(capacity) => (capacity / 2).clamp(1, MOST_AT_ONCE),
            None => MOST_AT_ONCE,
        };
        let done = TextRing::with_room(alloc.clone()?, room)?;
        let spares = TextRing::with_room(alloc.clone()?, room)?;
        // This ring comes last, because a ring of texts that can't be dropped can't be let go after an error.
        let texts = TextRing::with_room(alloc, room)?;
        Ok(TakerRoom {
            texts,
            done,
            spares,
        })
    }
}

/// The memory that a taker needs. `SharedQueue::room_of_taker` makes it.
pub struct TakerRoom<T, A: Allocator = Global, M = T> {
    // for the texts that the taker moved out of the queue and has not returned yet
    texts: TextRing<T, A>,
    // for the texts that it is done with
    done: TextRing<M, A>,
    // for the queue's spares
    spares: TextRing<M, A>,
    pub ghost empty: { texts.items ≡ [] },
    pub ghost room: { 0 < texts.capacity },
}

impl<T, A: Allocator, M: Drop> TakerRoom<T, A, M> {
    // Returns the rings: for the texts, for those that the taker is done with, and for the spares.
    fn into_rings(self) -> (TextRing<T, A>, TextRing<M, A>, TextRing<M, A>)
        ensures empty { result.0.items ≡ [] }
        ensures room { 0 < result.0.capacity }
    {
        let TakerRoom {
            texts,
            done,
            spares,
        } = self;
        (texts, done, spares)
    }
}

impl<T, A: Allocator, M: Drop> Drop for TakerRoom<T, A, M> {
    fn drop(self) {
        let (texts, _done, _spares) = self.into_rings();
        texts.destroy_empty();
    }
}

/// Moves texts out of its queue, several at a time, and returns them one by one, in order. So the lock is taken once
/// for many texts. `SharedQueue::taker` makes a taker.
///
/// The queue counts a text as taken when it is moved, also before `next` returns it. No such text is lost, because a
/// taker can't be dropped: it ends by `finish`, which requires that `next` returned all of them.
///
/// In proofs it has a record of the texts that it moved. They are those that `next` returned, followed by those that it
/// still has (`whole`).
pub struct Taker<'a, T, A: Allocator = Global, M = T, N: Logs = Unnamed> {
    queue: &'a SharedQueue<T, A, M, N>,
    texts: TextRing<T, A>,
    done: TextRing<M, A>,
    hand: Hand<T, N>,
    given: OwnLog<T>,
    // what shows the end of the queue, once it was seen
    end: Option<SeenEnd<T, A, N>>,
    pub ghost whole: { texts_by hand ≡ items_of given ++ texts.items },
    pub ghost empty: { is_some end ≡ true → texts.items ≡ [] },
    pub ghost room: { 0 < texts.capacity },
}

impl<T, A: Allocator, M: Drop, N: Logs> Taker<'_, T, A, M, N> {
    ghost use Rattle.std.specs.Prelude.{◌∷◌, ◌↔◌, IfNone, IfSome, IsTrue, false};
    ghost use Rattle.cadence_queue.specs.Shown.{AreMoved, IsReady};
    ghost use Rattle.cadence_queue.specs.End.{texts_of};
    ghost use Rattle.cadence_queue.specs.Taker.{given_by, has_ended, taken_by};

    /// Returns the oldest text that the taker has. If it has none, it first moves some out of the queue, and waits if
    /// the queue is empty and not stopped. `None` is the end: the queue is stopped and no text is left.
    pub fn next(&mut self, rt: &impl Wait) -> Option<T>
        ensures text { IfSome result (λ text.
            (given_by self.new ≡ given_by self.old ++ text ∷ [])
            × (has_ended self.new ≡ has_ended self.old)) }
        ensures end { IfNone result ((given_by self.new ≡ given_by self.old)
            × (has_ended self.new ≡ true)) }
    {
        if self.end.is_some() {
            return None;
        }
        if self.texts.len() == 0 {
            self.end = self.fetch(rt);
        }
        let text = self.texts.pop_front()?;
        self.given.note(&text);
        Some(text)
    }

    // Moves texts out of the queue for a taker that has none. It looks at the queue several times, lets other threads run
    // in between, and then sleeps. It is a function of its own, so that `next` is short enough to be inlined.
    // Without this hint a line of `bench queue 0 20` takes 44 instructions more.
    #[inline(never)]
    fn fetch(&mut self, rt: &impl Wait) -> Option<SeenEnd<T, A, N>>
        requires { (self.old.texts.items ≡ []) × (has_ended self.old ≡ false) }
        ensures same { (given_by self.new ≡ given_by self.old)
            × (has_ended self.new ≡ has_ended self.old) }
        ensures moved { AreMoved result self.new.texts.items }
    {
        let mut state = match self.queue.look_often() {
            Some(state) => state,
            None => self.queue.sleep(rt),
        };
        self.take_some(&mut state)
    }

    /// Returns, for proofs alone, what was taken from the queue by now, if its logs have names: the texts that this taker
    /// moved.
    pub fn seen(&mut self) -> Seen<T>
        ensures seen { ForSome N.logs (λ names. (result.name ≡ names.taken)
            × (result.items ≡ taken_by self.old)) }
        ensures same { (given_by self.new ≡ given_by self.old)
            × (taken_by self.new ≡ taken_by self.old)
            × (has_ended self.new ≡ has_ended self.old) }
    {
        self.hand.seen()
    }

    /// Returns whether the taker has no text, so that `next` has to look at the queue.
    pub fn is_empty(&self) -> bool
        ensures { IsTrue result ↔ taken_by self.now ≡ given_by self.now }
    {
        self.texts.len() == 0
    }

    /// Moves texts out of the queue if the taker has none, so that `next` needs no wait. If the queue is empty and not
    /// stopped, it waits for a text, but it sleeps at most for this time. Returns false if the time has passed, or if
    /// the clock can't be read. The taker has no text then.
    pub fn fetch_within<R: Wait + Clock>(&mut self, rt: &R, time: Duration) -> bool
        ensures same { (given_by self.new ≡ given_by self.old)
            × (has_ended self.new ≡ has_ended self.old) }
        ensures none { result ≡ false → taken_by self.new ≡ given_by self.new }
    {
        if self.end.is_some() || self.texts.len() > 0 {
            return true;
        }
        let Some(mut state) = self.queue.wait_within(rt, time) else {
            return false;
        };
        let _end = self.take_some(&mut state);
        true
    }

    // Moves the oldest texts out of the queue, for a taker that has none. Leaves the texts that it is done with among the
    // spares. Returns what shows the end of the queue, if it has come to its end.
    fn take_some(&mut self, state: &mut UnderLock<T, A, M, N>) -> Option<SeenEnd<T, A, N>>
        requires ready { IsReady state.old }
        requires none { (self.old.texts.items ≡ []) × (has_ended self.old ≡ false) }
        ensures same { (given_by self.new ≡ given_by self.old)
            × (has_ended self.new ≡ has_ended self.old) }
        ensures moved { AreMoved result self.new.texts.items }
    {
        self.queue.begin_take(state);
        state.take_back(&mut self.done);
        let before = Snapshot::of(state.queue.core());
        state.queue.take_some(&mut self.hand, &mut self.texts);
        if self.texts.len() > 0 {
            return None;
        }
        let after = Snapshot::of(state.queue.core());
        let noted = state.queue.note_end();
        let step = QueueStep {
            before,
            after,
            accepted: state.queue.accepted(),
        };
        Some(SeenEnd::new(step, noted))
    }

    /// Keeps a text that the worker is done with, so that a caller can make its next text in the same memory. It takes
    /// no memory: if there is no room for the text, it is freed.
    pub fn give_back(&mut self, text: M)
        ensures same { (given_by self.new ≡ given_by self.old)
            × (has_ended self.new ≡ has_ended self.old) }
    {
        if self.done.len() < self.done.room() {
            self.done.push(text);
        }
    }

    /// Ends the taker, after `next` returned `None`. It returns, for proofs alone, the texts that it took from the queue,
    /// and what shows the end of the queue. `next` returned each of these texts.
    pub fn finish(self) -> TakerEnd<T, N>
        requires { has_ended self ≡ true }
        ensures taken { texts_of result ≡ taken_by self.entry }
        ensures given { texts_of result ≡ given_by self.entry }
    {
        let Taker {
            queue: _,
            texts,
            done: _,
            hand,
            given: _,
            end,
        } = self;
        texts.destroy_empty();
        match end {
            Some(end) => end.with_hand(hand),
            None => unreachable!(),
        }
    }
}
