//! How texts are taken out of a shared queue: one by one, or several at a time by a taker. No other module has the right
//! to take one.
//!
//! - `end`: what a taker shows of the end of its queue
//! - `hand`: the right to take a text
//! - `taker`: what moves texts out of the queue, several at a time
ghost use Rattle.std.specs.Prelude.{◌≡◌};

pub mod end;
pub mod hand;
pub mod taker;

use super::shared_queue::SharedQueue;
use super::under_lock::{QueueStep, UnderLock};
use crate::Taken;
use cadence_stage::{Logs, acquire, spin};
use hand::Hand;
use std::alloc::Allocator;
use std::sync::{MutexGuard, Wait};
use std::thread;
use std::time::{Clock, Duration};

// The four numbers here were chosen by measurement. They decide how fast the worker is, and nothing else: no contract
// speaks of them, and the queue would be correct with any others.

/// How often a worker looks for texts before it sleeps. It doesn't sleep at once, because a caller that has to wake the
/// worker takes longer.
const LOOKS: u32 = 8;

/// After how many of its looks a worker waits on its processor before it looks again. After the others it yields. If it
/// yielded at once, it would lose its processor to a caller whenever it has emptied a small queue, while the next text
/// is already being made.
const LOOKS_BEFORE_A_YIELD: u32 = 3;

/// How often a worker tries the lock in one look, if another thread holds it.
const TRIES: u32 = 8;

/// How many turns of an empty loop a worker waits between two tries of the lock, and before a look if it doesn't yield.
/// A caller waits longer (`acquire`).
const TURNS_BETWEEN_TRIES: u32 = 100;

impl<T, A: Allocator, M: Drop> SharedQueue<T, A, M> {
    ghost use Rattle.std.specs.Prelude.{◌≢◌, false};
    ghost use Rattle.cadence_queue.specs.declared.queue_core.Taken.TheVariants.{Empty};
    ghost use Rattle.cadence_queue.specs.Queue.{IsTaken};
    ghost use Rattle.cadence_queue.specs.Shown.{after_of, before_of};

    /// Takes the oldest text, if there is one, and shows the step. It doesn't wait.
    pub fn try_take(&self, rt: &impl Wait) -> (Taken<T>, QueueStep<T, A>)
        ensures { IsTaken (before_of result.1) result.0 (after_of result.1) }
    {
        let mut state = acquire(&self.state, rt);
        self.begin_take(&mut state);
        state.take(&mut Hand::new())
    }

    /// Takes the oldest text, and shows the step. If there is none, it waits for one, unless the queue is stopped.
    pub fn take_wait(&self, rt: &impl Wait) -> (Taken<T>, QueueStep<T, A>)
        ensures taken { IsTaken (before_of result.1) result.0 (after_of result.1) }
        ensures text { result.0 ≢ Empty }
    {
        let mut state = self.sleep(rt);
        self.begin_take(&mut state);
        state.take(&mut Hand::new())
    }
}

impl<T, A: Allocator, M: Drop, N: Logs> SharedQueue<T, A, M, N> {
    ghost use Rattle.std.specs.Prelude.{IfSome, false};
    ghost use Rattle.std.specs.Sync.Mutex.{mutex_guard_value};
    ghost use Rattle.cadence_queue.specs.Shown.{IsReady};

    // Sleeps until the queue has a text or is stopped, and returns what lies under its lock.
    fn sleep(&self, rt: &impl Wait) -> MutexGuard<'_, UnderLock<T, A, M, N>>
        ensures { IsReady (mutex_guard_value result) }
    {
        self.changed.wait_while(
            rt,
            self.state.lock(rt),
            |state| state.queue.core().is_idle(),
        )
    }

    // Looks at the queue as `look_often` does, and then sleeps as `sleep` does, but at most for this time. Returns `None` if
    // the time has passed, or if the clock can't be read.
    fn wait_within<R: Wait + Clock>(
        &self,
        rt: &R,
        time: Duration,
    ) -> Option<MutexGuard<'_, UnderLock<T, A, M, N>>>
        ensures { IfSome result (λ state. IsReady (mutex_guard_value state)) }
    {
        let found = self.look_often();
        if found.is_some() {
            return found;
        }
        let (state, outcome) = self.changed.wait_timeout_while(
            rt,
            self.state.lock(rt),
            time,
            |state| state.queue.core().is_idle(),
        );
        if outcome.timed_out() {
            return None;
        }
        Some(state)
    }

    // Looks at the queue several times, as `look` does, and lets other threads run between the later looks.
    fn look_often(&self) -> Option<MutexGuard<'_, UnderLock<T, A, M, N>>>
        ensures { IfSome result (λ state. IsReady (mutex_guard_value state)) }
    {
        for looks in 0..LOOKS {
            let found = self.look();
            if found.is_some() {
                return found;
            }
            if looks < LOOKS_BEFORE_A_YIELD {
                spin(TURNS_BETWEEN_TRIES);
            } else {
                thread::yield_now();
            }
        }
        None
    }

    // Returns what lies under the lock, if the queue has a text or is stopped. Returns `None` if the worker has to wait for
    // a text, or if the lock stays held for long. To sleep for the lock would force its holder to wake the worker.
    fn look(&self) -> Option<MutexGuard<'_, UnderLock<T, A, M, N>>>
        ensures { IfSome result (λ state. IsReady (mutex_guard_value state)) }
    {
        for _ in 0..TRIES {
            if let Some(state) = self.state.try_lock() {
                if state.queue.core().is_idle() {
                    return None;
                }
                return Some(state);
            }
            spin(TURNS_BETWEEN_TRIES);
        }
        None
    }
}
